// The file of a document.
ghost use Rattle.std.specs.Prelude.{◌≡◌, ◌≤◌, ◌<◌, ◌+◌, ◌^◌, ◌++◌, ℤ, List, length, IfOk, OnOk, IfErr};
ghost use Rattle.std.specs.Io.KnownBytes.{Appends};
ghost use Rattle.std.specs.List.{sum_by};
ghost use Rattle.nc_write.specs.File.{file_of, header, header_len, version_of, fixed_total, first_len};
ghost use Rattle.nc_write.specs.Form.{IsWellFormed, HasShortLists, SaysLength};
ghost use Rattle.nc_write.specs.Made.{Made, made_doc};

use crate::data::write_data;
use crate::extents::plus;
use crate::lengths::header_len;
use crate::made_numbers::{Listed, MadeNumbers, Room};
use crate::sizes::{data_len, version_of};
use crate::spell::{put_attributes, put_dimensions, put_number, put_variables};
use crate::{EncFault, NcDoc, PART};
use std::alloc::{AllocError, Global};
use std::io::{self, Write};

const MAX_FILE: u64 = 2_147_483_647;

/// The length of the one file of a document, in bytes, from the lengths of its dimensions. Of the
/// numbers that its lists stand for only their count tells.
pub fn length_of_made(doc: &NcDoc) -> u64
    requires { HasShortLists doc.now }
    ensures { (made : Made) → IsWellFormed (made_doc made doc.now)
        → result ≡ length (file_of (made_doc made doc.now)) }
{
    plus(header_len(version_of(doc), doc), data_len(doc))
}

/// The length of the one file of a document, in bytes, from the lengths of its lists.
pub fn length_of(doc: &NcDoc) -> u64
    requires { IsWellFormed doc.now }
    ensures len { result ≡ length (file_of doc.now) }
{
    length_of_made(doc)
}

#[tactic(auto, unfolding(crate::specs::File::header))]
fn put_header(out: &mut Vec<u8>, version: u8, doc: &NcDoc, begin: u64) -> Result<(), AllocError>
    requires version { version ≡ version_of doc.now }
    requires room { begin + fixed_total doc.now + sum_by (first_len doc.now) doc.now.vars < 2 ^ 63 }
    ensures { OnOk result (out.new.items ≡ out.old.items ++ header doc.now begin) }
{
    out.extend_from_slice(&[0x43, 0x44, 0x46, version])?;
    put_number(out, version, u64::from(doc.records))?;
    put_dimensions(out, version, &doc.dims.items)?;
    put_attributes(out, version, &doc.atts.items)?;
    put_variables(out, version, doc, begin)
}

// Writes the header of a document.
fn write_header<W: Write>(out: &mut W, bytes: &mut Vec<u8>, doc: &NcDoc) -> io::Result<()>
    requires short { HasShortLists doc.now }
    requires room { header_len doc.now + fixed_total doc.now + sum_by (first_len doc.now)
        doc.now.vars < 2 ^ 63 }
    ensures { OnOk result (Appends (W.contents out.old) (W.contents out.new)
        (header doc.now (header_len doc.now))) }
{
    let version = version_of(doc);
    bytes.clear();
    put_header(bytes, version, doc, header_len(version, doc))?;
    out.write_all(bytes)?;
    Ok(())
}

/// Writes the one file of the document that a document stands for: its lists stand for those that
/// `made` makes. In version 5 where a variable is Long, else in version 2. The values are made and
/// spelled part by part, so that beside the document one part stands in memory: as many numbers as
/// `made` makes at once, and 65,536 bytes. After an error some prefix of the file may have been
/// written.
pub fn write_made<W: Write, M: MadeNumbers>(
    alloc: Global,
    doc: &NcDoc,
    made: &M,
    out: &mut W,
) -> io::Result<()>
    requires { IsWellFormed (made_doc (M.numbers made.now) doc.now) }
    ensures { OnOk result (Appends (W.contents out.old) (W.contents out.new)
        (file_of (made_doc (M.numbers made.now) doc.now))) }
{
    let mut room = Room {
        bytes: Vec::with_capacity(alloc, PART)?,
        ints: Vec::new(alloc),
        longs: Vec::new(alloc),
    };
    write_header(out, &mut room.bytes, doc)?;
    write_data(out, &mut room, made, doc)?;
    Ok(())
}

/// Writes the one file of a document: in version 5 where a variable is Long, else in version 2. Its
/// values are spelled part by part, so that beside the document one part stands in memory. After an
/// error some prefix of the file may have been written.
pub fn write_document<W: Write>(alloc: Global, doc: &NcDoc, out: &mut W) -> io::Result<()>
    requires { IsWellFormed doc.now }
    ensures { OnOk result (Appends (W.contents out.old) (W.contents out.new)
        (file_of doc.now)) }
{
    write_made(alloc, doc, &Listed, out)?;
    Ok(())
}

/// The one file of a document, as bytes. `TooLarge` says the length of a file of more than
/// 2,147,483,647 bytes.
pub fn encode(alloc: Global, doc: &NcDoc) -> Result<Vec<u8>, EncFault>
    requires { IsWellFormed doc.now }
    ensures bytes { IfOk result (λ bytes. bytes.items ≡ file_of doc.now) }
    ensures fits { OnOk result (length (file_of doc.now) ≤ 2147483647) }
    ensures fault { IfErr result (SaysLength (length (file_of doc.now))) }
{
    let len = length_of(doc);
    if len > MAX_FILE {
        return Err(EncFault::TooLarge(len));
    }
    let mut out = Vec::with_capacity(alloc, len as usize)?;
    match write_document(alloc, doc, &mut out) {
        Ok(()) => Ok(out),
        Err(_) => Err(EncFault::NoMemory),
    }
}
