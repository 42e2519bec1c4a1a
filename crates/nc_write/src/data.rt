// The data: values, and the records that they stand in. They are spelled part by part into a buffer
// that is used again, and each part is written before the next is spelled.
ghost use Rattle.std.specs.Prelude.{◌≡◌, ◌<◌, ◌≤◌, ◌*◌, ◌+◌, ◌-◌, ◌++◌, ℤ, List, length, replicate, slice_range, All, OnOk};
ghost use Rattle.std.specs.List.{flat_map, range_with_len};
ghost use Rattle.std.specs.Io.KnownBytes.{Appends};
ghost use Rattle.nc_write.specs.declared.NcKind.TheVariants as kinds;
ghost use Rattle.nc_write.specs.Kinds.{size_of, value};
ghost use Rattle.nc_write.specs.Extents.{pad_len};
ghost use Rattle.nc_write.specs.File.{kind_of, numbers_of, value_bytes, padded_if, fixed_data, record_data, record_of, data_of, pads_records};
ghost use Rattle.nc_write.specs.Made.{Made, made_values, made_var, made_doc};
ghost use Rattle.nc_write.specs.Form.{HasItsValues};

use crate::made_numbers::Room;
use crate::sizes::{is_record_var, pads_records};
use crate::spell::put_padding;
use crate::{DocVar, MadeNumbers, NcDoc, PART, Values};
use byteorder::{BigEndian, ByteOrder};
use std::alloc::AllocError;
use std::io::{self, Write};

// Makes the room as long as so many values of a size. What stands in it then is open; where it was
// as long before, nothing is filled.
fn fit_room(room: &mut Vec<u8>, size: usize, count: usize) -> Result<(), AllocError>
    requires { 0 < size }
    ensures { OnOk result (length room.new.items ≡ size * count) }
{
    if count > usize::MAX / size {
        return Err(AllocError);
    }
    room.resize(size * count, 0)?;
    Ok(())
}

fn put_byte(out: &mut Vec<u8>, number: i8) -> Result<(), AllocError>
    ensures { OnOk result (out.new.items ≡ out.old.items ++ value kinds.Byte number) }
{
    let byte = number.cast_unsigned();
    out.push(byte)?;
    Ok(())
}

fn spell_bytes(room: &mut Vec<u8>, numbers: &[i8]) -> Result<(), AllocError>
    ensures { OnOk result (room.new.items ≡ value_bytes kinds.Byte numbers.now) }
{
    room.clear();
    for number in numbers {
        put_byte(room, *number)?;
    }
    Ok(())
}

#[tactic(auto, unfolding(crate::specs::Kinds::value))]
fn spell_ints(room: &mut Vec<u8>, numbers: &[i32]) -> Result<(), AllocError>
    ensures { OnOk result (room.new.items ≡ value_bytes kinds.Int numbers.now) }
{
    fit_room(room, 4, numbers.len())?;
    BigEndian::write_i32_into(numbers, room);
    Ok(())
}

#[tactic(auto, unfolding(crate::specs::Kinds::value))]
fn spell_longs(room: &mut Vec<u8>, numbers: &[i64]) -> Result<(), AllocError>
    ensures { OnOk result (room.new.items ≡ value_bytes kinds.Int64 numbers.now) }
{
    fit_room(room, 8, numbers.len())?;
    BigEndian::write_i64_into(numbers, room);
    Ok(())
}

// Writes numbers of 32 bits, spelled part by part.
fn write_ints<W: Write>(out: &mut W, bytes: &mut Vec<u8>, numbers: &[i32]) -> io::Result<()>
    ensures { OnOk result (Appends (W.contents out.old) (W.contents out.new)
        (value_bytes kinds.Int numbers.now)) }
{
    let mut at = 0;
    while at < numbers.len() {
        let next = at + (PART / 4).min(numbers.len() - at);
        spell_ints(bytes, &numbers[at..next])?;
        out.write_all(bytes)?;
        at = next;
    }
    Ok(())
}

// Writes numbers of 64 bits, spelled part by part.
fn write_longs<W: Write>(out: &mut W, bytes: &mut Vec<u8>, numbers: &[i64]) -> io::Result<()>
    ensures { OnOk result (Appends (W.contents out.old) (W.contents out.new)
        (value_bytes kinds.Int64 numbers.now)) }
{
    let mut at = 0;
    while at < numbers.len() {
        let next = at + (PART / 8).min(numbers.len() - at);
        spell_longs(bytes, &numbers[at..next])?;
        out.write_all(bytes)?;
        at = next;
    }
    Ok(())
}

// Writes signed bytes.
fn write_bytes<W: Write>(out: &mut W, bytes: &mut Vec<u8>, numbers: &[i8]) -> io::Result<()>
    ensures { OnOk result (Appends (W.contents out.old) (W.contents out.new)
        (value_bytes kinds.Byte numbers.now)) }
{
    spell_bytes(bytes, numbers)?;
    out.write_all(bytes)?;
    Ok(())
}

// Makes and writes the numbers that a list of 32-bit numbers stands for, from one place up to
// another.
fn write_made_ints<W: Write, M: MadeNumbers>(
    out: &mut W,
    room: &mut Room,
    made: &M,
    listed: &[i32],
    from: usize,
    to: usize,
) -> io::Result<()>
    requires order { from ≤ to }
    requires within { to ≤ length ((M.numbers made.now).ints listed.now) }
    ensures { OnOk result (Appends (W.contents out.old) (W.contents out.new)
        (value_bytes kinds.Int (slice_range ((M.numbers made.now).ints listed.now) from to))) }
{
    room.ints.resize(to - from, 0)?;
    made.put_ints(listed, from, &mut room.ints);
    write_ints(out, &mut room.bytes, &room.ints)
}

// Makes and writes the numbers that a list of 64-bit numbers stands for, from one place up to
// another.
fn write_made_longs<W: Write, M: MadeNumbers>(
    out: &mut W,
    room: &mut Room,
    made: &M,
    listed: &[i64],
    from: usize,
    to: usize,
) -> io::Result<()>
    requires order { from ≤ to }
    requires within { to ≤ length ((M.numbers made.now).longs listed.now) }
    ensures { OnOk result (Appends (W.contents out.old) (W.contents out.new)
        (value_bytes kinds.Int64 (slice_range ((M.numbers made.now).longs listed.now) from to))) }
{
    room.longs.resize(to - from, 0)?;
    made.put_longs(listed, from, &mut room.longs);
    write_longs(out, &mut room.bytes, &room.longs)
}

fn values_len<M: MadeNumbers>(made: &M, values: &Values) -> usize
    ensures { result ≡ length (numbers_of (made_values (M.numbers made.now) values.now)) }
{
    match values {
        Values::Byte(numbers) => numbers.items.len(),
        Values::Int(numbers) => made.count_ints(&numbers.items),
        Values::Long(numbers) => made.count_longs(&numbers.items),
    }
}

// As many values as a part has.
fn part_len<M: MadeNumbers>(made: &M, values: &Values) -> usize
    ensures { 0 < result }
{
    match values {
        Values::Byte(_) => PART,
        Values::Int(_) | Values::Long(_) => made.at_once(),
    }
}

// Writes one part: the values from one place up to another.
fn write_part<W: Write, M: MadeNumbers>(
    out: &mut W,
    room: &mut Room,
    made: &M,
    values: &Values,
    from: usize,
    to: usize,
) -> io::Result<()>
    requires order { from ≤ to }
    requires within { to ≤ length (numbers_of (made_values (M.numbers made.now) values.now)) }
    ensures { OnOk result (Appends (W.contents out.old) (W.contents out.new)
        (value_bytes (kind_of (made_values (M.numbers made.now) values.now))
        (slice_range (numbers_of (made_values (M.numbers made.now) values.now)) from to))) }
{
    match values {
        Values::Byte(numbers) => write_bytes(out, &mut room.bytes, &numbers.items[from..to]),
        Values::Int(numbers) => write_made_ints(out, room, made, &numbers.items, from, to),
        Values::Long(numbers) => write_made_longs(out, room, made, &numbers.items, from, to),
    }
}

// Writes the values from one place up to another.
fn write_values<W: Write, M: MadeNumbers>(
    out: &mut W,
    room: &mut Room,
    made: &M,
    values: &Values,
    from: usize,
    to: usize,
) -> io::Result<()>
    requires order { from ≤ to }
    requires within { to ≤ length (numbers_of (made_values (M.numbers made.now) values.now)) }
    ensures { OnOk result (Appends (W.contents out.old) (W.contents out.new)
        (value_bytes (kind_of (made_values (M.numbers made.now) values.now))
        (slice_range (numbers_of (made_values (M.numbers made.now) values.now)) from to))) }
{
    let most = part_len(made, values);
    let mut at = from;
    while at < to {
        let next = at + most.min(to - at);
        write_part(out, room, made, values, at, next)?;
        at = next;
    }
    Ok(())
}

// Writes padding, of the default fill value of BYTE, behind so many bytes.
fn write_padding<W: Write>(out: &mut W, bytes: &mut Vec<u8>, len: usize) -> io::Result<()>
    ensures { OnOk result (Appends (W.contents out.old) (W.contents out.new)
        (replicate (pad_len len) 0x81)) }
{
    bytes.clear();
    put_padding(bytes, len, 0x81)?;
    out.write_all(bytes)?;
    Ok(())
}

// How many bytes so many values have past a multiple of 4.
fn odd_bytes(values: &Values, count: usize) -> usize
    ensures { (made : Made) → pad_len result
        ≡ pad_len (size_of (kind_of (made_values made values.now)) * count) }
{
    match values {
        Values::Byte(_) => count % 4,
        Values::Int(_) => 0,
        Values::Long(_) => 0,
    }
}

// Writes the values from one place up to another, with padding where that is wanted.
fn write_piece<W: Write, M: MadeNumbers>(
    out: &mut W,
    room: &mut Room,
    made: &M,
    values: &Values,
    from: usize,
    to: usize,
    is_padded: bool,
) -> io::Result<()>
    requires order { from ≤ to }
    requires within { to ≤ length (numbers_of (made_values (M.numbers made.now) values.now)) }
    ensures { OnOk result (Appends (W.contents out.old) (W.contents out.new)
        (padded_if is_padded (value_bytes (kind_of (made_values (M.numbers made.now) values.now))
        (slice_range (numbers_of (made_values (M.numbers made.now) values.now)) from to)))) }
{
    write_values(out, room, made, values, from, to)?;
    if !is_padded {
        return Ok(());
    }
    write_padding(out, &mut room.bytes, odd_bytes(values, to - from))?;
    Ok(())
}

// Writes what a variable has before the records.
fn write_fixed<W: Write, M: MadeNumbers>(
    out: &mut W,
    room: &mut Room,
    made: &M,
    doc: &NcDoc,
    var: &DocVar,
) -> io::Result<()>
    ensures { OnOk result (Appends (W.contents out.old) (W.contents out.new)
        (fixed_data (made_doc (M.numbers made.now) doc.now)
        (made_var (M.numbers made.now) var.now))) }
{
    if is_record_var(doc, var) {
        return Ok(());
    }
    let count = values_len(made, &var.values);
    write_piece(out, room, made, &var.values, 0, count, true)?;
    Ok(())
}

// Writes what a variable has in record `r`: one of as many equal parts of its values as there are
// records.
fn write_record_part<W: Write, M: MadeNumbers>(
    out: &mut W,
    room: &mut Room,
    made: &M,
    doc: &NcDoc,
    several: bool,
    r: u32,
    var: &DocVar,
) -> io::Result<()>
    requires several { several ≡ pads_records (made_doc (M.numbers made.now) doc.now) }
    requires record { r < doc.now.records }
    requires values { HasItsValues (made_doc (M.numbers made.now) doc.now)
        (made_var (M.numbers made.now) var.now) }
    ensures { OnOk result (Appends (W.contents out.old) (W.contents out.new)
        (record_data (made_doc (M.numbers made.now) doc.now) r
        (made_var (M.numbers made.now) var.now))) }
{
    if !is_record_var(doc, var) {
        return Ok(());
    }
    let count = values_len(made, &var.values) / doc.records as usize;
    let from = r as usize * count;
    write_piece(out, room, made, &var.values, from, from + count, several)?;
    Ok(())
}

// Writes record `r` of each record variable.
fn write_record<W: Write, M: MadeNumbers>(
    out: &mut W,
    room: &mut Room,
    made: &M,
    doc: &NcDoc,
    several: bool,
    r: u32,
) -> io::Result<()>
    requires several { several ≡ pads_records (made_doc (M.numbers made.now) doc.now) }
    requires record { r < doc.now.records }
    requires values { All (λ v. HasItsValues (made_doc (M.numbers made.now) doc.now)
        (made_var (M.numbers made.now) v)) doc.now.vars }
    ensures { OnOk result (Appends (W.contents out.old) (W.contents out.new)
        (flat_map (λ v. record_data (made_doc (M.numbers made.now) doc.now) r
        (made_var (M.numbers made.now) v)) doc.now.vars)) }
{
    for var in &doc.vars.items {
        write_record_part(out, room, made, doc, several, r, var)?;
    }
    Ok(())
}

fn write_fixed_data<W: Write, M: MadeNumbers>(
    out: &mut W,
    room: &mut Room,
    made: &M,
    doc: &NcDoc,
) -> io::Result<()>
    ensures { OnOk result (Appends (W.contents out.old) (W.contents out.new)
        (flat_map (λ v. fixed_data (made_doc (M.numbers made.now) doc.now)
        (made_var (M.numbers made.now) v)) doc.now.vars)) }
{
    for var in &doc.vars.items {
        write_fixed(out, room, made, doc, var)?;
    }
    Ok(())
}

fn write_records<W: Write, M: MadeNumbers>(
    out: &mut W,
    room: &mut Room,
    made: &M,
    doc: &NcDoc,
) -> io::Result<()>
    requires { All (λ v. HasItsValues (made_doc (M.numbers made.now) doc.now)
        (made_var (M.numbers made.now) v)) doc.now.vars }
    ensures { OnOk result (Appends (W.contents out.old) (W.contents out.new)
        (flat_map (record_of (made_doc (M.numbers made.now) doc.now))
        (range_with_len 0 doc.now.records))) }
{
    let several = pads_records(doc);
    for r in 0..doc.records {
        write_record(out, room, made, doc, several, r)?;
    }
    Ok(())
}

/// Writes first the variables without the record dimension, then the records, with the numbers that
/// the lists stand for. `room` is used for the parts, and what it holds then is
/// open.
pub fn write_data<W: Write, M: MadeNumbers>(
    out: &mut W,
    room: &mut Room,
    made: &M,
    doc: &NcDoc,
) -> io::Result<()>
    requires { All (HasItsValues (made_doc (M.numbers made.now) doc.now))
        (made_doc (M.numbers made.now) doc.now).vars }
    ensures { OnOk result (Appends (W.contents out.old) (W.contents out.new)
        (data_of (made_doc (M.numbers made.now) doc.now))) }
{
    write_fixed_data(out, room, made, doc)?;
    write_records(out, room, made, doc)?;
    Ok(())
}
