// A whole header.
ghost use Rattle.std.specs.Prelude.{◌≡◌, ◌≤◌, ◌<◌, ◌*◌, ◌^◌, length, All, IfOk, IfErr, Ok, Err, Some};
ghost use Rattle.nc_format.specs.declared.NcFile.{NcFile};
ghost use Rattle.nc_format.specs.declared.fault.NcFault.{NcFault};
ghost use Rattle.nc_format.specs.declared.fault.NcFault.TheVariants.{NoMemory};
ghost use Rattle.vec_exact.specs.Answers.{Answers, IsFirstFault};
ghost use Rattle.nc_format.specs.Sound.{IsSound, item_count};
ghost use Rattle.nc_format.specs.Placing.{IsPlaced};
ghost use Rattle.nc_format.specs.Numbers.{HasWholePieces};
ghost use Rattle.nc_format.specs.Header.{IsHeader, header_read, fields_in, finished, header_in, first_fault};

use crate::cursor::Cursor;
use crate::placing::place_all;
use crate::{NcFault, NcFile};
use std::alloc::Global;

#[tactic(auto, unfolding(crate::specs::Header::header_read, crate::specs::Header::magic_read))]
fn fields(alloc: Global, bytes: &[u8]) -> Result<NcFile, NcFault>
    ensures read { Answers NoMemory (λ f. f) result (fields_in (header_read bytes.now)) }
    ensures few { IfOk result (λ f. length f.vars < 2 ^ 32) }
{
    if bytes.len() < 4 || bytes[0] != 0x43 || bytes[1] != 0x44 || bytes[2] != 0x46 {
        return Err(NcFault::NotNetcdf);
    }
    let version = bytes[3];
    if version != 1 && version != 2 && version != 5 {
        return Err(NcFault::BadField(3));
    }
    let mut cursor = Cursor {
        bytes,
        at: 4,
        version,
    };
    cursor.body(alloc)
}

#[tactic(auto, unfolding(crate::specs::Header::finished))]
fn finished(file: NcFile, len: u64) -> Result<NcFile, NcFault>
    requires few { length file.vars < 2 ^ 32 }
    requires len { len < 2 ^ 63 }
    ensures value { IfOk result (λ f. finished len file ≡ Ok f) }
    ensures fault { IfErr result (λ fault. finished len file ≡ Err fault) }
{
    let mut file = file;
    match place_all(&file.dims.items, file.records, len, &mut file.vars.items) {
        Some(place) => Err(NcFault::DataOutside(place + 1)),
        None => Ok(file),
    }
}

#[tactic(auto, unfolding(crate::specs::Header::header_in))]
fn header(alloc: Global, bytes: &[u8], file_len: u64) -> Result<NcFile, NcFault>
    requires { file_len ≤ 2147483647 }
    ensures { Answers NoMemory (λ f. f) result (header_in bytes.now file_len) }
{
    let file = fields(alloc, bytes)?;
    finished(file, file_len)
}

/// The header that the bytes begin with, in a file of `file_len` bytes: its dimensions, attributes
/// and variables, and where the values of each variable stand.
///
/// A fault is the first one from left to right; that data lie outside the file is said when no field
/// of the header is at fault. Lists grow as items are read, so a great count in a short file takes
/// no memory.
pub fn read_header(alloc: Global, bytes: &[u8], file_len: u64) -> Result<NcFile, NcFault>
    requires within { length bytes.now ≤ file_len }
    requires short { file_len ≤ 2147483647 }
    // What is answered is the header that the bytes begin with.
    ensures header { IfOk result (λ f. IsHeader bytes.now file_len f) }
    // Such a header is answered, unless memory runs out.
    ensures only { (f : NcFile) → IsHeader bytes.now file_len f
        → Answers NoMemory (λ g. g) result (Ok f) }
    // A fault that is answered is the first one, unless memory ran out.
    ensures fault { IfErr result (IsFirstFault NoMemory (first_fault bytes.now file_len)) }
    // A first fault is answered, unless memory runs out.
    ensures refused { (e : NcFault) → first_fault bytes.now file_len ≡ Some e
        → Answers NoMemory (λ g. g) result (Err e) }
    ensures sound { IfOk result IsSound }
    // What is kept is at most a quarter of the bytes, by number.
    ensures few { IfOk result (λ f. 4 * item_count f ≤ length bytes.now) }
    // The pieces of each variable stand where the dimensions and types say.
    ensures placed { IfOk result (λ f. All (IsPlaced f) f.vars) }
    // All pieces of each variable are inside the file, and hold whole values.
    ensures pieces { IfOk result (λ f. All (HasWholePieces file_len) f.vars) }
{
    header(alloc, bytes, file_len)
}
