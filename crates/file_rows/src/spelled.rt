// Files that several rows have, byte by byte in hexadecimal digits; and what is made of digits.
ghost use Rattle.std.specs.Prelude.{◌≡◌, ◌≤◌, ◌<◌, length, All, IfOk};
ghost use Rattle.nc_format.specs.Header.{IsHeader};
ghost use Rattle.nc_format.specs.Numbers.{HasWholePieces};
ghost use Rattle.nc_format.specs.Sound.{IsSound};
ghost use Rattle.field_files.specs.FileHeader.{IsFileHeader};

use nc_format::{NcFile, read_header};
use std::alloc::Global;
use std::test::Fail;
use vec_exact::Ints;

// The mesh file of one face a panel. Its header has 248 bytes; `coord` stands at 248, `connect1` at
// 344.
pub(crate) const SMALLEST_CUBED_SPHERE: &str = "\
    43444602000000000000000a00000006000000076e756d5f64696d0000000003000000096e756d5f\
    6e6f64657300000000000008000000086e756d5f656c656d000000060000000a6e756d5f656c5f62\
    6c6b0000000000010000000e6e756d5f656c5f696e5f626c6b310000000000060000000f6e756d5f\
    6e6f645f7065725f656c31000000000400000000000000000000000b0000000200000005636f6f72\
    640000000000000200000000000000010000000000000000000000040000006000000000000000f8\
    00000008636f6e6e6563743100000002000000040000000500000000000000000000000400000060\
    0000000000000158ffffffffffffffffffffffffffffffff00000001000000010000000100000001\
    ffffffffffffffff0000000100000001ffffffffffffffff0000000100000001ffffffff00000001\
    ffffffff00000001ffffffff00000001ffffffff0000000100000005000000070000000800000006\
    00000007000000030000000400000008000000030000000100000002000000040000000100000005\
    00000006000000020000000600000008000000040000000200000001000000030000000700000005";

// Three records of 3 bytes each: 1 to 9. The variable begins at 100, and there is no padding.
pub(crate) const ONE_RECORD_VARIABLE: &str = "\
    43444602000000030000000a00000002000000017400000000000000000000016b00000000000003\
    00000000000000000000000b00000001000000016200000000000002000000000000000100000000\
    0000000000000001000000040000000000000064010203040506070809";

// Three records of two times 4 bytes: 1 to 9, and -1 to -9. The variables begin at 144 and 148.
pub(crate) const TWO_RECORD_VARIABLES: &str = "\
    43444602000000030000000a00000002000000017400000000000000000000016b00000000000003\
    00000000000000000000000b00000002000000016200000000000002000000000000000100000000\
    00000000000000010000000400000000000000900000000163000000000000020000000000000001\
    00000000000000000000000100000004000000000000009401020381fffefd8104050681fcfbfa81\
    07080981f9f8f781";

// Version 5 with a record dimension and no record: `S` is INT64, `r` is a record variable. The
// variables begin at 252 and 268.
pub(crate) const WITHOUT_RECORDS: &str = "\
    4344460500000000000000000000000a000000000000000200000000000000017400000000000000\
    0000000000000000000000016e00000000000000000000020000000c000000000000000100000000\
    0000000a66696c6c5f76616c75650000000000040000000000000001ffffffff0000000b00000000\
    00000002000000000000000153000000000000000000000100000000000000010000000000000000\
    000000000000000a000000000000001000000000000000fc00000000000000017200000000000000\
    00000002000000000000000000000000000000010000000000000000000000000000000400000000\
    00000008000000000000010c0000000000000005fffffffffffffffa";

// The overlap file of two meshes of one face each whose faces do not meet: no dimensions, three
// attributes, no variables.
pub(crate) const NO_PIECES: &str = "\
    434446020000000000000000000000000000000c000000030000000766616365735f610000000004\
    00000001000000010000000766616365735f62000000000400000001000000010000000670696563\
    657300000000000400000001000000000000000000000000";

fn digit(digit: u8) -> u8
    ensures { result < 16 }
{
    match digit {
        b'0'..=b'9' => digit - b'0',
        b'a'..=b'f' => digit - b'a' + 10,
        _ => 0,
    }
}

// The bytes of hexadecimal digits.
pub(crate) fn bytes_of(alloc: Global, digits: &str) -> Result<Vec<u8>, Fail>
    ensures { IfOk result (λ bytes. length bytes.items ≤ 1000) }
{
    let mut bytes = Vec::new(alloc);
    for pair in digits.as_bytes().chunks_exact(2) {
        bytes.push(16 * digit(pair[0]) + digit(pair[1]))?;
    }
    if bytes.len() > 1000 {
        return Err("too many bytes".into());
    }
    Ok(bytes)
}

// The mesh file of one face a panel, with some bytes changed.
pub(crate) fn edited(alloc: Global, edits: &[(usize, u8)]) -> Result<Vec<u8>, Fail>
    ensures { IfOk result (λ bytes. length bytes.items ≡ 440) }
{
    let mut bytes = bytes_of(alloc, SMALLEST_CUBED_SPHERE)?;
    for (at, new) in edits {
        if let Some(byte) = bytes.get_mut(*at) {
            *byte = *new;
        }
    }
    if bytes.len() != 440 {
        return Err("440 bytes were expected".into());
    }
    Ok(bytes)
}

pub(crate) fn header_of(alloc: Global, bytes: &[u8]) -> Result<NcFile, Fail>
    requires { length bytes.now ≤ 2147483647 }
    ensures header { IfOk result (λ file. IsHeader bytes.now (length bytes.now) file) }
    ensures sound { IfOk result IsSound }
    ensures file { IfOk result IsFileHeader }
    ensures pieces { IfOk result (λ file. All (HasWholePieces (length bytes.now)) file.vars) }
{
    match read_header(alloc, bytes, bytes.len() as u64) {
        Ok(file) => Ok(file),
        Err(_) => Err("a header was expected".into()),
    }
}

pub(crate) fn ints(alloc: Global, numbers: &[i32]) -> Result<Ints, Fail>
    ensures { IfOk result (λ ints. ints ≡ numbers.now) }
{
    Ok(Ints {
        items: numbers.to_vec(alloc)?,
    })
}
