// Files of other hands: the mesh file of one face a panel, byte by byte, damaged and cut; and files
// with records, of version 2 and of version 5.
ghost use Rattle.std.specs.Prelude.{length, All};
ghost use Rattle.nc_format.specs.Numbers.{HasWholePieces};
ghost use Rattle.nc_format.specs.Sound.{IsSound};

use crate::compared::{same, same_at};
use crate::spelled::{
    ONE_RECORD_VARIABLE, SMALLEST_CUBED_SPHERE, TWO_RECORD_VARIABLES, WITHOUT_RECORDS, bytes_of,
    edited, header_of,
};
use nc_format::{
    NcFault, NcFile, NcVar, find_dim, find_var, gather, int_att, int_values, long_values,
    read_header,
};
use nc_write::NcKind;
use std::alloc::Global;
use std::process::Abort;
use std::test::Fail;

#[test]
fn damaged(rt: HostRuntime) -> Result<(), Fail> {
    let rows: [(&[(usize, u8)], Option<NcFault>); 15] = [
        (&[], None),
        (
            &[(4, 255), (5, 255), (6, 255), (7, 255)],
            Some(NcFault::Streaming),
        ),
        (&[(0, 68)], Some(NcFault::NotNetcdf)),
        (&[(3, 3)], Some(NcFault::BadField(3))),
        (&[(3, 5)], Some(NcFault::BadField(12))),
        (
            &[(12, 255), (13, 255), (14, 255), (15, 255)],
            Some(NcFault::BadField(180)),
        ),
        (
            &[(148, 255), (149, 255), (150, 255), (151, 255)],
            Some(NcFault::Truncated(252)),
        ),
        (&[(139, 11)], Some(NcFault::BadField(136))),
        (&[(143, 1)], Some(NcFault::BadField(140))),
        (&[(171, 6)], Some(NcFault::BadField(168))),
        (&[(187, 7)], Some(NcFault::BadField(184))),
        (&[(31, 0)], None),
        (&[(51, 0)], Some(NcFault::BadField(172))),
        (&[(192, 128)], Some(NcFault::DataOutside(1))),
        (&[(198, 1), (199, 88)], None),
    ];
    for (edits, want) in rows {
        let bytes = edited(rt.alloc(), edits)?;
        same(&rt, &read_header(rt.alloc(), &bytes, 440).err(), &want);
    }
    Ok(())
}

// What is said of the first so many bytes.
fn is_told(fault: Option<NcFault>, cut: usize) -> bool {
    match fault {
        Some(NcFault::NotNetcdf) => cut < 4,
        Some(NcFault::Truncated(at)) => 4 <= cut && cut < 248 && at <= cut as u64,
        Some(NcFault::DataOutside(1)) => 248 <= cut && cut < 344,
        Some(NcFault::DataOutside(2)) => 344 <= cut,
        _ => false,
    }
}

#[test]
fn every_cut(rt: HostRuntime) -> Result<(), Fail> {
    let bytes = bytes_of(rt.alloc(), SMALLEST_CUBED_SPHERE)?;
    assert!(rt; bytes.len() == 440);
    for cut in 0..440usize {
        let fault = read_header(rt.alloc(), &bytes[..cut], cut as u64).err();
        same_at(&rt, &is_told(fault, cut), &true, &cut);
    }
    for (cut, at) in [(18usize, 16), (22, 20), (100, 92), (247, 240)] {
        let fault = read_header(rt.alloc(), &bytes[..cut], 440).err();
        same_at(&rt, &fault, &Some(NcFault::Truncated(at)), &cut);
    }
    Ok(())
}

// The pieces of a variable: where the first one stands, how many they are, how long, and how far
// apart. And its values, of type BYTE.
fn assert_bytes(
    rt: &impl Abort,
    alloc: Global,
    whole: &[u8],
    var: &NcVar,
    pieces: (u64, u32, u64, u64),
    want: &[i32],
) -> Result<(), Fail>
    requires { HasWholePieces (length whole.now) var.now }
{
    same(rt, &(var.begin, var.parts, var.part, var.step), &pieces);
    let bytes = gather(alloc, var, whole)?;
    let values = int_values(alloc, NcKind::Byte, &bytes)?;
    same(rt, &values.as_slice(), &want);
    Ok(())
}

// Where a variable begins, and its values.
type Row = (u64, [i32; 9]);

const UPWARDS: [i32; 9] = [1, 2, 3, 4, 5, 6, 7, 8, 9];

const DOWNWARDS: [i32; 9] = [-1, -2, -3, -4, -5, -6, -7, -8, -9];

// The variables, each of three records of 3 bytes, so far apart.
fn assert_records(
    rt: &impl Abort,
    alloc: Global,
    whole: &[u8],
    file: &NcFile,
    step: u64,
    rows: &[Row],
) -> Result<(), Fail>
    requires { All (HasWholePieces (length whole.now)) file.now.vars }
{
    same(rt, &file.vars.items.len(), &rows.len());
    for (var, (begin, want)) in file.vars.items.iter().zip(rows) {
        assert_bytes(rt, alloc, whole, var, (*begin, 3, 3, step), want)?;
    }
    Ok(())
}

#[test]
fn one_record(rt: HostRuntime) -> Result<(), Fail> {
    let whole = bytes_of(rt.alloc(), ONE_RECORD_VARIABLE)?;
    let file = header_of(rt.alloc(), &whole)?;
    assert_records(&rt, rt.alloc(), &whole, &file, 3, &[(100, UPWARDS)])
}

const TWO_ROWS: [Row; 2] = [(144, UPWARDS), (148, DOWNWARDS)];

#[test]
fn two_records(rt: HostRuntime) -> Result<(), Fail> {
    let whole = bytes_of(rt.alloc(), TWO_RECORD_VARIABLES)?;
    let file = header_of(rt.alloc(), &whole)?;
    assert_records(&rt, rt.alloc(), &whole, &file, 8, &TWO_ROWS)
}

// What its names find.
fn assert_names(rt: &impl Abort, file: &NcFile)
    requires { IsSound file.now }
{
    same(rt, &int_att(&file.atts, b"fill_value"), &Some(-1));
    same(rt, &int_att(&file.atts, b"fill"), &None);
    same(rt, &find_dim(file, b"n"), &Some(1));
    same(rt, &find_dim(file, b"m"), &None);
    same(rt, &find_var(file, b"r"), &Some(1));
}

type Shape = (NcKind, u64, u32, u64, u64);

const SHAPES: [Shape; 2] = [(NcKind::Int64, 252, 1, 16, 0), (NcKind::Int, 268, 0, 0, 0)];

fn assert_shapes(rt: &impl Abort, file: &NcFile) {
    same(rt, &file.vars.items.len(), &2);
    for (var, want) in file.vars.items.iter().zip(&SHAPES) {
        let shape = (var.kind, var.begin, var.parts, var.part, var.step);
        same(rt, &shape, want);
    }
}

#[test]
fn version_5(rt: HostRuntime) -> Result<(), Fail> {
    let whole = bytes_of(rt.alloc(), WITHOUT_RECORDS)?;
    let file = header_of(rt.alloc(), &whole)?;
    same(&rt, &file.version, &5);
    assert_names(&rt, &file);
    assert_shapes(&rt, &file);
    Ok(())
}

#[test]
fn long_numbers(rt: HostRuntime) -> Result<(), Fail> {
    let whole = bytes_of(rt.alloc(), WITHOUT_RECORDS)?;
    assert!(rt; whole.len() == 268);
    let values = long_values(rt.alloc(), NcKind::Int64, &whole[252..268])?;
    same(&rt, &values.as_slice(), &[5, -6].as_slice());
    Ok(())
}
