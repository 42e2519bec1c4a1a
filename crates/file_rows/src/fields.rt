// Files of other hands: fields with records, with dimensions that lead twice, and with fill values;
// and the documents of what is made of them. The bytes are spelled by hand, by the netCDF classic
// format specification.
ghost use Rattle.std.specs.Prelude.{◌≡◌, ◌≤◌, length, IfOk};
ghost use Rattle.nc_format.specs.Header.{IsHeader};
ghost use Rattle.nc_format.specs.Sound.{IsSound};
ghost use Rattle.nc_write.specs.Form.{IsWellFormed};
ghost use Rattle.field_files.specs.FileHeader.{IsFileHeader};
ghost use Rattle.field_files.specs.FieldShapes.{Fits};

use crate::compared::same;
use crate::spelled::{bytes_of, header_of, ints};
use exodus_mesh::{NameFault, NameId};
use field_files::{
    FieldFault, FieldVar, field_doc, fill_value, find_field, fit_field, masked_field_doc,
    read_field,
};
use nc_format::NcFile;
use nc_write::{NcDoc, length_of};
use std::alloc::Global;
use std::process::Abort;
use std::test::Fail;
use vec_exact::Longs;

// Three records of `x(t, k)`, INT, with k of length 2: -1 1, -5 1, -5 0.
const THREE_RECORDS: &str = "\
    43444601000000030000000a00000002000000017400000000000000000000016b00000000000002\
    00000000000000000000000b00000001000000017800000000000002000000000000000100000000\
    00000000000000040000000800000060ffffffff00000001fffffffb00000001fffffffb00000000";

// The same without a record.
const NO_RECORD: &str = "\
    43444601000000000000000a00000002000000017400000000000000000000016b00000000000002\
    00000000000000000000000b00000001000000017800000000000002000000000000000100000000\
    00000000000000040000000800000060";

// `x(k)`, INT, with k of length 8: 1 to 8.
const OCTANTS: &str = "\
    43444601000000000000000a00000001000000016b0000000000000800000000000000000000000b\
    00000001000000017800000000000001000000000000000000000000000000040000002000000050\
    0000000100000002000000030000000400000005000000060000000700000008";

// The dimensions lat 2, lon 3, t (one record) and n_b 2. `x(lat, lon)`, BYTE, is 1 to 6 and has the
// fill values 7, SHORT, and -1, BYTE; `y(lat, lat, lon)`, SHORT, is 1 to 12 and has -5, SHORT.
// `z(lon)` is FLOAT. `u` has no dimension; `w(n_b, lon)` and `r(t)` are BYTE.
const MIXED: &str = "\
    43444601000000010000000a00000004000000036c61740000000002000000036c6f6e0000000003\
    000000017400000000000000000000036e5f62000000000200000000000000000000000b00000006\
    00000001780000000000000200000000000000010000000c000000020000000a5f46696c6c56616c\
    756500000000000300000001000700000000000a5f46696c6c56616c756500000000000100000001\
    ff000000000000010000000800000188000000017900000000000003000000000000000000000001\
    0000000c000000010000000a5f46696c6c56616c756500000000000300000001fffb000000000003\
    0000001800000190000000017a00000000000001000000010000000000000000000000050000000c\
    000001a800000001750000000000000000000000000000000000000400000004000001b400000001\
    7700000000000002000000030000000100000000000000000000000100000008000001b800000001\
    72000000000000010000000200000000000000000000000100000004000001c00102030405068181\
    000100020003000400050006000700080009000a000b000c3f800000400000004040000000000009\
    010203040506818107";

fn fitted(file: &NcFile, name: &[u8], n_a: u32) -> Result<FieldVar, Fail>
    requires file { IsFileHeader file.now }
    requires sound { IsSound file.now }
    ensures { IfOk result (Fits file.now n_a) }
{
    let Ok(place) = find_field(file, name) else {
        return Err("a variable was expected".into());
    };
    match fit_field(file, place, n_a) {
        Ok(field) => Ok(field),
        Err(_) => Err("a fit was expected".into()),
    }
}

fn longs(alloc: Global, numbers: &[i64]) -> Result<Longs, Fail>
    ensures { IfOk result (λ longs. longs ≡ numbers.now) }
{
    Ok(Longs {
        items: numbers.to_vec(alloc)?,
    })
}

// The document of a field over one or several targets.
fn document(
    alloc: Global,
    file: &NcFile,
    name: &[u8],
    n_a: u32,
    n_b: u32,
    whole: &[i32],
    rest: &[i64],
) -> Result<NcDoc, Fail>
    requires file { IsFileHeader file.now }
    requires sound { IsSound file.now }
    ensures { IfOk result IsWellFormed }
{
    let field = fitted(file, name, n_a)?;
    let count = u64::from(field.slices) * u64::from(n_b);
    if n_b == 0 || n_b > 1_048_576 || whole.len() as u64 != count || rest.len() as u64 != count {
        return Err("other counts were expected".into());
    }
    let whole = ints(alloc, whole)?;
    let rest = longs(alloc, rest)?;
    match field_doc(alloc, file, field, n_b, whole, rest) {
        Ok(doc) => Ok(doc),
        Err(_) => Err("out of memory".into()),
    }
}

// How many dimensions lead, and how many slices they make.
fn shape_of(field: FieldVar) -> (usize, u32) {
    (field.leading, field.slices)
}

// How many records the document of a field has, and how long its file is.
fn counts_of(
    alloc: Global,
    file: &NcFile,
    n_a: u32,
    n_b: u32,
    whole: &[i32],
    rest: &[i64],
) -> Result<(u32, u64), Fail>
    requires file { IsFileHeader file.now }
    requires sound { IsSound file.now }
{
    let doc = document(alloc, file, b"x", n_a, n_b, whole, rest)?;
    Ok((doc.records, length_of(&doc)))
}

fn assert_three(rt: &impl Abort, alloc: Global, file: &NcFile, bytes: &[u8]) -> Result<(), Fail>
    requires short { length bytes.now ≤ 2147483647 }
    requires header { IsHeader bytes.now (length bytes.now) file.now }
    requires file { IsFileHeader file.now }
    requires sound { IsSound file.now }
{
    let Ok(found) = read_field(alloc, file, b"x", 2, bytes) else {
        return Err("a field was expected".into());
    };
    let values = [-1, 1, -5, 1, -5, 0];
    same(rt, &shape_of(found.field), &(1, 3));
    same(rt, &found.values.items.as_slice(), &values.as_slice());
    same(rt, &found.fill, &None);
    Ok(())
}

#[test]
fn three_records(rt: HostRuntime) -> Result<(), Fail> {
    let bytes = bytes_of(rt.alloc(), THREE_RECORDS)?;
    let file = header_of(rt.alloc(), &bytes)?;
    assert_three(&rt, rt.alloc(), &file, &bytes)?;
    let counts = counts_of(rt.alloc(), &file, 2, 1, &[0, -1, -2], &[1, 0, 1])?;
    same(&rt, &counts, &(3, 264));
    Ok(())
}

#[test]
fn no_record(rt: HostRuntime) -> Result<(), Fail> {
    let bytes = bytes_of(rt.alloc(), NO_RECORD)?;
    let file = header_of(rt.alloc(), &bytes)?;
    same(&rt, &fitted(&file, b"x", 2)?.slices, &0);
    let counts = counts_of(rt.alloc(), &file, 2, 1, &[], &[])?;
    same(&rt, &counts, &(0, 228));
    Ok(())
}

#[test]
fn octants(rt: HostRuntime) -> Result<(), Fail> {
    let bytes = bytes_of(rt.alloc(), OCTANTS)?;
    let file = header_of(rt.alloc(), &bytes)?;
    let whole = [1, 2, 3, 4, 5, 6, 7, 8];
    let counts = counts_of(rt.alloc(), &file, 8, 8, &whole, &[0; 8])?;
    same(&rt, &counts, &(0, 288));
    Ok(())
}

// The slices over maps of three and of six sources.
fn assert_slices(rt: &impl Abort, file: &NcFile) -> Result<(), Fail>
    requires file { IsFileHeader file.now }
    requires sound { IsSound file.now }
{
    same(rt, &shape_of(fitted(file, b"y", 3)?), &(2, 4));
    same(rt, &shape_of(fitted(file, b"y", 6)?), &(1, 2));
    Ok(())
}

// A dimension that leads twice stands in the document once.
fn assert_once(rt: &impl Abort, doc: &NcDoc) {
    same(rt, &(doc.dims.items.len(), doc.records), &(2, 0));
    let Some(whole) = doc.vars.items.first() else {
        panic!(rt; "a variable was expected");
    };
    same(rt, &whole.dims.items.as_slice(), &[0, 0, 1].as_slice());
}

#[test]
fn leading_twice(rt: HostRuntime) -> Result<(), Fail> {
    let bytes = bytes_of(rt.alloc(), MIXED)?;
    let file = header_of(rt.alloc(), &bytes)?;
    assert_slices(&rt, &file)?;
    let doc = document(rt.alloc(), &file, b"y", 3, 1, &[2, 5, 8, 11], &[0; 4])?;
    assert_once(&rt, &doc);
    Ok(())
}

fn fault_of(file: &NcFile, name: &[u8]) -> Option<NameFault>
    requires { IsSound file.now }
{
    match find_field(file, name) {
        Ok(_) => None,
        Err(fault) => Some(fault),
    }
}

#[test]
fn names_and_fills(rt: HostRuntime) -> Result<(), Fail> {
    let bytes = bytes_of(rt.alloc(), MIXED)?;
    let file = header_of(rt.alloc(), &bytes)?;
    let rows: [(&[u8], Option<NameFault>); 7] = [
        (b"x", None),
        (b"y", None),
        (b"v", Some(NameFault::Missing(NameId::Var))),
        (b"z", Some(NameFault::Kind(NameId::Var))),
        (b"u", Some(NameFault::Shape(NameId::Var))),
        (b"w", Some(NameFault::Shape(NameId::Var))),
        (b"r", Some(NameFault::Shape(NameId::Var))),
    ];
    for (name, fault) in rows {
        same(&rt, &fault_of(&file, name), &fault);
    }
    same(&rt, &fill_value(&file, 0), &None);
    same(&rt, &fill_value(&file, 1), &Some(-5));
    Ok(())
}

// A map with as many sources as no dimensions have.
#[test]
fn no_fit(rt: HostRuntime) -> Result<(), Fail> {
    let bytes = bytes_of(rt.alloc(), MIXED)?;
    let file = header_of(rt.alloc(), &bytes)?;
    match read_field(rt.alloc(), &file, b"y", 5, &bytes) {
        Err(FieldFault::Length(3)) => Ok(()),
        _ => Err("another length was expected".into()),
    }
}

// How long the file of a masked field is, with this fill value or without one.
fn masked_length(alloc: Global, file: &NcFile, fill: Option<i32>) -> Result<u64, Fail>
    requires file { IsFileHeader file.now }
    requires sound { IsSound file.now }
{
    let field = fitted(file, b"x", 2)?;
    if field.slices != 3 {
        return Err("three slices were expected".into());
    }
    let whole = ints(alloc, &[0, -1, -2])?;
    let rest = longs(alloc, &[1, 0, 1])?;
    let part = longs(alloc, &[3, 3, 3])?;
    match masked_field_doc(alloc, file, field, 1, fill, whole, rest, part) {
        Ok(doc) => Ok(length_of(&doc)),
        Err(_) => Err("out of memory".into()),
    }
}

#[test]
fn masked(rt: HostRuntime) -> Result<(), Fail> {
    let bytes = bytes_of(rt.alloc(), THREE_RECORDS)?;
    let file = header_of(rt.alloc(), &bytes)?;
    same(&rt, &masked_length(rt.alloc(), &file, Some(7))?, &396);
    same(&rt, &masked_length(rt.alloc(), &file, None)?, &360);
    Ok(())
}
