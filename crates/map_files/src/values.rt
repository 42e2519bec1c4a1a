// The map that the numbers of a file say.
ghost use Rattle.std.specs.Prelude.{◌≡◌, ◌≤◌, ◌<◌, length, IfSome, IfOk, IfErr, Ok};
ghost use Rattle.map_rows.specs.Maps.{IsFaceCount};
ghost use Rattle.nc_format.specs.Answers.{IsFaultOf};
ghost use Rattle.exodus_mesh.specs.declared.faults.FileFault.TheVariants.{NoMemory};
ghost use Rattle.exodus_mesh.specs.Answers.{IsOfRowsOrAreas};
ghost use Rattle.exodus_mesh.specs.Pairs.{is_within};
ghost use Rattle.exodus_mesh.specs.FirstNot.{first_not};
ghost use Rattle.map_files.specs.MapValues.{is_good_map_row, map_row_at, map_rows_of, is_sum, is_sum_of_some, map_of};

use crate::MapVars;
use exodus_mesh::{FileFault, has_good_faces};
use map_rows::{Map, MapRow, MapRows, areas_of_rows};
use std::alloc::{AllocError, Global};
use vec_exact::{Longs, MAX_MEASURE};

// Whether a number is a measure of a row.
fn is_measure(s: i64) -> bool
    ensures { result ≡ is_within 1 1099511627775 s }
{
    1 <= s && s <= MAX_MEASURE
}

// Whether row r, from 0, is at no fault.
#[tactic(auto, unfolding(crate::specs::MapValues::is_good_map_row))]
fn is_good_row(vars: &MapVars, col: &[i32], row: &[i32], s: &[i64], r: usize) -> bool
    requires col { r < length col.now }
    requires row { r < length row.now }
    requires s { r < length s.now }
    ensures { result ≡ is_good_map_row vars.now.n_a vars.now.n_b
        (record { col = col.now; row = row.now; s = s.now }) r }
{
    has_good_faces(vars.n_a, vars.n_b, col, row, r) && is_measure(s[r])
}

// The first row, from 0, that is at fault.
fn first_bad_row(vars: &MapVars, col: &[i32], row: &[i32], s: &[i64]) -> Option<u32>
    requires col { length col.now ≡ vars.now.n_s }
    requires row { length row.now ≡ vars.now.n_s }
    requires s { length s.now ≡ vars.now.n_s }
    ensures first { result ≡ first_not (is_good_map_row vars.now.n_a vars.now.n_b
        (record { col = col.now; row = row.now; s = s.now })) vars.now.n_s }
    ensures below { IfSome result (λ r. r < vars.now.n_s) }
{
    for number in 0..vars.n_s {
        if !is_good_row(vars, col, row, s, number as usize) {
            return Some(number);
        }
    }
    None
}

fn row_at(col: &[i32], row: &[i32], s: &[i64], r: usize) -> MapRow
    requires col { r < length col.now }
    requires row { r < length row.now }
    requires s { r < length s.now }
    ensures { result ≡ map_row_at (record { col = col.now; row = row.now; s = s.now }) r }
{
    MapRow {
        col: col[r].unsigned_abs(),
        row: row[r].unsigned_abs(),
        s: s[r],
    }
}

// The rows, as many as there are.
fn make_rows(
    alloc: Global,
    vars: &MapVars,
    col: &[i32],
    row: &[i32],
    s: &[i64],
) -> Result<Vec<MapRow>, AllocError>
    requires col { length col.now ≡ vars.now.n_s }
    requires row { length row.now ≡ vars.now.n_s }
    requires s { length s.now ≡ vars.now.n_s }
    ensures { IfOk result (λ rows. rows.items
        ≡ map_rows_of vars.now.n_s (record { col = col.now; row = row.now; s = s.now })) }
{
    let mut rows = Vec::with_capacity(alloc, vars.n_s as usize)?;
    for number in 0..vars.n_s {
        rows.push(row_at(col, row, s, number as usize))?;
    }
    Ok(rows)
}

// Whether the area of face k, from 0, is the sum of its rows.
fn is_sum(areas: &[i64], sums: &[i64], k: usize) -> bool
    requires areas { k < length areas.now }
    requires sums { k < length sums.now }
    ensures { result ≡ is_sum areas.now sums.now k }
{
    areas[k] == sums[k]
}

// The same, and it is not 0.
fn is_sum_of_some(areas: &[i64], sums: &[i64], k: usize) -> bool
    requires areas { k < length areas.now }
    requires sums { k < length sums.now }
    ensures { result ≡ is_sum_of_some areas.now sums.now k }
{
    is_sum(areas, sums, k) && areas[k] != 0
}

// The first source, from 0, whose area is not the sum of its rows.
fn first_other_source(areas: &[i64], sums: &[i64]) -> Option<u32>
    requires few { length areas.now ≤ 1048576 }
    requires same { length sums.now ≡ length areas.now }
    ensures first { result ≡ first_not (is_sum areas.now sums.now) (length areas.now) }
    ensures below { IfSome result (λ k. k < length areas.now) }
{
    for k in 0..areas.len() {
        if !is_sum(areas, sums, k) {
            return Some(k as u32);
        }
    }
    None
}

// The first target, from 0, whose area is not the sum of its rows, or is 0.
fn first_other_target(areas: &[i64], sums: &[i64]) -> Option<u32>
    requires few { length areas.now ≤ 1048576 }
    requires same { length sums.now ≡ length areas.now }
    ensures first { result ≡ first_not (is_sum_of_some areas.now sums.now) (length areas.now) }
    ensures below { IfSome result (λ k. k < length areas.now) }
{
    for k in 0..areas.len() {
        if !is_sum_of_some(areas, sums, k) {
            return Some(k as u32);
        }
    }
    None
}

/// The map with the counts of `vars` and the numbers of its five variables: 1 to 1,048,576 faces of
/// each mesh, and at most 8,388,608 rows.
///
/// `Row(r)` names the first row, from 1, whose `col` or `row` is no face of its mesh, whose pair of
/// faces does not exceed that of the row before, or whose measure is outside 1 to 1,099,511,627,775.
/// Where there is none, `AreaA(i)` names the first source, from 1, whose area is not the sum of the
/// measures of its rows; and where there is none of these, `AreaB(j)` the first target for which that
/// holds, or whose area is 0. There is no other error but want of memory.
pub fn map_from(
    alloc: Global,
    vars: &MapVars,
    col: &[i32],
    row: &[i32],
    s: &[i64],
    area_a: &[i64],
    area_b: &[i64],
) -> Result<Map, FileFault>
    requires source_faces { IsFaceCount vars.now.n_a }
    requires target_faces { IsFaceCount vars.now.n_b }
    requires rows { vars.now.n_s ≤ 8388608 }
    requires col { length col.now ≡ vars.now.n_s }
    requires row { length row.now ≡ vars.now.n_s }
    requires s { length s.now ≡ vars.now.n_s }
    requires area_a { length area_a.now ≡ vars.now.n_a }
    requires area_b { length area_b.now ≡ vars.now.n_b }
    ensures map { IfOk result (λ map. map_of vars.now
        (record { col = col.now; row = row.now; s = s.now }) area_a.now area_b.now ≡ Ok map) }
    // A fault that is answered is the first one, unless memory ran out.
    ensures fault { IfErr result (IsFaultOf NoMemory (map_of vars.now
        (record { col = col.now; row = row.now; s = s.now }) area_a.now area_b.now)) }
    ensures of_rows_or_areas { IfErr result IsOfRowsOrAreas }
{
    if let Some(r) = first_bad_row(vars, col, row, s) {
        return Err(FileFault::Row(r + 1));
    }
    let rows = make_rows(alloc, vars, col, row, s)?;
    let sums = areas_of_rows(alloc, vars.n_a, vars.n_b, &rows)?;
    if let Some(i) = first_other_source(area_a, &sums.source) {
        return Err(FileFault::AreaA(i + 1));
    }
    if let Some(j) = first_other_target(area_b, &sums.target) {
        return Err(FileFault::AreaB(j + 1));
    }
    Ok(Map {
        n_a: vars.n_a,
        n_b: vars.n_b,
        rows: MapRows { items: rows },
        area_a: Longs { items: sums.source },
        area_b: Longs { items: sums.target },
    })
}
