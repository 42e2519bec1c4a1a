// The map of two rows, by its numbers, and its file.
ghost use Rattle.std.specs.Prelude.{◌≡◌, ◌≤◌, length, IfOk};

use crate::compared::same;
use crate::spelled::header_of;
use exodus_mesh::FileFault;
use map_files::{MapVars, map_doc, map_from, read_map};
use map_rows::Map;
use nc_write::{DimIds, encode};
use std::alloc::{AllocError, Global};
use std::test::Fail;

// The variables of a map of two sources and one target, with two rows.
fn map_vars(alloc: Global) -> Result<MapVars, AllocError>
    ensures sources { IfOk result (λ vars. vars.n_a ≡ 2) }
    ensures targets { IfOk result (λ vars. vars.n_b ≡ 1) }
    ensures rows { IfOk result (λ vars. vars.n_s ≡ 2) }
{
    Ok(MapVars {
        n_a: 2,
        n_b: 1,
        n_s: 2,
        vars: DimIds {
            items: [0, 1, 2, 3, 4].to_vec(alloc)?,
        },
    })
}

// That map, by the numbers of its variables.
fn map_of(
    alloc: Global,
    col: &[i32],
    s: &[i64],
    area_a: &[i64],
    area_b: &[i64],
) -> Result<Result<Map, FileFault>, AllocError>
    requires col { length col.now ≡ 2 }
    requires s { length s.now ≡ 2 }
    requires area_a { length area_a.now ≡ 2 }
    requires area_b { length area_b.now ≡ 1 }
{
    let vars = map_vars(alloc)?;
    let map = map_from(alloc, &vars, col, &[1, 1], s, area_a, area_b);
    Ok(map)
}

#[test]
fn rows_and_areas(rt: HostRuntime) -> Result<(), Fail> {
    let rows = [
        ([1, 2], [1, 2], [1, 2], [3], None),
        ([2, 1], [2, 1], [1, 2], [3], Some(FileFault::Row(2))),
        ([1, 1], [1, 2], [3, 0], [3], Some(FileFault::Row(2))),
        ([1, 3], [1, 2], [1, 2], [3], Some(FileFault::Row(2))),
        (
            [1, 2],
            [1_099_511_627_776, 2],
            [1, 2],
            [3],
            Some(FileFault::Row(1)),
        ),
        ([1, 2], [1, 2], [1, 1], [3], Some(FileFault::AreaA(2))),
        ([1, 2], [1, 2], [1, 2], [4], Some(FileFault::AreaB(1))),
    ];
    for (col, s, area_a, area_b, want) in rows {
        let map = map_of(rt.alloc(), &col, &s, &area_a, &area_b)?;
        same(&rt, &map.err(), &want);
    }
    Ok(())
}

// The map of two rows.
fn two_rows(rt: &HostRuntime) -> Result<Map, Fail> {
    match map_of(rt.alloc(), &[1, 2], &[1, 2], &[1, 2], &[3])? {
        Ok(map) => Ok(map),
        Err(_) => Err("a map was expected".into()),
    }
}

fn file_of(rt: &HostRuntime, map: &Map) -> Result<Vec<u8>, Fail>
    ensures { IfOk result (λ bytes. length bytes.items ≤ 2147483647) }
{
    let Ok(doc) = map_doc(rt.alloc(), map) else {
        return Err("out of memory".into());
    };
    let Ok(bytes) = encode(rt.alloc(), &doc) else {
        return Err("a file was expected".into());
    };
    Ok(bytes)
}

#[test]
fn a_map_is_written_and_read(rt: HostRuntime) -> Result<(), Fail> {
    let map = two_rows(&rt)?;
    let bytes = file_of(&rt, &map)?;
    same(&rt, &bytes.len(), &472);
    let file = header_of(rt.alloc(), &bytes)?;
    let Ok(again) = read_map(rt.alloc(), &file, &bytes) else {
        return Err("a map was expected".into());
    };
    same(&rt, &again.n_a, &2);
    Ok(())
}
