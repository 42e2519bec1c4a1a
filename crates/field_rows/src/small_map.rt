// A map of two rows: sources 1 and 2, with measures 1 and 2, lie in one target.
use map_rows::{Map, MapRow, MapRows};
use std::alloc::{AllocError, Global};
use vec_exact::Longs;

/// The map of two rows.
pub(crate) fn two_rows(alloc: Global) -> Result<Map, AllocError> {
    let first = MapRow {
        col: 1,
        row: 1,
        s: 1,
    };
    let second = MapRow {
        col: 2,
        row: 1,
        s: 2,
    };
    Ok(Map {
        n_a: 2,
        n_b: 1,
        rows: MapRows {
            items: Vec::from_array(alloc, [first, second])?,
        },
        area_a: Longs {
            items: Vec::from_array(alloc, [1, 2])?,
        },
        area_b: Longs {
            items: Vec::from_array(alloc, [3])?,
        },
    })
}
