// The areas of the faces: the sums of the measures of their rows.
ghost use Rattle.std.specs.Prelude.{◌≡◌, ◌<◌, ◌≤◌, ◌-◌, pos, ◌+ℤ◌, ◌≤ℤ◌, ◌<ℤ◌, ◌^◌, All, IfOk, length, slice_set, slice_index_or};
ghost use Rattle.map_rows.specs.Maps.{IsSoundRow, areas_of, source_of, target_of};

use crate::MapRow;
use std::alloc::{AllocError, Global};

/// The areas of the faces of the source mesh and of those of the target mesh, face by face.
#[derive(Drop)]
pub struct Areas {
    pub source: Vec<i64>,
    pub target: Vec<i64>,
}

// Adds a measure to the area of the face with this number, from 1.
fn add_measure(areas: &mut [i64], face: u32, measure: i64)
    requires face { (1 ≤ face) × (face ≤ length areas.old) }
    requires least { pos 0 ≤ℤ (slice_index_or areas.old (face - 1) (pos 0) +ℤ measure) }
    requires greatest { (slice_index_or areas.old (face - 1) (pos 0) +ℤ measure) <ℤ pos (2 ^ 63) }
    ensures { areas.new ≡ slice_set areas.old (face - 1)
        (slice_index_or areas.old (face - 1) (pos 0) +ℤ measure) }
{
    areas[face as usize - 1] += measure;
}

/// The areas of `n_a` source faces and of `n_b` target faces: the sums of the measures of their
/// rows, of which there are at most 8,388,608. One pass over the rows.
pub fn areas_of_rows(
    alloc: Global,
    n_a: u32,
    n_b: u32,
    rows: &[MapRow],
) -> Result<Areas, AllocError>
    requires count { length rows.now ≤ 8388608 }
    requires rows { All (IsSoundRow n_a n_b) rows.now }
    ensures source { IfOk result (λ areas. areas.source.items ≡ areas_of source_of n_a rows.now) }
    ensures target { IfOk result (λ areas. areas.target.items ≡ areas_of target_of n_b rows.now) }
{
    let mut source = vec![in alloc; 0i64; n_a as usize]?;
    let mut target = vec![in alloc; 0i64; n_b as usize]?;
    for row in rows {
        add_measure(&mut source, row.col, row.s);
        add_measure(&mut target, row.row, row.s);
    }
    Ok(Areas { source, target })
}
