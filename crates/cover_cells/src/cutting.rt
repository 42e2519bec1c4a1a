// Cells less a source face.
ghost use Rattle.std.specs.Prelude.{◌≡◌, ◌≤◌, ◌++◌, length, All, Any, IfOk, OnOk, IsTrue};
ghost use Rattle.vec_exact.specs.declared.Vec3.{Vec3 as Direction};
ghost use Rattle.cone_laws.specs.Inside.{IsInside};
ghost use Rattle.mesh_check.specs.Mesh.{corners_of};
ghost use Rattle.cover_cells.specs.Cells.{IsCell, IsBeyondAnEdge, IsOffEdges, is_in_cell, cells_with};

use crate::halves::halves;
use crate::{CellPlane, Cells};
use mesh_check::{Mesh, edge_count};
use std::alloc::{AllocError, Global};
use vec_exact::NoMemory;

// Puts more cells at the end.
fn join(cells: &mut Cells, mut more: Cells) -> Result<(), AllocError>
    ensures { OnOk result (cells.new ≡ cells.old ++ more) }
{
    cells.items.append(&mut more.items)
}

/// The cells of target `j` of `b` less face `i` of `a`; faces count from 1.
///
/// The planes of the face split each cell, one after another, so that what is left of a cell may be
/// several cells. A direction on an edge plane of the face may be left in none of them. Its only
/// error is want of memory.
pub fn cut_cells(
    alloc: Global,
    a: &Mesh,
    b: &Mesh,
    j: u32,
    cells: &Cells,
    i: u32,
) -> Result<Cells, NoMemory>
    requires source { (1 ≤ i) × (i ≤ length a.now.faces) }
    requires target { (1 ≤ j) × (j ≤ length b.now.faces) }
    requires cells { All (IsCell a.now (corners_of b.now j)) cells.now }
    ensures cells { IfOk result (All (IsCell a.now (corners_of b.now j))) }

    // An answered cell has only directions that some given cell has,
    ensures given { let has = is_in_cell a.now (corners_of b.now j) in
        IfOk result (All (λ cell. (d : Direction) → IsTrue (has d cell)
        → Any (λ given. IsTrue (has d given)) cells.now)) }
    // and for each of them the face has an edge plane that is negative on it.
    ensures beyond { let has = is_in_cell a.now (corners_of b.now j) in
        IfOk result (All (λ cell. (d : Direction) → IsTrue (has d cell)
        → IsBeyondAnEdge (corners_of a.now i) d)) }

    // No cell has a direction inside the face,
    ensures inside { let with = cells_with a.now (corners_of b.now j) in
        IfOk result (λ left. (d : Direction) → IsInside (corners_of a.now i) d → with d left ≡ 0) }
    // and one that is neither inside nor on an edge plane is in as many cells as before.
    ensures outside { let with = cells_with a.now (corners_of b.now j) in
        IfOk result (λ left. (d : Direction) → IsOffEdges (corners_of a.now i) d
        → ¬ IsInside (corners_of a.now i) d → with d left ≡ with d cells.now) }
{
    let edges = edge_count(a, i);
    let first = CellPlane {
        source: i,
        edge: 1,
        neg: false,
    };
    let mut left = halves(alloc, a, b, j, cells, CellPlane { neg: true, ..first })?;
    let mut within = halves(alloc, a, b, j, cells, first)?;
    for t in 1..edges {
        let inward = CellPlane {
            edge: t + 1,
            ..first
        };
        let outward = CellPlane {
            neg: true,
            ..inward
        };
        let beyond = halves(alloc, a, b, j, &within, outward)?;
        join(&mut left, beyond)?;
        within = halves(alloc, a, b, j, &within, inward)?;
    }
    Ok(left)
}
