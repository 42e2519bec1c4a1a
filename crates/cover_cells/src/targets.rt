// A target face as a cell.
ghost use Rattle.std.specs.Prelude.{◌≡◌, ◌≤◌, length, All, IfOk};
ghost use Rattle.vec_exact.specs.declared.RawMesh.{RawMesh as Sources};
ghost use Rattle.vec_exact.specs.declared.Vec3.{Vec3 as Direction};
ghost use Rattle.vec_exact.specs.Face.{IsAcceptedFace};
ghost use Rattle.cone_laws.specs.Inside.{IsInside};
ghost use Rattle.mesh_check.specs.Mesh.{corners_of};
ghost use Rattle.cover_cells.specs.Cells.{IsCell, cells_with};
ghost use Rattle.cover_cells.specs.Splitting.{AreTargetEdges};

use crate::{Cell, CellPlane, Cells};
use mesh_check::{Mesh, edge_count};
use std::alloc::Global;
use vec_exact::NoMemory;

// The edges of target j, in order.
fn target_edges(alloc: Global, b: &Mesh, j: u32) -> Result<Vec<CellPlane>, NoMemory>
    requires target { (1 ≤ j) × (j ≤ length b.now.faces) }
    ensures edges { IfOk result (λ cell. AreTargetEdges (length (corners_of b.now j)) cell.items) }
    ensures accepted { IfOk result (λ _. IsAcceptedFace (corners_of b.now j)) }
{
    let mut cell = Vec::new(alloc);
    for t in 0..edge_count(b, j) {
        cell.push(CellPlane {
            source: 0,
            edge: t + 1,
            neg: false,
        })?;
    }
    Ok(cell)
}

/// Target `j` of `b` as its only cell; faces count from 1. Its only error is want of memory.
pub fn whole_target(alloc: Global, b: &Mesh, j: u32) -> Result<Cells, NoMemory>
    requires target { (1 ≤ j) × (j ≤ length b.now.faces) }
    ensures cells { IfOk result (λ cells. (sources : Sources)
        → All (IsCell sources (corners_of b.now j)) cells) }

    // The only cell has the directions inside the target,
    ensures inside { let target = corners_of b.now j in
        IfOk result (λ cells. (sources : Sources) (d : Direction) → IsInside target d
        → cells_with sources target d cells ≡ 1) }
    // and no others.
    ensures outside { let target = corners_of b.now j in
        IfOk result (λ cells. (sources : Sources) (d : Direction) → ¬ IsInside target d
        → cells_with sources target d cells ≡ 0) }
{
    let items = target_edges(alloc, b, j)?;
    let mut cells = Vec::new(alloc);
    cells.push(Cell { items })?;
    Ok(Cells { items: cells })
}
