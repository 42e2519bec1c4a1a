// What the faces of a mesh leave of a target.
ghost use Rattle.std.specs.Prelude.{◌≡◌, ◌≤◌, ◌↔◌, [], length, All, IfOk, IfSome, MatchOption};
ghost use Rattle.vec_exact.specs.declared.Vec3.{Vec3 as Direction};
ghost use Rattle.vec_exact.specs.Size.{Within};
ghost use Rattle.mesh_check.specs.Mesh.{corners_of};
ghost use Rattle.cell_index.specs.IndexOf.{IsIndexOf};
ghost use Rattle.cover_cells.specs.Cells.{IsCell, IsSource, cells_with};
ghost use Rattle.cover_cells.specs.Coverage.{IsCovered, IsUncoveredDirection};
ghost use Rattle.cover_check.specs.Rest.{IsFilled, IsOffAllEdges, IsLess, IsRest};

use crate::parts::{divided, whole};
use cell_index::{Index, find_candidates};
use cover_cells::{Cells, inner_direction};
use mesh_check::{Mesh, edge_count, face_count};
use std::alloc::Global;
use vec_exact::{NoMemory, Vec3};

// Target j less the source faces with these numbers: divided again and again by one of the faces
// that may still meet a part, until none may.
fn less(alloc: Global, a: &Mesh, b: &Mesh, j: u32, faces: &[u32]) -> Result<Cells, NoMemory>
    requires target { (1 ≤ j) × (j ≤ length b.now.faces) }
    requires sources { All (IsSource a.now) faces.now }
    ensures { IfOk result (IsLess a.now (corners_of b.now j) faces.now) }
{
    let mut left = Cells {
        items: Vec::new(alloc),
    };
    let mut parts = whole(alloc, a, b, j, faces, &mut left)?;
    // Each time a part has fewer faces.
    for _time in 0..faces.len() {
        parts = divided(alloc, a, b, j, parts, &mut left)?;
    }
    Ok(left)
}

// What the faces of a leave of target j. The candidates are put into `found`, in place of what it
// held.
pub fn rest(
    alloc: Global,
    a: &Mesh,
    index: &Index,
    b: &Mesh,
    j: u32,
    found: &mut Vec<u32>,
) -> Result<Cells, NoMemory>
    requires index { IsIndexOf index.now a.now }
    requires target { (1 ≤ j) × (j ≤ length b.now.faces) }
    ensures { IfOk result (IsRest a.now (corners_of b.now j)) }
{
    // Both meshes have accepted faces only.
    let _sources = face_count(a);
    let _corners = edge_count(b, j);
    find_candidates(index, b, j, found)?;
    less(alloc, a, b, j, found)
}

/// The cells of what the faces of `a` leave of target `j` of `b`; faces count from 1. `index` is the
/// index of `a`. Its only error is want of memory.
pub fn remainder(
    alloc: Global,
    a: &Mesh,
    index: &Index,
    b: &Mesh,
    j: u32,
) -> Result<Cells, NoMemory>
    requires index { IsIndexOf index.now a.now }
    requires target { (1 ≤ j) × (j ≤ length b.now.faces) }
    ensures cells { IfOk result (All (IsCell a.now (corners_of b.now j))) }
    // No cell is without a direction in it.
    ensures filled { IfOk result (All (IsFilled a.now (corners_of b.now j))) }

    // An uncovered direction that is on no edge plane is in exactly one cell,
    ensures one { let target = corners_of b.now j in
        IfOk result (λ cells. (d : Direction) → IsOffAllEdges a.now target d
        → IsUncoveredDirection a.now target d → cells_with a.now target d cells ≡ 1) }
    // and one that isn't uncovered is in no cell.
    ensures none { let target = corners_of b.now j in
        IfOk result (λ cells. (d : Direction) → ¬ IsUncoveredDirection a.now target d
        → cells_with a.now target d cells ≡ 0) }

    ensures empty { IfOk result (λ cells. (cells ≡ []) ↔ IsCovered a.now (corners_of b.now j)) }
{
    let mut found = Vec::new(alloc);
    rest(alloc, a, index, b, j, &mut found)
}

/// A direction of target `j` of `b` that no face of `a` covers, or None exactly where the target is
/// covered. Its components are below 2^77 in size. Faces count from 1, and `index` is the index of
/// `a`. Its only error is want of memory.
pub fn uncovered(
    alloc: Global,
    a: &Mesh,
    index: &Index,
    b: &Mesh,
    j: u32,
) -> Result<Option<Vec3>, NoMemory>
    requires index { IsIndexOf index.now a.now }
    requires target { (1 ≤ j) × (j ≤ length b.now.faces) }
    ensures covered { let target = corners_of b.now j in
        IfOk result (λ d.
        MatchOption d (IsCovered a.now target) (IsUncoveredDirection a.now target)) }
    ensures size { IfOk result (λ d. IfSome d (Within 151115727451828646838271)) }
{
    let mut found = Vec::new(alloc);
    let cells = rest(alloc, a, index, b, j, &mut found)?;
    match cells.items.first() {
        None => Ok(None),
        Some(cell) => Ok(Some(inner_direction(a, b, j, cell))),
    }
}
