// The planes of cells, and the sides of their corners.
ghost use Rattle.std.specs.Prelude.{◌≡◌, ◌≢◌, ◌≤◌, ◌<◌, ◌-◌, ◌*ℤ◌, negsuc, unsigned_abs, length, All, IfOk};
ghost use Rattle.vec_exact.specs.Vector.{zero_triple, scaled};
ghost use Rattle.vec_exact.specs.Size.{Is37, Is75};
ghost use Rattle.vec_exact.specs.Cycle.{corner, face_plane, vector_at};
ghost use Rattle.mesh_check.specs.Mesh.{corners_of};
ghost use Rattle.cover_cells.specs.Cells.{own_face, plane_of, planes_of, IsNamed};
ghost use Rattle.cover_cells.specs.Sides.{AreSides};

use crate::CellPlane;
use mesh_check::{Mesh, plane};
use std::alloc::Global;
use vec_exact::{NoMemory, Vec3, cross, dot, next_place};

// The plane of the edge that p names, not turned.
fn edge_plane(a: &Mesh, b: &Mesh, j: u32, p: CellPlane) -> Vec3
    requires target { (1 ≤ j) × (j ≤ length b.now.faces) }
    requires named { IsNamed a.now (corners_of b.now j) p }
    ensures value { result ≡ face_plane (own_face a.now (corners_of b.now j) p) (p.edge - 1) }
    ensures size { Is37 result }
    ensures nonzero { result ≢ zero_triple }
{
    if p.source == 0 {
        plane(b, j, p.edge)
    } else {
        plane(a, p.source, p.edge)
    }
}

// The number with the other sign.
fn negated(number: i128) -> i128
    requires { unsigned_abs number ≤ 137438953471 }
    ensures value { result ≡ negsuc 0 *ℤ number }
    ensures size { unsigned_abs result ≤ 137438953471 }
{
    -number
}

// The plane turned round.
fn turned(plane: Vec3) -> Vec3
    requires size { Is37 plane }
    requires nonzero { plane ≢ zero_triple }
    ensures value { result ≡ scaled (negsuc 0) plane }
    ensures size { Is37 result }
    ensures nonzero { result ≢ zero_triple }
{
    Vec3 {
        x: negated(plane.x),
        y: negated(plane.y),
        z: negated(plane.z),
    }
}

// The plane that p stands for, over the sources of a and the target j of b.
pub fn plane_of(a: &Mesh, b: &Mesh, j: u32, p: CellPlane) -> Vec3
    requires target { (1 ≤ j) × (j ≤ length b.now.faces) }
    requires named { IsNamed a.now (corners_of b.now j) p }
    ensures value { result ≡ plane_of a.now (corners_of b.now j) p }
    ensures size { Is37 result }
    ensures nonzero { result ≢ zero_triple }
{
    let plane = edge_plane(a, b, j, p);
    if p.neg { turned(plane) } else { plane }
}

// The corner of the cell at place t, from 0: where its plane at this place and the next one meet.
pub fn corner_at(a: &Mesh, b: &Mesh, j: u32, cell: &[CellPlane], t: usize) -> Vec3
    requires target { (1 ≤ j) × (j ≤ length b.now.faces) }
    requires named { All (IsNamed a.now (corners_of b.now j)) cell.now }
    requires place { t < length cell.now }
    ensures value { let planes = planes_of a.now (corners_of b.now j) cell.now in
        result ≡ corner (length planes) (vector_at planes) t }
    ensures size { Is75 result }
{
    let next = next_place(cell.len(), t);
    cross(plane_of(a, b, j, cell[t]), plane_of(a, b, j, cell[next]))
}

// The inner products of x and the corners of the cell.
pub fn sides_on(
    alloc: Global,
    a: &Mesh,
    b: &Mesh,
    j: u32,
    cell: &[CellPlane],
    x: Vec3,
) -> Result<Vec<i128>, NoMemory>
    requires target { (1 ≤ j) × (j ≤ length b.now.faces) }
    requires named { All (IsNamed a.now (corners_of b.now j)) cell.now }
    requires size { Is37 x }
    ensures { IfOk result (λ sides.
        AreSides (planes_of a.now (corners_of b.now j) cell.now) x sides.items) }
{
    let mut sides = Vec::with_capacity(alloc, cell.len())?;
    for t in 0..cell.len() {
        sides.push(dot(x, corner_at(a, b, j, cell, t)))?;
    }
    Ok(sides)
}
