// A direction inside a cell.
ghost use Rattle.std.specs.Prelude.{◌≡◌, ◌≤◌, ◌+ℤ◌, unsigned_abs, length, IsTrue};
ghost use Rattle.vec_exact.specs.Vector.{added};
ghost use Rattle.vec_exact.specs.Size.{Is75, Within};
ghost use Rattle.mesh_check.specs.Mesh.{corners_of};
ghost use Rattle.cover_cells.specs.Cells.{IsCell, is_in_cell};

use crate::Cell;
use crate::planes::corner_at;
use mesh_check::Mesh;
use vec_exact::Vec3;

// The sum of three numbers.
fn sum_of(x: i128, y: i128, z: i128) -> i128
    requires x_size { unsigned_abs x ≤ 37778931862957161709567 }
    requires y_size { unsigned_abs y ≤ 37778931862957161709567 }
    requires z_size { unsigned_abs z ≤ 37778931862957161709567 }
    ensures value { result ≡ x +ℤ y +ℤ z }
    ensures size { unsigned_abs result ≤ 151115727451828646838271 }
{
    x + y + z
}

// The sum of three corners.
fn sum_of_corners(u: Vec3, v: Vec3, w: Vec3) -> Vec3
    requires u_size { Is75 u }
    requires v_size { Is75 v }
    requires w_size { Is75 w }
    ensures value { result ≡ added (added u v) w }
    ensures size { Within 151115727451828646838271 result }
{
    Vec3 {
        x: sum_of(u.x, v.x, w.x),
        y: sum_of(u.y, v.y, w.y),
        z: sum_of(u.z, v.z, w.z),
    }
}

/// A direction inside a cell of target `j` of `b` less faces of `a`. Its components are below 2^77 in
/// size. It takes no memory.
pub fn inner_direction(a: &Mesh, b: &Mesh, j: u32, cell: &Cell) -> Vec3
    requires target { (1 ≤ j) × (j ≤ length b.now.faces) }
    requires cell { IsCell a.now (corners_of b.now j) cell.now }
    ensures inside { IsTrue (is_in_cell a.now (corners_of b.now j) result cell.now) }
    ensures size { Within 151115727451828646838271 result }
{
    // Each plane of a ring is zero on two of its corners, and positive on all others.
    let planes = cell.items.as_slice();
    sum_of_corners(
        corner_at(a, b, j, planes, 0),
        corner_at(a, b, j, planes, 1),
        corner_at(a, b, j, planes, 2),
    )
}
