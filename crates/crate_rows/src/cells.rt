// A worked cut, and that each call that takes memory gives its answer.
ghost use Rattle.std.specs.Prelude.{◌≤◌, IfOk, length, All};
ghost use Rattle.mesh_check.specs.Mesh.{corners_of};
ghost use Rattle.cover_cells.specs.Cells.{IsCell};

use crate::compare::{same, same_list};
use crate::single_faces::{OCTANT, SQUARE, face_mesh};
use cover_cells::{CellPlane, Cells, cut_cells, inner_direction, whole_target};
use mesh_check::Mesh;
use std::alloc::Global;
use vec_exact::{NoMemory, Vec3};

// The only face of b less the only face of a.
fn rest(alloc: Global, a: &Mesh, b: &Mesh) -> Result<Cells, NoMemory>
    requires source { 1 ≤ length a.now.faces }
    requires target { 1 ≤ length b.now.faces }
    ensures { IfOk result (All (IsCell a.now (corners_of b.now 1))) }
{
    let whole = whole_target(alloc, b, 1)?;
    cut_cells(alloc, a, b, 1, &whole, 1)
}

// The plane of an edge of the source, or of the target.
fn plane(source: u32, edge: u32) -> CellPlane {
    CellPlane {
        source,
        edge,
        neg: false,
    }
}

// The same plane turned round.
fn turned(source: u32, edge: u32) -> CellPlane {
    CellPlane {
        source,
        edge,
        neg: true,
    }
}

// Face 1 of the cubed sphere of resolution 1, less the octant.
#[test]
fn rest_of_a_face(rt: HostRuntime) {
    let octant = face_mesh(&rt, rt.alloc(), &OCTANT, &[1, 2, 3]);
    let square = face_mesh(&rt, rt.alloc(), &SQUARE, &[1, 2, 3, 4]);
    let Ok(cells) = rest(rt.alloc(), &octant, &square) else {
        panic!(rt; "no memory");
    };
    assert!(rt; cells.items.len() == 2);
    let below = [plane(0, 4), plane(0, 1), plane(0, 2), turned(1, 1)];
    let beside = [plane(0, 3), plane(0, 4), plane(1, 1), turned(1, 3)];
    same_list(&rt, cells.items[0].items.as_slice(), &below);
    same_list(&rt, cells.items[1].items.as_slice(), &beside);
    let inner = inner_direction(&octant, &square, 1, &cells.items[0]);
    let want = Vec3 { x: 10, y: 2, z: -8 };
    same(&rt, &inner, &want);
}
