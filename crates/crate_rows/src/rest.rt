// What the octant leaves of a face of the cube, cell by cell.
ghost use Rattle.std.specs.Prelude.{◌≤◌, length};
ghost use Rattle.vec_exact.specs.Size.{Is75};

use crate::compare::same_of;
use crate::coverage::{direction, index, is_in_closure, is_inside, is_short};
use crate::meshes::{Made, mesh_of};
use crate::single_faces::{OCTANT, face_mesh};
use cover_cells::{Cell, CellPlane, Cells};
use cover_check::remainder;
use mesh_check::{Mesh, edge_count, face_count, plane};
use std::alloc::Global;
use std::process::Abort;
use vec_exact::{Sign, Vec3, side};

fn octant(rt: &impl Abort, alloc: Global) -> Mesh {
    face_mesh(rt, alloc, &OCTANT, &[1, 2, 3])
}

// Whether the plane p, of an edge of this face, is positive on d.
fn is_positive(rt: &impl Abort, mesh: &Mesh, face: u32, p: CellPlane, d: Vec3) -> bool
    requires { Is75 d }
{
    assert!(rt; 1 <= face && face <= face_count(mesh));
    assert!(rt; 1 <= p.edge && p.edge <= edge_count(mesh, face));
    let positive = if p.neg { Sign::Neg } else { Sign::Pos };
    side(plane(mesh, face, p.edge), d) == positive
}

// Whether all planes of the cell are positive on d. Those of source 0 are of the target.
fn is_in_cell(rt: &impl Abort, a: &Mesh, b: &Mesh, j: u32, cell: &Cell, d: Vec3) -> bool
    requires { Is75 d }
{
    for p in &cell.items {
        let (mesh, face) = if p.source == 0 { (b, j) } else { (a, p.source) };
        if !is_positive(rt, mesh, face, *p, d) {
            return false;
        }
    }
    true
}

// How many of the cells have d.
fn cells_with(rt: &impl Abort, a: &Mesh, b: &Mesh, j: u32, cells: &Cells, d: Vec3) -> u32 {
    assert!(rt; is_short(d));
    let mut count = 0u32;
    for cell in &cells.items {
        if is_in_cell(rt, a, b, j, cell, d) {
            count = count.saturating_add(1);
        }
    }
    count
}

fn left(rt: &impl Abort, alloc: Global, a: &Mesh, b: &Mesh, j: u32) -> Cells
    requires { (1 ≤ j) × (j ≤ length b.now.faces) }
{
    let index = index(rt, alloc, a);
    let Ok(cells) = remainder(alloc, a, &index, b, j) else {
        panic!(rt; "no memory");
    };
    cells
}

// Face 1 of the smallest cube looks along x, and the octant covers a quarter of it.
const COVERED: Vec3 = Vec3 { x: 2, y: 1, z: 1 };

const BESIDE: Vec3 = Vec3 { x: 2, y: -1, z: 1 };

const BELOW: Vec3 = Vec3 { x: 2, y: 1, z: -1 };

#[test]
fn the_rest_of_a_face_is_in_cells(rt: HostRuntime) {
    let octant = octant(&rt, rt.alloc());
    let cube = mesh_of(&rt, rt.alloc(), Made::Cube(1));
    assert!(rt; face_count(&cube) == 6);
    let cells = left(&rt, rt.alloc(), &octant, &cube, 1);
    for (d, want) in [(COVERED, 0), (BESIDE, 1), (BELOW, 1)] {
        let found = cells_with(&rt, &octant, &cube, 1, &cells, d);
        same_of(&rt, &found, &want, &d);
    }
}

#[test]
fn the_rest_of_a_face_has_a_direction(rt: HostRuntime) {
    let octant = octant(&rt, rt.alloc());
    let cube = mesh_of(&rt, rt.alloc(), Made::Cube(1));
    assert!(rt; face_count(&cube) == 6);
    assert!(rt; face_count(&octant) == 1);
    let index = index(&rt, rt.alloc(), &octant);
    let Some(d) = direction(&rt, rt.alloc(), &octant, &index, &cube, 1) else {
        panic!(rt; "covered");
    };
    assert!(rt; is_short(d));
    assert!(rt; is_inside(&cube, 1, d));
    assert!(rt; !is_in_closure(&octant, 1, d));
}
