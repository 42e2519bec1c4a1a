// Meshes of octants, of which one is left out, and that each call that takes memory gives its answer.
ghost use Rattle.std.specs.Prelude.{◌≤◌, length};

use crate::compare::same;
use crate::coverage::{count_at_once, direction, index};
use crate::meshes::accepted;
use cover_check::{CoverCount, remainder};
use mesh_check::{Mesh, face_count};
use std::alloc::{AllocError, Global};
use std::process::Abort;
use vec_exact::{Faces, Ints, Nodes, RawMesh, Vec3};

const NODES: [[i32; 3]; 6] = [
    [1, 0, 0],
    [0, 1, 0],
    [-1, 0, 0],
    [0, -1, 0],
    [0, 0, 1],
    [0, 0, -1],
];

const OCTANTS: [[i32; 3]; 8] = [
    [1, 2, 5],
    [2, 3, 5],
    [3, 4, 5],
    [4, 1, 5],
    [2, 1, 6],
    [3, 2, 6],
    [4, 3, 6],
    [1, 4, 6],
];

// The sign of each component inside each of the octants.
const SIGNS: [[i128; 3]; 8] = [
    [1, 1, 1],
    [-1, 1, 1],
    [-1, -1, 1],
    [1, -1, 1],
    [1, 1, -1],
    [-1, 1, -1],
    [-1, -1, -1],
    [1, -1, -1],
];

// The octants from place `from` up to `to`, but not the one at place `without`.
fn octants(alloc: Global, from: usize, to: usize, without: usize) -> Result<Vec<Ints>, AllocError>
    requires { to ≤ 8 }
{
    let mut faces = Vec::new(alloc);
    for t in from..to {
        if t != without {
            let items = Vec::from_slice(alloc, OCTANTS[t].as_slice())?;
            faces.push(Ints { items }).map_err(AllocError::from)?;
        }
    }
    Ok(faces)
}

fn mesh(rt: &impl Abort, alloc: Global, from: usize, to: usize, without: usize) -> Mesh
    requires { to ≤ 8 }
{
    let Ok(faces) = octants(alloc, from, to, without) else {
        panic!(rt; "no memory");
    };
    let Ok(nodes) = Vec::from_slice(alloc, NODES.as_slice()) else {
        panic!(rt; "no memory");
    };
    let raw = RawMesh {
        nodes: Nodes { items: nodes },
        faces: Faces { items: faces },
    };
    accepted(rt, alloc, raw)
}

// The uncovered direction of target j, if there is one.
fn uncovered_in(rt: &impl Abort, alloc: Global, a: &Mesh, b: &Mesh, j: u32) -> Option<Vec3>
    requires { (1 ≤ j) × (j ≤ length b.now.faces) }
{
    direction(rt, alloc, a, &index(rt, alloc, a), b, j)
}

// The direction is inside the octant, and so in the closure of no other one.
fn is_in_octant(d: Vec3, signs: [i128; 3]) -> bool {
    d.x.signum() == signs[0] && d.y.signum() == signs[1] && d.z.signum() == signs[2]
}

// The octants less one of them cover all but this one.
#[test]
fn one_octant_left_out(rt: HostRuntime) {
    let all = mesh(&rt, rt.alloc(), 0, 8, 8);
    assert!(rt; face_count(&all) == 8);
    for r in 0..8 {
        let others = mesh(&rt, rt.alloc(), 0, 8, r);
        let j = r as u32 + 1;
        let want = CoverCount {
            covered: 7,
            first: j,
        };
        same(&rt, &count_at_once(&rt, rt.alloc(), &others, &all), &want);
        let Some(d) = uncovered_in(&rt, rt.alloc(), &others, &all, j) else {
            panic!(rt; "covered");
        };
        assert!(rt; is_in_octant(d, SIGNS[r]));
        assert!(rt; uncovered_in(&rt, rt.alloc(), &all, &all, j).is_none());
    }
}

// An octant covers nothing of the opposite one, and all of itself.
#[test]
fn opposite_octants(rt: HostRuntime) {
    let octant = mesh(&rt, rt.alloc(), 0, 1, 8);
    let opposite = mesh(&rt, rt.alloc(), 6, 7, 8);
    let none = CoverCount {
        covered: 0,
        first: 1,
    };
    let found = count_at_once(&rt, rt.alloc(), &octant, &opposite);
    same(&rt, &found, &none);
    let all = CoverCount {
        covered: 1,
        first: 0,
    };
    let found = count_at_once(&rt, rt.alloc(), &octant, &octant);
    same(&rt, &found, &all);
}

// What an octant leaves of the opposite one is the whole face.
#[test]
fn whole_remainder(rt: HostRuntime) {
    let octant = mesh(&rt, rt.alloc(), 0, 1, 8);
    let opposite = mesh(&rt, rt.alloc(), 6, 7, 8);
    assert!(rt; face_count(&opposite) == 1);
    let index = index(&rt, rt.alloc(), &octant);
    let Ok(cells) = remainder(rt.alloc(), &octant, &index, &opposite, 1) else {
        panic!(rt; "no memory");
    };
    assert!(rt; cells.items.len() == 1);
    same(&rt, &cells.items[0].items.len(), &3);
}
