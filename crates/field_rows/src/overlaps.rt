// Worked overlaps of octants.
ghost use Rattle.std.specs.Prelude.{◌≡◌, ◌<◌};

use crate::compare::{same, same_list};
use crate::meshes::{OCTANT, face_mesh};
use clip::Overlap;
use mesh_check::Mesh;
use overlap_run::{OpenGate, RunFault, overlap};
use std::alloc::Global;
use std::marker::Brand;
use std::sync::ledger::{Blank, Ledger};
use std::thread::Threads;
use vec_exact::Steps;

const OPPOSITE: [[i32; 3]; 3] = [[-1, 0, 0], [0, 0, -1], [0, -1, 0]];

fn run_once<L: Ledger>(
    rt: &impl Threads,
    alloc: Global,
    a: &Mesh,
    b: &Mesh,
    blank: Blank,
) -> Result<Overlap, RunFault>
    requires name { blank.name ≡ L.name }
    requires parts { blank.parts ≡ L.parts }
    requires some { 0 < blank.parts }
{
    let mut steps = Steps::<L>::new(blank);
    overlap(rt, alloc, a, b, 1, &OpenGate, &mut steps)
}

#[test]
fn octants(rt: HostRuntime) {
    let octant = face_mesh(&rt, rt.alloc(), &OCTANT);
    let opposite = face_mesh(&rt, rt.alloc(), &OPPOSITE);
    let Ok(apart) = run_once::<Brand>(&rt, rt.alloc(), &octant, &opposite, Blank::new(1)) else {
        panic!(rt; "a fault");
    };
    assert!(rt; apart.pieces.items.is_empty());
    let Ok(alone) = run_once::<Brand>(&rt, rt.alloc(), &octant, &octant, Blank::new(1)) else {
        panic!(rt; "a fault");
    };
    let [piece] = alone.pieces.items.as_slice() else {
        panic!(rt; "other than one piece");
    };
    same(&rt, &(piece.a, piece.b), &(1, 1));
    same_list(&rt, piece.ring.as_slice(), &[1, 2, 3]);
    same(&rt, &piece.corners.items.len(), &3);
}
