// Worked rings, and pieces copied from one list into another.
ghost use Rattle.std.specs.Prelude.{◌≡◌, ◌<◌, ◌≤◌, ◌^◌, IfOk, IfSome, length};
ghost use Rattle.cone_laws.specs.Ring.{IsRing};
ghost use Rattle.mesh_check.specs.Mesh.{corners_of};
ghost use Rattle.clip.specs.Planes.{IsFaceNumber};
ghost use Rattle.clip.specs.Overlaps.{HasSmallNumbers};

use crate::compare::{same, same_list};
use crate::single_faces::{IN_ORDER, OCTANT, SIXTEEN, SQUARE, face_mesh};
use clip::{
    Columns, Corners, Piece, PieceList, Pieces, Ring, clip, corner, cut, is_ring, planes, start,
};
use mesh_check::{Mesh, edge_count};
use smallvec::SmallVec;
use std::alloc::{AllocError, Global};
use std::marker::Brand;
use std::sync::ledger::{Blank, Ledger};
use vec_exact::{NoMemory, Steps, Vec3};

// The ring of the only faces of two meshes.
fn clipped<L: Ledger>(blank: Blank, a: &Mesh, b: &Mesh) -> Option<Ring>
    requires name { blank.name ≡ L.name }
    requires parts { blank.parts ≡ L.parts }
    requires some { 0 < blank.parts }
    requires source { IsFaceNumber a.now 1 }
    requires target { IsFaceNumber b.now 1 }
    ensures { IfSome result (λ ring. IsRing (corners_of a.now 1) (corners_of b.now 1) ring.items) }
{
    let mut steps = Steps::<L>::new(blank);
    clip(a, 1, b, 1, &mut steps)
}

// Corner t of the ring of the only faces of two meshes.
fn corner_of_pair(a: &Mesh, b: &Mesh, ring: &Ring, t: u32) -> Vec3
    requires source { IsFaceNumber a.now 1 }
    requires target { IsFaceNumber b.now 1 }
    requires ring { IsRing (corners_of a.now 1) (corners_of b.now 1) ring.now.items }
    requires place { (1 ≤ t) × (t ≤ length ring.now.items) }
{
    corner(&planes(a, 1, b, 1), ring, t)
}

const OPPOSITE: [[i32; 3]; 3] = [[-1, 0, 0], [0, 0, -1], [0, -1, 0]];

// Faces 1 and 2 of the cubed sphere of resolution 2.
const FINE: [[i32; 3]; 4] = [[2, -2, -2], [2, 0, -2], [2, 0, 0], [2, -2, 0]];

const BESIDE: [[i32; 3]; 4] = [[2, 0, -2], [2, 2, -2], [2, 2, 0], [2, 0, 0]];

#[test]
fn one_more_plane(rt: HostRuntime) {
    // The first edge plane of each face is (2, 0, 0), (-1, 0, 0) and (1, -1, 0).
    let rows: [([[i32; 3]; 3], &[u8]); 3] = [
        ([[0, 1, 0], [0, 0, 2], [1, 0, 0]], &[1, 2, 3]),
        ([[0, 0, 1], [0, 1, 0], [-1, 0, 0]], &[]),
        ([[1, 1, 0], [0, 0, 1], [1, 0, 0]], &[2, 3, 4]),
    ];
    // The edge planes of this turn of the octant are (1, 0, 0), (0, 1, 0) and (0, 0, 1).
    let octant = face_mesh(
        &rt,
        rt.alloc(),
        &[[0, 1, 0], [0, 0, 1], [1, 0, 0]],
        &[1, 2, 3],
    );
    assert!(rt; edge_count(&octant, 1) == 3);
    for (nodes, want) in rows {
        let face = face_mesh(&rt, rt.alloc(), &nodes, &[1, 2, 3]);
        let planes = planes(&octant, 1, &face, 1);
        assert!(rt; planes.len() == 6);
        let mut ring = start(&planes, 3);
        same(&rt, &cut(&planes, &mut ring, 4), &!want.is_empty());
        same_list(&rt, ring.as_slice(), want);
    }
}

#[test]
fn rings_of_pairs(rt: HostRuntime) {
    let all: [u8; 16] = [1, 2, 3, 4, 5, 6, 7, 8, 9, 10, 11, 12, 13, 14, 15, 16];
    let rows: [(&[[i32; 3]], &[[i32; 3]], &[u8]); 5] = [
        (&SQUARE, &FINE, &[1, 6, 7, 4]),
        (&FINE, &FINE, &[1, 2, 3, 4]),
        (&FINE, &BESIDE, &[]),
        (&OCTANT, &OPPOSITE, &[]),
        (&SIXTEEN, &SIXTEEN, &all),
    ];
    for (source, target, want) in rows {
        assert!(rt; source.len() <= 16 && target.len() <= 16);
        let a = face_mesh(&rt, rt.alloc(), source, &IN_ORDER[..source.len()]);
        let b = face_mesh(&rt, rt.alloc(), target, &IN_ORDER[..target.len()]);
        match clipped::<Brand>(Blank::new(1), &a, &b) {
            None => assert!(rt; want.is_empty()),
            Some(ring) => {
                same_list(&rt, ring.as_slice(), want);
                assert!(rt; is_ring(&a, 1, &b, 1, &ring));
            }
        }
    }
}

#[test]
fn lists_that_are_no_rings(rt: HostRuntime) {
    let a = face_mesh(&rt, rt.alloc(), &SQUARE, &[1, 2, 3, 4]);
    let b = face_mesh(&rt, rt.alloc(), &FINE, &[1, 2, 3, 4]);
    for numbers in [[1, 6, 7, 8], [4, 1, 6, 7], [0, 6, 7, 4], [1, 6, 7, 255]] {
        let mut ring = Ring::new();
        for number in numbers {
            assert!(rt; ring.len() < 32);
            ring.push(number);
        }
        assert!(rt; !is_ring(&a, 1, &b, 1, &ring));
    }
}

#[test]
fn corners_of_a_ring(rt: HostRuntime) {
    let a = face_mesh(&rt, rt.alloc(), &SQUARE, &[1, 2, 3, 4]);
    let b = face_mesh(&rt, rt.alloc(), &FINE, &[1, 2, 3, 4]);
    let Some(ring) = clipped::<Brand>(Blank::new(1), &a, &b) else {
        panic!(rt; "no ring");
    };
    assert!(rt; ring.len() == 4);
    let want = [(8, 0, -8), (16, 0, 0), (8, -8, 0), (4, -4, -4)];
    for t in 1..5 {
        let (x, y, z) = want[t as usize - 1];
        same(&rt, &corner_of_pair(&a, &b, &ring, t), &Vec3 { x, y, z });
    }
}

// A piece of source face `a` and target face 9.
fn triangle(alloc: Global, a: u32) -> Result<Piece, AllocError>
    requires { a < 2 ^ 31 }
    ensures { IfOk result HasSmallNumbers }
{
    let mut ring = Ring::new();
    ring.push(1);
    ring.push(2);
    ring.push(5);
    let items = SmallVec::from_slice(alloc, &OCTANT)?;
    Ok(Piece {
        a,
        b: 9,
        ring,
        corners: Corners { items },
    })
}

// A list with the second of three pieces.
fn second_of_three<C: PieceList>(alloc: Global) -> Result<C, NoMemory> {
    let mut three = C::none(alloc);
    three.push(triangle(alloc, 6)?)?;
    let from = three.end();
    three.push(triangle(alloc, 7)?)?;
    let to = three.end();
    three.push(triangle(alloc, 8)?)?;
    let mut one = C::none(alloc);
    one.append_between(alloc, &three, from, to)?;
    Ok(one)
}

#[test]
fn pieces_between_two_places(rt: HostRuntime) {
    let Ok(list) = second_of_three::<Pieces>(rt.alloc()) else {
        panic!(rt; "no memory");
    };
    assert!(rt; list.items.len() == 1);
    let piece = &list.items[0];
    same(&rt, &(piece.a, piece.b), &(7, 9));
    same_list(&rt, piece.ring.as_slice(), &[1, 2, 5]);
    same_list(&rt, piece.corners.items.as_slice(), &OCTANT);
}

#[test]
fn columns_between_two_places(rt: HostRuntime) {
    let Ok(columns) = second_of_three::<Columns>(rt.alloc()) else {
        panic!(rt; "no memory");
    };
    same_list(&rt, columns.sources.as_slice(), &[7]);
    same_list(&rt, columns.targets.as_slice(), &[9]);
    same_list(&rt, columns.ring_sizes.as_slice(), &[3]);
    same_list(&rt, columns.ring_planes.as_slice(), &[1, 2, 5]);
    same_list(
        &rt,
        columns.corners.as_slice(),
        &[1, 0, 0, 0, 1, 0, 0, 0, 1],
    );
}
