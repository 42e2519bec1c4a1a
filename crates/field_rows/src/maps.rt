// Worked maps of octants, and the first faults of their overlaps.
ghost use Rattle.std.specs.Prelude.{◌≡◌, ◌≤◌, All, length};
ghost use Rattle.clip.specs.Overlaps.{IsRingNumber};

use crate::compare::{same, same_list};
use crate::meshes::{OCTANT, face_mesh};
use clip::{Corners, Overlap, Piece, Pieces, Ring};
use offline_map::{MapFault, MapRow, make_map};
use smallvec::SmallVec;
use std::alloc::{AllocError, Global};
use std::process::Abort;
use std::test::Fail;

// The grid corners of the octant's ring, 2^28 in size: the second node first.
const CORNERS: [[i32; 3]; 3] = [[0, 268435456, 0], [0, 0, 268435456], [268435456, 0, 0]];

fn ring_of(rt: &impl Abort, numbers: [u8; 3]) -> Ring
    ensures numbers { All IsRingNumber result.items }
    ensures size { length result.items ≡ 3 }
{
    let [first, second, third] = numbers;
    assert!(rt; 1 <= first && first <= 32);
    assert!(rt; 1 <= second && second <= 32);
    assert!(rt; 1 <= third && third <= 32);
    let mut ring = Ring::new();
    ring.push(first);
    ring.push(second);
    ring.push(third);
    ring
}

// The overlap of two meshes of one face each with the piece that has these numbers and corners.
fn one_piece(
    rt: &impl Abort,
    alloc: Global,
    numbers: [u8; 3],
    corners: [[i32; 3]; 3],
) -> Result<Overlap, AllocError> {
    let piece = Piece {
        a: 1,
        b: 1,
        ring: ring_of(rt, numbers),
        corners: Corners {
            items: SmallVec::from_slice(alloc, &corners)?,
        },
    };
    let mut items = Vec::new(alloc);
    items.push(piece).map_err(AllocError::from)?;
    Ok(Overlap {
        faces_a: 1,
        faces_b: 1,
        pieces: Pieces { items },
    })
}

fn no_piece(alloc: Global, faces_a: u32, faces_b: u32) -> Overlap
    requires source { (1 ≤ faces_a) × (faces_a ≤ 1048576) }
    requires target { (1 ≤ faces_b) × (faces_b ≤ 1048576) }
{
    Overlap {
        faces_a,
        faces_b,
        pieces: Pieces {
            items: Vec::new(alloc),
        },
    }
}

#[test]
fn map_of_an_octant(rt: HostRuntime) -> Result<(), Fail> {
    let mesh = face_mesh(&rt, rt.alloc(), &OCTANT);
    let overlap = one_piece(&rt, rt.alloc(), [1, 2, 3], CORNERS)?;
    let Ok(map) = make_map(rt.alloc(), &mesh, &mesh, &overlap) else {
        return Err("a map was expected".into());
    };
    let row = MapRow {
        col: 1,
        row: 1,
        s: 107944315648,
    };
    same(&rt, &(map.n_a, map.n_b), &(1, 1));
    same_list(&rt, map.rows.items.as_slice(), &[row]);
    same_list(&rt, map.area_a.items.as_slice(), &[107944315648]);
    same_list(&rt, map.area_b.items.as_slice(), &[107944315648]);
    Ok(())
}

#[test]
fn pieces_that_are_not_right(rt: HostRuntime) -> Result<(), Fail> {
    let mesh = face_mesh(&rt, rt.alloc(), &OCTANT);
    let mut changed = CORNERS;
    changed[0][0] = 1;
    // Planes 4 to 6 have the directions of planes 1 to 3.
    for (numbers, corners) in [
        ([1, 2, 6], CORNERS),
        ([2, 3, 1], CORNERS),
        ([1, 2, 7], CORNERS),
        ([1, 2, 3], changed),
    ] {
        let overlap = one_piece(&rt, rt.alloc(), numbers, corners)?;
        let fault = make_map(rt.alloc(), &mesh, &mesh, &overlap).err();
        same(&rt, &fault, &Some(MapFault::Row(1)));
    }
    Ok(())
}

#[test]
fn counts_and_targets(rt: HostRuntime) -> Result<(), Fail> {
    let mesh = face_mesh(&rt, rt.alloc(), &OCTANT);
    let rows = [
        (24, 6, MapFault::CountsA { file: 24, mesh: 1 }),
        (1, 6, MapFault::CountsB { file: 6, mesh: 1 }),
        (1, 1, MapFault::Uncovered(1)),
    ];
    for (faces_a, faces_b, want) in rows {
        assert!(rt; 1 <= faces_a && faces_a <= 24 && 1 <= faces_b && faces_b <= 24);
        let overlap = no_piece(rt.alloc(), faces_a, faces_b);
        let fault = make_map(rt.alloc(), &mesh, &mesh, &overlap).err();
        same(&rt, &fault, &Some(want));
    }
    Ok(())
}
