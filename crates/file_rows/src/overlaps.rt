// The bytes of an overlap without a piece, and a piece that is read again.
ghost use Rattle.std.specs.Prelude.{◌≤◌, length, IfOk};

use crate::compared::same;
use crate::spelled::{NO_PIECES, bytes_of, header_of, ints};
use clip::{Overlap, Piece, Pieces};
use nc_write::{DimIds, encode};
use remap_files::{
    OverlapVars, corner_count, overlap_doc, overlap_from, overlap_length, read_overlap,
};
use std::alloc::Global;
use std::process::Abort;
use std::test::Fail;

// The corners of the first piece of a cube of one square a panel over one of four, in units of
// 2^-28.
const CORNERS: [i32; 12] = [
    268_435_456,
    0,
    -268_435_456,
    268_435_456,
    0,
    0,
    268_435_456,
    -268_435_456,
    0,
    268_435_456,
    -268_435_456,
    -268_435_456,
];

fn file_of(rt: &HostRuntime, overlap: &Overlap) -> Result<Vec<u8>, Fail>
    ensures { IfOk result (λ bytes. length bytes.items ≤ 2147483647) }
{
    let Ok(doc) = overlap_doc(rt.alloc(), overlap) else {
        return Err("out of memory".into());
    };
    let Ok(bytes) = encode(rt.alloc(), &doc) else {
        return Err("a file was expected".into());
    };
    Ok(bytes)
}

#[test]
fn no_piece(rt: HostRuntime) -> Result<(), Fail> {
    let overlap = Overlap {
        faces_a: 1,
        faces_b: 1,
        pieces: Pieces {
            items: Vec::new(rt.alloc()),
        },
    };
    let bytes = file_of(&rt, &overlap)?;
    let want = bytes_of(rt.alloc(), NO_PIECES)?;
    same(&rt, &bytes.as_slice(), &want.as_slice());
    Ok(())
}

#[test]
fn lengths(rt: HostRuntime) -> Result<(), Fail> {
    same(&rt, &overlap_length(0, 0), &104);
    same(&rt, &overlap_length(24, 96), &1856);
    same(&rt, &overlap_length(96, 384), &6248);
    Ok(())
}

// The first piece of a cube of one square a panel over one of four.
fn one_piece(rt: &HostRuntime) -> Result<Overlap, Fail> {
    let vars = OverlapVars {
        faces_a: 6,
        faces_b: 24,
        pieces: 1,
        corners: 4,
        vars: DimIds {
            items: [0, 1, 2, 3, 4].to_vec(rt.alloc())?,
        },
    };
    let values = [
        ints(rt.alloc(), &[1])?,
        ints(rt.alloc(), &[1])?,
        ints(rt.alloc(), &[4])?,
        ints(rt.alloc(), &[1, 6, 7, 4])?,
        ints(rt.alloc(), &CORNERS)?,
    ];
    match overlap_from(rt.alloc(), &vars, &values) {
        Ok(overlap) => Ok(overlap),
        Err(_) => Err("an overlap was expected".into()),
    }
}

fn overlap_in(alloc: Global, bytes: &[u8]) -> Result<Overlap, Fail>
    requires { length bytes.now ≤ 2147483647 }
{
    let file = header_of(alloc, bytes)?;
    match read_overlap(alloc, &file, bytes) {
        Ok(overlap) => Ok(overlap),
        Err(_) => Err("an overlap was expected".into()),
    }
}

fn assert_piece(rt: &impl Abort, piece: &Piece) {
    same(rt, &(piece.a, piece.b), &(1, 1));
    same(rt, &piece.ring.as_slice(), &[1, 6, 7, 4].as_slice());
    let corners = piece.corners.items.as_slice();
    assert!(rt; corners.len() == 4);
    for t in 0..4 {
        same(rt, &corners[t].as_slice(), &&CORNERS[3 * t..3 * t + 3]);
    }
}

fn assert_overlap(rt: &impl Abort, overlap: &Overlap) {
    same(rt, &(overlap.faces_a, overlap.faces_b), &(6, 24));
    same(rt, &overlap.pieces.items.len(), &1);
    for piece in &overlap.pieces.items {
        assert_piece(rt, piece);
    }
}

#[test]
fn read_again(rt: HostRuntime) -> Result<(), Fail> {
    let overlap = one_piece(&rt)?;
    same(&rt, &corner_count(&overlap), &4);
    let bytes = file_of(&rt, &overlap)?;
    same(&rt, &(bytes.len() as u64), &overlap_length(1, 4));
    let again = overlap_in(rt.alloc(), &bytes)?;
    assert_overlap(&rt, &again);
    Ok(())
}
