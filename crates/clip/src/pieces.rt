// The pieces of an overlap.
use crate::lists::Ring;
use smallvec::SmallVec;
use std::marker::Model;

/// The corners of a piece, triples of whole numbers, seen as a list. Up to six lie in the value
/// itself.
#[derive(Drop)]
pub struct Corners {
    pub items: SmallVec<[i32; 3], 6>,
}

impl Model for Corners {
    ghost use Rattle.std.specs.Prelude.{List, ℤ};

    ghost Value = { List (List ℤ) };

    ghost view = { λ c. c.items.items };
}

/// The piece that a source face and a target face share.
#[derive(Drop)]
pub struct Piece {
    /// The number of the source face, from 1.
    pub a: u32,
    /// The number of the target face, from 1.
    pub b: u32,
    /// Its planes, by their numbers among the edge planes of the two faces, from 1.
    pub ring: Ring,
    /// Its corners, one for each of these planes, in the same order.
    pub corners: Corners,
}

/// Pieces, seen as a list.
#[derive(Drop)]
pub struct Pieces {
    pub items: Vec<Piece>,
}

impl Model for Pieces {
    ghost use Rattle.std.specs.Prelude.{List};
    ghost use Rattle.clip.specs.declared.pieces.Piece.{Piece as OnePiece};

    ghost Value = { List OnePiece };

    ghost view = { λ p. p.items.items };
}
