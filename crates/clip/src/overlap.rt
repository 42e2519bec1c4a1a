// The overlap of two meshes.
use crate::pieces::Pieces;
use std::marker::Model;

/// Pieces of two meshes, in strictly ascending order of source face and then of target face: at
/// most 8,388,608.
///
/// Each mesh has 1 to 1,048,576 faces, and the face numbers of each piece are among them. The ring
/// of a piece has 3 to 32 numbers, each from 1 to 32, and there are as many corners.
#[derive(Drop)]
pub struct Overlap {
    /// How many faces the source mesh has.
    pub faces_a: u32,
    /// How many faces the target mesh has.
    pub faces_b: u32,
    /// The pieces, in order.
    pub pieces: Pieces,
}

impl Model for Overlap {
    ghost use Rattle.clip.specs.Overlaps.{OverlapParts, IsSoundOverlap};

    ghost Value = { OverlapParts };

    ghost view = { λ o. record { faces_a = o.faces_a; faces_b = o.faces_b; pieces = o.pieces } };

    ghost invariant = { λ o. IsSoundOverlap
        (record { faces_a = o.faces_a; faces_b = o.faces_b; pieces = o.pieces }) };
}
