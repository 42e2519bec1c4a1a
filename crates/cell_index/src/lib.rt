//! The cells of the panels of the cubed sphere, and the pairs of faces that share one.
//!
//! A face has a box of cells on each panel that it can reach. Two faces that meet have boxes that
//! share a cell, so only pairs that share one need be clipped.
#![tactic(auto)]

mod coordinates;
mod counting;
mod face_boxes;
mod filling;
mod index;
mod kept;
mod kept_boxes;
mod laws;
mod search;
mod shared_cells;
mod spans;

pub use face_boxes::{boxes_of, fineness};
pub use index::{Index, build, candidates, find_candidates};
pub use laws::{
    law_candidates_of, law_meets_is_candidate, law_seen_is_placed, law_sharers_are_candidates,
};

/// A box of cells of a panel: those whose first number is from `u0` to `u1` and whose second is
/// from `v0` to `v1`. At the fineness k the numbers of cells go from -k to k - 1.
#[derive(Clone, Copy, Debug, PartialEq, Eq)]
pub struct CellBox {
    pub u0: i32,
    pub u1: i32,
    pub v0: i32,
    pub v1: i32,
}

/// The boxes of a face on the six panels, in the order of `Panel`.
#[derive(Clone, Copy, Debug, PartialEq, Eq)]
pub struct Boxes {
    pub panel: [Option<CellBox>; 6],
}
