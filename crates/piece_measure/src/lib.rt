//! The measure of a piece, a fixed-point form of its solid angle, and the grid that its corners are
//! brought to.
#![tactic(auto)]

mod grid;
mod piece;
mod triangle;

pub use grid::{grid_corner, grid_node, law_same_for_multiples};
pub use piece::{GREATEST_MEASURE, measure};
pub use triangle::tri;
