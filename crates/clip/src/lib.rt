//! Exact clipping: the ring of edge planes of two faces, made by adding one plane after another.
#![tactic(auto)]

mod columns;
mod cuts;
mod forms;
mod lists;
mod meetings;
mod narrow;
mod outlines;
mod overlap;
mod pairs;
mod pieces;
mod rings;
mod sides;

pub use columns::{Columns, PieceList, Place};
pub use forms::{CornerForm, corner_form};
pub use lists::{PlaneList, Ring, corner};
pub use outlines::{Outline, outline_of, read_outline};
pub use overlap::Overlap;
pub use pairs::{clip, clip_next, is_ring, is_ring_of_outlines, planes};
pub use pieces::{Corners, Piece, Pieces};
pub use rings::{cut, start};
