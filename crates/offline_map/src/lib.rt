//! The map of an overlap: a row for each piece, with its measure, and the areas of the faces.
#![tactic(auto)]

mod areas;
mod faults;
mod laws;
mod make;
mod maker;
mod pieces;

pub use faults::MapFault;
pub use laws::law_one_map_fault;
pub use make::make_map;
pub use maker::MapMaker;
pub use map_rows::{Map, MapRow, MapRows};
