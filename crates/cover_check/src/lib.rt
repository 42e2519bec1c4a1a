//! Which faces of a target mesh the faces of a source mesh cover, exactly.
//!
//! A target is covered where every direction inside it is in the closure of some source face. Each
//! source that may meet it is taken away from it, and what is left is a list of cells.
#![tactic(auto)]

mod counting;
mod laws;
mod parts;
mod rest;

pub use counting::{CoverCount, coverage};
pub use laws::law_one_cover_count;
pub use rest::{remainder, uncovered};
