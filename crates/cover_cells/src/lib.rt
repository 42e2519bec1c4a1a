//! Cells: what is left of a target face where source faces are taken from it.
#![tactic(auto)]

mod cells;
mod cutting;
mod halves;
mod inner;
mod near;
mod planes;
mod sides;
mod targets;

pub use cells::{Cell, CellPlane, Cells};
pub use cutting::cut_cells;
pub use inner::inner_direction;
pub use near::near_faces;
pub use targets::whole_target;
