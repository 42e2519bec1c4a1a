//! Fields in which values may be absent, carried over by a map, and the masses of what is present.
#![tactic(auto)]

mod application;
mod counts;
mod fields;
mod masses;
mod shares;

pub use application::apply_masked;
pub use counts::masked_count;
pub use fields::{MaskFault, MaskedField};
pub use masses::{part_mass, present_mass};
