//! Fields carried over by a map, in whole parts and rests, and the masses of fields.
#![tactic(auto)]

mod application;
mod fields;
mod fill;
mod masses;
mod numbers;
mod sums;
mod targets;

pub use application::apply;
pub use fields::{ApplyFault, Field};
pub use fill::fill_at;
pub use masses::{mass_of_slice, source_mass, target_mass};
pub use numbers::{put_rests, put_wholes};
pub use targets::{Targets, targets_of};
