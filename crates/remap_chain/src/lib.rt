//! The whole chain in memory: overlap, map and field of two meshes.
#![tactic(auto)]

mod faults;
mod laws;
mod steps;
mod whole;

pub use faults::ChainFault;
pub use laws::law_one_chain;
pub use whole::{ChainOut, chain};
