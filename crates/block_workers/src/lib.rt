//! Numbered blocks of work, done by several workers. Each worker draws the number of its next block
//! from one shared word and puts all its blocks in one part. What is told of the blocks stands in
//! the order of their numbers.
#![tactic(auto)]

mod job;
mod order;
mod run;
mod worker;

pub use job::{BlockJob, Parts, Placed};
pub use run::run_blocks;
