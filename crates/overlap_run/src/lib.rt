//! The overlap of two meshes: all pairs of faces that meet, each with its ring and its corners.
#![tactic(auto)]

mod blocks;
mod faces;
mod faults;
mod gates;
mod laws;
mod rings;
mod run;
mod workers;

pub use block_claims::{
    ClaimWord, Ticket, claims, draw, is_done, last_word, last_word_of, rejoin, split,
};
pub use blocks::{Block, clip_block};
pub use faults::RunFault;
pub use gates::{Gate, OpenGate};
pub use laws::{law_one_list_of_pairs, law_one_overlap};
pub use run::{overlap, overlap_list};
