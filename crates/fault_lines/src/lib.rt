//! The lines of refusals, and the status that each ends a command with.
#![tactic(auto)]

mod faults;
mod lines;
mod rows;
mod status;

pub use faults::{
    put_name_fault, put_numbered, refuse_length, refuse_load, refuse_made, refuse_memory,
    refuse_mesh_file, refuse_run, refuse_usage,
};
pub use lines::put_line;
pub use rows::{refuse_file_fault, refuse_map, refuse_uncovered};
pub use status::Status;
