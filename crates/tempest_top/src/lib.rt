//! Everything that the program does: from its words to its files, its text and its status.
#![tactic(auto)]

mod cover;
mod document;
mod field;
mod field_docs;
mod field_faults;
mod finish;
mod generate;
mod inputs;
mod laws;
mod map;
mod map_faults;
mod numbers;
mod pairs;
mod report;
mod self_run;
mod top;

pub use command_line::{Chosen, OptFault, Text, options};
pub use fault_lines::Status;
pub use laws::{law_commands, law_one_outcome, law_three_commands};
pub use top::run;
