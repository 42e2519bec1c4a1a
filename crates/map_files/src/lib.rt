//! Maps in files.
#![tactic(auto)]

mod document;
mod finding;
mod laws;
mod reading;
mod values;
mod vars;

pub use document::{map_doc, map_length};
pub use finding::find_map;
pub use laws::law_map_read_again;
pub use reading::read_map;
pub use values::map_from;
pub use vars::MapVars;
