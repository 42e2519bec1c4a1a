//! The outside: files by name, and sinks, with counts of what failed.
#![tactic(auto)]

mod content;
mod files;
mod host;
mod mem_files;
mod mem_sink;
mod replacing;
mod schedule;
mod sink;
mod steady;
mod store;

pub use content::Content;
pub use files::{FileErr, Files, PutErr};
pub use host::{HostFiles, HostSink};
pub use mem_files::{MemFiles, Torn};
pub use mem_sink::MemSink;
pub use sink::Sink;
pub use steady::{SteadyFiles, SteadySink};
