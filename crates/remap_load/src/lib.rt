//! Headers and variables of netCDF files, by positioned reads.
#![tactic(auto)]

mod fault;
mod header;
mod numbers;
mod parts;
mod reads;
mod refusal;
mod variables;

pub use fault::LoadFault;
pub use header::load_header;
use nc_format::{Bytes, NcFile};
pub use numbers::Numbers;
pub use parts::load_part;
pub use refusal::FileRefusal;
pub use variables::{load_ints, load_lists, load_longs, load_numbers};

/// The head of a file: its header, its length in bytes, and the first bytes of it, which were read
/// for the header.
#[derive(Drop)]
pub struct Head {
    pub file: NcFile,
    pub len: u64,
    pub prefix: Bytes,
}
