//! netCDF headers, and the values of variables.
#![tactic(auto)]

mod cursor;
mod fault;
mod laws;
mod lists;
mod lookup;
mod parts;
mod placing;
mod reading;
mod values;

pub use fault::NcFault;
pub use laws::{law_cut, law_first_fault, law_prefix, law_written};
pub use lists::{Bytes, NcAtts, NcVars};
pub use lookup::{find_dim, find_var, int_att};
use nc_write::{DimIds, Name, NcKind};
pub use nc_write::{DocDim as NcDim, DocDims as NcDims};
pub use reading::read_header;
pub use values::{gather, int_values, is_int, is_long, long_values};

/// An attribute: `count` values of a type, spelled by `bytes`.
#[derive(Drop)]
pub struct NcAtt {
    pub name: Name,
    pub kind: NcKind,
    pub count: u32,
    pub bytes: Bytes,
}

/// A variable over dimensions, which are named by their places in the list of dimensions, from 0.
///
/// Its values stand in `parts` pieces of `part` bytes: one piece, or as many as there are records
/// where its first dimension is the record dimension. The first begins at the offset `begin` of the
/// file, and each other one `step` bytes behind the one before it. `part` is 0 where `parts` is 0,
/// and `step` is 0 where `parts` is at most 1.
#[derive(Drop)]
pub struct NcVar {
    pub name: Name,
    pub dims: DimIds,
    pub atts: NcAtts,
    pub kind: NcKind,
    pub begin: u64,
    pub parts: u32,
    pub part: u64,
    pub step: u64,
}

/// A header: its version is 1, 2 or 5, and `records` is the length of the record dimension.
#[derive(Drop)]
pub struct NcFile {
    pub version: u8,
    pub records: u32,
    pub dims: NcDims,
    pub atts: NcAtts,
    pub vars: NcVars,
}
