//! netCDF documents, and the one file of each.
#![tactic(auto)]

mod data;
pub mod extents;
pub mod kinds;
mod lengths;
mod lists;
mod made_numbers;
mod sizes;
mod spell;
pub mod tags;
mod writing;

pub use lists::{Bytes8, DimIds, DocAtts, DocDims, DocVars, Name};
pub use made_numbers::{Listed, MadeNumbers};
use std::alloc::AllocError;
use vec_exact::{Ints, Longs};
pub use writing::{encode, length_of, length_of_made, write_document, write_made};

/// The bytes of a part of a file, which are spelled at once.
const PART: usize = 65_536;

/// The types of netCDF values. The first six stand in versions 1, 2 and 5, the others in version 5
/// alone (netCDF classic format specification; CDF-5).
#[derive(Clone, Copy, Debug, PartialEq, Eq)]
pub enum NcKind {
    Byte,
    Char,
    Short,
    Int,
    Float,
    Double,
    UByte,
    UShort,
    UInt,
    Int64,
    UInt64,
}

/// The values of a variable, in row-major order, of one of the three types that are written.
#[derive(Drop)]
pub enum Values {
    Byte(Bytes8),
    Int(Ints),
    Long(Longs),
}

/// A dimension: its name and its length. The one of length 0 is the record dimension.
#[derive(Drop)]
pub struct DocDim {
    pub name: Name,
    pub len: u32,
}

/// A global attribute of one whole number.
#[derive(Drop)]
pub struct DocAtt {
    pub name: Name,
    pub value: i32,
}

/// A variable over dimensions, which are named by their places in the list of dimensions, from 0.
#[derive(Drop)]
pub struct DocVar {
    pub name: Name,
    pub dims: DimIds,
    pub values: Values,
}

/// A document: what a netCDF file says, apart from how it is spelled.
/// `records` is the length of the record dimension.
#[derive(Drop)]
pub struct NcDoc {
    pub records: u32,
    pub dims: DocDims,
    pub atts: DocAtts,
    pub vars: DocVars,
}

/// Why a document has no file here: the file's length in bytes passes 2,147,483,647, or memory ran
/// out.
#[derive(Clone, Copy, Debug, PartialEq, Eq)]
pub enum EncFault {
    TooLarge(u64),
    NoMemory,
}

impl From<AllocError> for EncFault {
    ghost use Rattle.std.specs.Prelude.{◌≡◌};
    ghost use Rattle.nc_write.specs.declared.EncFault.TheVariants as faults;

    ghost from_gives = { λ _ e. e ≡ faults.NoMemory };

    fn from(_: AllocError) -> Self {
        EncFault::NoMemory
    }
}
