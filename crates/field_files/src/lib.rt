//! Fields in files: the variable that a map is applied to, and the file of what the map makes of it.
#![tactic(auto)]

mod document;
mod fill;
mod finding;
mod frame;
mod reading;
mod shape;

pub use document::{field_doc, field_frame_doc, masked_field_doc};
use exodus_mesh::NameFault;
pub use fill::fill_value;
pub use finding::find_field;
pub use reading::read_field;
pub use shape::fit_field;
use vec_exact::{Ints, NoMemory};

/// A variable that fits a map: where it stands, how many of its dimensions lead, and how many slices
/// these make. The other dimensions, the last one or the last two, lie along the sources of the map.
#[derive(Clone, Copy, Debug)]
pub struct FieldVar {
    /// The place of the variable in the file, from 0.
    pub var: u32,
    /// How many dimensions lead.
    pub leading: usize,
    /// The product of the lengths of the leading dimensions, with the number of records as the length
    /// of the record dimension. It is 1 where no dimension leads.
    pub slices: u32,
}

/// No trailing dimensions of a variable fit a map.
#[derive(Clone, Copy, Debug)]
pub struct NoFit {
    /// The length of the last dimension of the variable.
    pub last_len: u32,
}

/// A field as a file has it.
#[derive(Drop)]
pub struct FieldData {
    /// The variable that it stands in.
    pub field: FieldVar,
    /// Its values in row-major order, slice by slice.
    pub values: Ints,
    /// The fill value, where there is one.
    pub fill: Option<i32>,
}

/// Why a file has no field for a map.
#[derive(Clone, Copy, Debug)]
pub enum FieldFault {
    /// The first fault of names, which is never want of memory.
    Name(NameFault),
    /// No trailing dimensions fit the map; the last dimension has this length.
    Length(u32),
    /// Memory ran out.
    NoMemory,
}

impl From<NoMemory> for FieldFault {
    ghost use Rattle.std.specs.Prelude.{◌≡◌};
    ghost use Rattle.field_files.specs.declared.FieldFault.TheVariants as faults;

    ghost from_gives = { λ _ fault. fault ≡ faults.NoMemory };

    fn from(_: NoMemory) -> Self {
        FieldFault::NoMemory
    }
}
