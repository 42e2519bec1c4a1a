// Fields with absent values over the targets of a map, and why there is none.
ghost use Rattle.std.specs.Prelude.{◌≡◌};
ghost use Rattle.field_mask.specs.declared.fields.MaskFault.TheVariants.{NoMemory};

use std::alloc::{AllocError, AllocFailed};
use vec_exact::{Ints, Longs};

/// A field over the target faces of a map: slice by slice, and in each by target.
#[derive(Drop)]
pub struct MaskedField {
    /// The floors of the weighted means over the present sources; where there is none, the fill
    /// value, or 0.
    pub whole: Ints,
    /// What the floors leave, from 0 to below the part; 0 where the part is 0.
    pub rest: Longs,
    /// The part of the area of the target that is present: the measures of its rows whose source
    /// has a value, added up. It is 0 exactly where a target is masked.
    pub part: Longs,
}

/// Why no field comes.
#[derive(Clone, Copy, Debug, PartialEq, Eq)]
pub enum MaskFault {
    /// There is not a value for each source face of each slice.
    Length {
        /// How many source faces the map has.
        map: u32,
        /// How many values there are.
        field: u64,
    },
    /// Memory ran out.
    NoMemory,
}

impl From<AllocError> for MaskFault {
    ghost from_gives = { λ _ fault. fault ≡ NoMemory };

    fn from(_: AllocError) -> Self {
        MaskFault::NoMemory
    }
}

impl<T: Drop> From<AllocFailed<T>> for MaskFault {
    ghost from_gives = { λ _ fault. fault ≡ NoMemory };

    fn from(_: AllocFailed<T>) -> Self {
        MaskFault::NoMemory
    }
}
