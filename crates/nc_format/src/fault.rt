//! What is wrong with the bytes of a header.
use std::alloc::{AllocError, AllocFailed};

/// The first fault of a header, from left to right, or want of memory.
///
/// - `NotNetcdf`: fewer than four bytes are given, or the first three differ from `43 44 46`.
/// - `Truncated`: the bytes given end inside the field that begins at this offset.
/// - `BadField`: the field at this offset is outside the grammar.
/// - `Streaming`: the number of records holds the byte `ff` throughout.
/// - `DataOutside`: the number, from 1, of the first variable whose values reach past the file.
#[derive(Clone, Copy, Debug, PartialEq, Eq)]
pub enum NcFault {
    NotNetcdf,
    Truncated(u64),
    BadField(u64),
    Streaming,
    DataOutside(u32),
    NoMemory,
}

impl From<AllocError> for NcFault {
    ghost use Rattle.std.specs.Prelude.{◌≡◌};
    ghost use Rattle.nc_format.specs.declared.fault.NcFault.TheVariants as faults;

    ghost from_gives = { λ _ e. e ≡ faults.NoMemory };

    fn from(_: AllocError) -> Self {
        NcFault::NoMemory
    }
}

impl<T: Drop> From<AllocFailed<T>> for NcFault {
    ghost use Rattle.std.specs.Prelude.{◌≡◌};
    ghost use Rattle.nc_format.specs.declared.fault.NcFault.TheVariants as faults;

    ghost from_gives = { λ _ e. e ≡ faults.NoMemory };

    fn from(_: AllocFailed<T>) -> Self {
        NcFault::NoMemory
    }
}
