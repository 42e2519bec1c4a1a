// Why a header or a variable wasn't loaded.
use nc_format::NcFault;
use std::alloc::AllocError;
use vec_exact::NoMemory;

/// Why a header or the values of a variable weren't loaded.
#[derive(Clone, Copy, Debug, PartialEq, Eq)]
pub enum LoadFault {
    /// There is no file of the name.
    Absent,
    /// Reading failed.
    Failed,
    /// The file has this many bytes, more than 2,147,483,647.
    TooLong(u64),
    /// The header has this first fault, which is never `NcFault::NoMemory`.
    Format(NcFault),
    /// Memory ran out.
    NoMemory,
}

impl From<NoMemory> for LoadFault {
    ghost use Rattle.std.specs.Prelude.{◌≡◌};
    ghost use Rattle.remap_load.specs.declared.fault.LoadFault.TheVariants as faults;

    ghost from_gives = { λ _ e. e ≡ faults.NoMemory };

    fn from(_: NoMemory) -> Self {
        LoadFault::NoMemory
    }
}

impl From<AllocError> for LoadFault {
    ghost use Rattle.std.specs.Prelude.{◌≡◌};
    ghost use Rattle.remap_load.specs.declared.fault.LoadFault.TheVariants as faults;

    ghost from_gives = { λ _ e. e ≡ faults.NoMemory };

    fn from(_: AllocError) -> Self {
        LoadFault::NoMemory
    }
}
