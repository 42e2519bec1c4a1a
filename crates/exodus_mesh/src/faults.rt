// Why a file has no overlap and no map.
ghost use Rattle.std.specs.Prelude.{◌≡◌};
ghost use Rattle.exodus_mesh.specs.declared.faults.FileFault.TheVariants.{NoMemory};
ghost use Rattle.exodus_mesh.specs.Answers.{file_fault_of, SaysMemoryAlone};

use crate::NameFault;
use std::alloc::{AllocError, AllocFailed};

/// The first fault of an overlap file or a map file.
#[derive(Clone, Copy, Debug, PartialEq, Eq)]
pub enum FileFault {
    /// The first fault of names, which is never want of memory.
    Name(NameFault),
    /// The row with this number, from 1, is the first at fault.
    Row(u32),
    /// The area of the source with this number, from 1, is the first that is not the sum of its rows.
    AreaA(u32),
    /// The area of the target with this number, from 1, is the first that is not the sum of its rows,
    /// or that is 0.
    AreaB(u32),
    /// Memory ran out.
    NoMemory,
}

impl From<AllocError> for FileFault {
    ghost from_gives = { λ _ fault. fault ≡ NoMemory };

    fn from(_: AllocError) -> Self {
        FileFault::NoMemory
    }
}

impl From<vec_exact::NoMemory> for FileFault {
    ghost from_gives = { λ _ fault. fault ≡ NoMemory };

    fn from(_: vec_exact::NoMemory) -> Self {
        FileFault::NoMemory
    }
}

impl<T: Drop> From<AllocFailed<T>> for FileFault {
    ghost from_gives = { λ _ fault. fault ≡ NoMemory };

    fn from(_: AllocFailed<T>) -> Self {
        FileFault::NoMemory
    }
}

/// A fault of names is a fault of the file; want of memory stays want of memory.
pub fn file_fault(fault: NameFault) -> FileFault
    ensures fault { result ≡ file_fault_of fault }
    ensures memory { SaysMemoryAlone result }
{
    match fault {
        NameFault::NoMemory => FileFault::NoMemory,
        _ => FileFault::Name(fault),
    }
}
