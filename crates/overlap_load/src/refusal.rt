// Refusals by the faults that they come from.
ghost use Rattle.std.specs.Prelude.{◌≡◌};
ghost use Rattle.overlap_load.specs.Refusals.{refusal_of_names, refusal_of_rows};

use crate::OverlapRefusal;
use exodus_mesh::{FileFault, NameFault};
use remap_load::{FileRefusal, LoadFault};

/// The refusal of a fault of names.
pub fn of_names(fault: NameFault) -> OverlapRefusal
    ensures { result ≡ refusal_of_names fault }
{
    match fault {
        NameFault::NoMemory => FileRefusal::Load(LoadFault::NoMemory),
        _ => FileRefusal::Content(FileFault::Name(fault)),
    }
}

/// The refusal of a fault of rows.
pub fn of_rows(fault: FileFault) -> OverlapRefusal
    ensures { result ≡ refusal_of_rows fault }
{
    match fault {
        FileFault::NoMemory => FileRefusal::Load(LoadFault::NoMemory),
        _ => FileRefusal::Content(fault),
    }
}
