// Refusals by the faults that they come from.
ghost use Rattle.std.specs.Prelude.{◌≡◌};
ghost use Rattle.map_load.specs.Refusals.{refusal_of_names, refusal_of_rows};

use crate::MapRefusal;
use exodus_mesh::{FileFault, NameFault};
use remap_load::{FileRefusal, LoadFault};

/// The refusal of a fault of names.
pub fn of_names(fault: NameFault) -> MapRefusal
    ensures { result ≡ refusal_of_names fault }
{
    match fault {
        NameFault::NoMemory => FileRefusal::Load(LoadFault::NoMemory),
        _ => FileRefusal::Content(FileFault::Name(fault)),
    }
}

/// The refusal of a fault of rows or areas.
pub fn of_rows(fault: FileFault) -> MapRefusal
    ensures { result ≡ refusal_of_rows fault }
{
    match fault {
        FileFault::NoMemory => FileRefusal::Load(LoadFault::NoMemory),
        _ => FileRefusal::Content(fault),
    }
}
