// Refusals by the faults that they come from.
ghost use Rattle.std.specs.Prelude.{◌≡◌};
ghost use Rattle.data_load.specs.Refusals.{refusal_of_names};

use crate::DataRefusal;
use exodus_mesh::NameFault;
use remap_load::{FileRefusal, LoadFault};

/// The refusal of a fault of names.
pub fn of_names(fault: NameFault) -> DataRefusal
    ensures { result ≡ refusal_of_names fault }
{
    match fault {
        NameFault::NoMemory => FileRefusal::Load(LoadFault::NoMemory),
        _ => FileRefusal::Content(fault),
    }
}
