// Refusals by the faults that they come from.
ghost use Rattle.std.specs.Prelude.{◌≡◌};
ghost use Rattle.mesh_load.specs.Refusals.{refusal_of_names, refusal_of_mesh};

use crate::{MeshFileFault, MeshRefusal};
use exodus_mesh::NameFault;
use mesh_check::MeshFault;
use remap_load::{FileRefusal, LoadFault};

/// The refusal of a fault of names.
pub fn of_names(fault: NameFault) -> MeshRefusal
    ensures { result ≡ refusal_of_names fault }
{
    match fault {
        NameFault::NoMemory => FileRefusal::Load(LoadFault::NoMemory),
        _ => FileRefusal::Content(MeshFileFault::Names(fault)),
    }
}

/// The refusal of a fault of a mesh.
pub fn of_mesh(fault: MeshFault) -> MeshRefusal
    ensures { result ≡ refusal_of_mesh fault }
{
    match fault {
        MeshFault::NoMemory => FileRefusal::Load(LoadFault::NoMemory),
        _ => FileRefusal::Content(MeshFileFault::Mesh(fault)),
    }
}
