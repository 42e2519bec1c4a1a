//! A mesh file by its name: the accepted mesh that it holds, or why there is none.
#![tactic(auto)]

mod laws;
mod loading;
mod refusal;
mod values;

use exodus_mesh::NameFault;
pub use laws::law_one_mesh;
pub use loading::load_mesh;
use mesh_check::MeshFault;
use remap_load::FileRefusal;

/// The fault of a file with a good header that holds no accepted mesh. It is never want of memory.
#[derive(Clone, Copy, Debug, PartialEq, Eq)]
pub enum MeshFileFault {
    /// The names in the header have this first fault.
    Names(NameFault),
    /// The counts have this fault, or else the mesh has this first one.
    Mesh(MeshFault),
}

/// Why no mesh was loaded from a file.
pub type MeshRefusal = FileRefusal<MeshFileFault>;
