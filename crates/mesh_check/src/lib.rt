//! Meshes whose faces are all accepted.
#![tactic(auto)]

mod counts;
mod faces;
mod faults;
mod generated;
mod laws;
mod mesh;
mod nodes;

pub use counts::check_counts;
pub use faults::{GenFault, MeshFault};
pub use generated::check_generated;
pub use laws::law_one_mesh_fault;
pub use mesh::{Mesh, check, edge_count, face_count, node, node_count, plane, raw};
