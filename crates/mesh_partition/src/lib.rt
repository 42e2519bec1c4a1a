//! Whether the faces of a mesh tile the sphere, exactly: which of them overlap, which directed edges
//! stand alone or twice, and whether they cover all directions.
#![tactic(auto)]

mod cover;
mod edges;
mod laws;
mod overlaps;
mod reporting;

pub use laws::{law_one_mesh_report, law_six_faces_decide};
pub use reporting::{MeshReport, report};
