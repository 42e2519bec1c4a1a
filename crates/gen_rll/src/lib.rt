//! The latitude-longitude mesh.
#![tactic(auto)]

mod faces;
mod nodes;
mod trigonometry;

ghost use Rattle.std.specs.Prelude.{◌≡◌, ◌≢◌, ◌≤◌, ◌⊎◌, ◌+◌, ◌-◌, ◌*◌, Err, IfErr, IfOk, OnOk, length};
ghost use Rattle.vec_exact.specs.Counts.{AreAllowedCounts};
ghost use Rattle.mesh_check.specs.Mesh.{IsAcceptedMesh};
ghost use Rattle.mesh_check.specs.FirstFault.{IsFirstMeshFault};
ghost use Rattle.mesh_check.specs.declared.faults.MeshFault.{MeshFault};
ghost use Rattle.mesh_check.specs.declared.faults.MeshFault.TheVariants.{NoMemory as MeshNoMemory};
ghost use Rattle.mesh_check.specs.declared.faults.GenFault.TheVariants.{Mesh as FaultOfMesh, NoMemory};
ghost use Rattle.gen_rll.specs.LatitudeLongitude.{latitude_longitude};

use faces::all_faces;
use mesh_check::{GenFault, Mesh, check_generated};
use nodes::all_nodes;
use std::alloc::{AllocError, Global};
pub use trigonometry::trig;
use vec_exact::{Faces, Nodes, RawMesh};

#[tactic(auto, unfolding(crate::specs::LatitudeLongitude::latitude_longitude), using(crate::proofs::Counts::count_nodes, crate::proofs::Counts::count_faces))]
fn raw_mesh(alloc: Global, lon: u32, lat: u32) -> Result<RawMesh, AllocError>
    requires lon_least { 3 ≤ lon }
    requires lon_greatest { lon ≤ 720 }
    requires lat_least { 2 ≤ lat }
    requires lat_greatest { lat ≤ 360 }
    ensures mesh { IfOk result (λ raw. raw ≡ latitude_longitude lon lat) }
    ensures some_face { IfOk result (λ raw. 1 ≤ length raw.faces) }
    ensures counts { IfOk result (λ raw. AreAllowedCounts (length raw.nodes) (length raw.faces)) }
{
    Ok(RawMesh {
        nodes: Nodes {
            items: all_nodes(alloc, lon, lat)?,
        },
        faces: Faces {
            items: all_faces(alloc, lon, lat)?,
        },
    })
}

/// The latitude-longitude mesh of `lon` meridians, from 3 to 720, and `lat` bands, from 2 to 360,
/// on a sphere of radius 2^17. It has (lat - 1) lon + 2 nodes and lat lon faces, from south to
/// north: triangles at the poles, else quadrangles. All edges are arcs of great circles; node
/// numbers count from 1.
///
/// `Mesh(f)` comes exactly where `f` is the first fault of that mesh, and is never
/// `Mesh(MeshFault::NoMemory)`. `NoMemory` may come in place of any answer.
#[tactic(auto, unfolding(crate::specs::LatitudeLongitude::latitude_longitude), using(crate::proofs::Counts::count_nodes, crate::proofs::Counts::count_faces))]
pub fn make(alloc: Global, lon: u32, lat: u32) -> Result<Mesh, GenFault>
    requires lon_least { 3 ≤ lon }
    requires lon_greatest { lon ≤ 720 }
    requires lat_least { 2 ≤ lat }
    requires lat_greatest { lat ≤ 360 }
    ensures mesh { IfOk result (λ mesh. mesh ≡ latitude_longitude lon lat) }
    ensures nodes { IfOk result (λ mesh. length mesh.nodes ≡ (lat - 1) * lon + 2) }
    ensures faces { IfOk result (λ mesh. length mesh.faces ≡ lat * lon) }
    ensures accepted { OnOk result (IsAcceptedMesh (latitude_longitude lon lat)) }
    ensures fault { (fault : MeshFault) → result ≡ Err (FaultOfMesh fault)
        → IsFirstMeshFault (latitude_longitude lon lat) fault }
    ensures outer { result ≡ Err (FaultOfMesh MeshNoMemory) → ⊥ }
    ensures refused { (fault : MeshFault) → IsFirstMeshFault (latitude_longitude lon lat) fault
        → (result ≡ Err (FaultOfMesh fault)) ⊎ (result ≡ Err NoMemory) }
{
    let raw = raw_mesh(alloc, lon, lat)?;
    check_generated(alloc, raw)
}
