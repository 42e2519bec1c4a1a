//! The icosahedral mesh and its dual.
#![tactic(auto)]

mod dual;
mod faces;
mod holders;
mod icosahedron;
mod laws;
mod nodes;
mod points;
mod round;

ghost use Rattle.std.specs.Prelude.{◌≡◌, ◌≤◌, ◌⊎◌, ◌*◌, All, Err, IfOk, OnOk, length};
ghost use Rattle.vec_exact.specs.Counts.{AreAllowedCounts};
ghost use Rattle.vec_exact.specs.declared.RawMesh.{RawMesh};
ghost use Rattle.mesh_check.specs.Mesh.{IsAcceptedMesh};
ghost use Rattle.mesh_check.specs.FirstFault.{IsFirstMeshFault};
ghost use Rattle.mesh_check.specs.declared.faults.MeshFault.{MeshFault};
ghost use Rattle.mesh_check.specs.declared.faults.MeshFault.TheVariants.{NoMemory as MeshNoMemory};
ghost use Rattle.mesh_check.specs.declared.faults.GenFault.TheVariants.{Mesh as FaultOfMesh, NoMemory};
ghost use Rattle.gen_ico.specs.Icosahedral.{IsIcosahedral};
ghost use Rattle.gen_ico.specs.Holding.{IsSmallNode, IsTriangle};
ghost use Rattle.gen_ico.specs.Made.{IsMade};

use faces::all_faces;
pub use laws::law_one_made;
use mesh_check::{GenFault, Mesh, check_generated};
use nodes::all_nodes;
use std::alloc::{AllocError, Global};
use vec_exact::{Faces, Nodes, RawMesh};

// The icosahedral mesh as a raw mesh.
#[tactic(auto, using(crate::proofs::Counts::count_faces, vec_exact::proofs::Bounds::times_at_most))]
fn icosahedral(alloc: Global, n: u32) -> Result<RawMesh, AllocError>
    requires least { 1 ≤ n }
    requires greatest { n ≤ 200 }
    ensures mesh { IfOk result (λ raw. IsIcosahedral n raw) }
    ensures nodes { IfOk result (λ raw. length raw.nodes ≤ 1048576) }
    ensures faces { IfOk result (λ raw. length raw.faces ≤ 1048576) }
    ensures some_face { IfOk result (λ raw. 1 ≤ length raw.faces) }
{
    let nodes = all_nodes(alloc, n)?;
    let faces = all_faces(alloc, &nodes, n)?;
    Ok(RawMesh {
        nodes: Nodes { items: nodes },
        faces: Faces { items: faces },
    })
}

// The icosahedral mesh as a raw mesh, or its dual.
fn raw_mesh(alloc: Global, n: u32, dual: bool) -> Result<RawMesh, AllocError>
    requires least { 1 ≤ n }
    requires greatest { n ≤ 200 }
    ensures mesh { IfOk result (λ raw. IsMade n dual raw) }
    ensures some_face { IfOk result (λ raw. 1 ≤ length raw.faces) }
    ensures counts { IfOk result (λ raw. AreAllowedCounts (length raw.nodes) (length raw.faces)) }
{
    let base = icosahedral(alloc, n)?;
    if dual {
        dual::dual(alloc, &base)
    } else {
        Ok(base)
    }
}

/// The icosahedral mesh of resolution `n`, from 1 to 200, or with `dual` its dual. Node numbers
/// count from 1.
///
/// The icosahedral mesh has each triangle of an icosahedron divided into n² small triangles, in
/// all 20 n² faces. Its dual has a node for each of these faces, half the sum of the three nodes
/// of the face, and a face for each node of the icosahedral mesh, which goes round that node.
///
/// `Mesh(f)` comes exactly where `f` is the first fault of that mesh, and is never
/// `Mesh(MeshFault::NoMemory)`. `NoMemory` may come in place of any answer.
pub fn make(alloc: Global, n: u32, dual: bool) -> Result<Mesh, GenFault>
    requires least { 1 ≤ n }
    requires greatest { n ≤ 200 }
    ensures mesh { IfOk result (λ mesh. IsMade n dual mesh) }
    ensures accepted { IfOk result IsAcceptedMesh }
    ensures fault { (fault : MeshFault) → result ≡ Err (FaultOfMesh fault)
        → (raw : RawMesh) × IsMade n dual raw × IsFirstMeshFault raw fault }
    ensures outer { result ≡ Err (FaultOfMesh MeshNoMemory) → ⊥ }
    ensures refused { (raw : RawMesh) (fault : MeshFault) → IsMade n dual raw
        → IsFirstMeshFault raw fault
        → (result ≡ Err (FaultOfMesh fault)) ⊎ (result ≡ Err NoMemory) }
{
    let raw = raw_mesh(alloc, n, dual)?;
    check_generated(alloc, raw)
}
