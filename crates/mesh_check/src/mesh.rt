// Accepted meshes.
ghost use Rattle.std.specs.Prelude.{◌≡◌, ◌≢◌, ◌≤◌, ◌-◌, ◌⊎◌, length, IfErr, IfOk, OnOk, Err};
ghost use Rattle.vec_exact.specs.Vector.{zero_triple};
ghost use Rattle.vec_exact.specs.Size.{Is37};
ghost use Rattle.vec_exact.specs.Cycle.{face_plane, vector_at};
ghost use Rattle.vec_exact.specs.Counts.{AreAllowedCounts};
ghost use Rattle.vec_exact.specs.Face.{vector_of, IsAcceptedNode, IsAccepted};
ghost use Rattle.mesh_check.specs.declared.faults.MeshFault.TheVariants.{NoMemory as MeshNoMemory};
ghost use Rattle.mesh_check.specs.declared.faults.MeshFault.{MeshFault as FirstFault};
ghost use Rattle.mesh_check.specs.Kept.{face_lists};
ghost use Rattle.mesh_check.specs.Mesh.{IsAcceptedMesh, face_of, corners_of, node_at};
ghost use Rattle.mesh_check.specs.FirstFault.{IsFirstMeshFault};

use crate::MeshFault;
use crate::faces::check_faces;
use crate::nodes::check_nodes;
use smallvec::SmallVec;
use std::alloc::{AllocError, Global};
use std::marker::Model;
use vec_exact::{Faces, Ints, NoMemory, Nodes, RawMesh, Vec3, cross, next_place, vector};

/// A mesh whose faces are all accepted: each has 3 to 16 nodes and is strictly convex.
///
/// It has at least one face, its counts pass `check_counts`, and each of its nodes, also one of no
/// face, is not the zero triple and has components of at most 262,143 in size.
#[derive(Drop)]
pub struct Mesh {
    nodes: Vec<[i32; 3]>,
    faces: Vec<SmallVec<i32, 4>>,
}

impl Model for Mesh {
    ghost use Rattle.vec_exact.specs.declared.RawMesh.{RawMesh};
    ghost use Rattle.mesh_check.specs.Mesh.{IsAcceptedMesh};
    ghost use Rattle.mesh_check.specs.Kept.{face_lists};

    ghost Value = { RawMesh };

    ghost view = { λ m. record { nodes = m.nodes.items; faces = face_lists m.faces.items } };

    ghost invariant = { λ m. IsAcceptedMesh
        (record { nodes = m.nodes.items; faces = face_lists m.faces.items }) };
}

/// How many faces the mesh has: at least one.
pub fn face_count(mesh: &Mesh) -> u32
    ensures count { result ≡ length mesh.now.faces }
    ensures accepted { IsAcceptedMesh mesh.now }
{
    mesh.faces.len() as u32
}

/// How many nodes the mesh has.
pub fn node_count(mesh: &Mesh) -> u32
    ensures count { result ≡ length mesh.now.nodes }
{
    mesh.nodes.len() as u32
}

/// How many edges the face with this number has, which is how many nodes it has: 3 to 16.
pub fn edge_count(mesh: &Mesh, face: u32) -> u32
    requires face { (1 ≤ face) × (face ≤ length mesh.now.faces) }
    ensures count { result ≡ length (face_of mesh.now face) }
    ensures least { 3 ≤ result }
    ensures greatest { result ≤ 16 }
    ensures accepted { IsAccepted mesh.now.nodes (face_of mesh.now face) }
{
    let numbers = &mesh.faces[face as usize - 1];
    numbers.len() as u32
}

/// The triple of node `t` of the face with this number; both count from 1.
pub fn node(mesh: &Mesh, face: u32, t: u32) -> [i32; 3]
    requires face { (1 ≤ face) × (face ≤ length mesh.now.faces) }
    requires place { (1 ≤ t) × (t ≤ length (face_of mesh.now face)) }
    ensures triple { result ≡ node_at mesh.now face t }
    ensures corner { vector_of result ≡ vector_at (corners_of mesh.now face) (t - 1) }
    ensures accepted { IsAcceptedNode (vector_of result) }
{
    let numbers = &mesh.faces[face as usize - 1];
    let number = numbers.as_slice()[t as usize - 1];
    mesh.nodes[number as usize - 1]
}

/// The plane of the edge with this number in the face with this number: the cross product of the
/// face's node of this number and its next one, cyclically. Both numbers count from 1.
///
/// Its components are below 2^37 in size, and it is not the zero triple.
pub fn plane(mesh: &Mesh, face: u32, edge: u32) -> Vec3
    requires face { (1 ≤ face) × (face ≤ length mesh.now.faces) }
    requires edge { (1 ≤ edge) × (edge ≤ length (face_of mesh.now face)) }
    ensures plane { result ≡ face_plane (corners_of mesh.now face) (edge - 1) }
    ensures size { Is37 result }
    ensures nonzero { result ≢ zero_triple }
{
    let following = next_place(edge_count(mesh, face) as usize, edge as usize - 1) as u32 + 1;
    cross(
        vector(node(mesh, face, edge)),
        vector(node(mesh, face, following)),
    )
}

/// The raw mesh of the same nodes and faces. Its only error is want of memory.
pub fn raw(alloc: Global, mesh: &Mesh) -> Result<RawMesh, NoMemory>
    ensures { IfOk result (λ raw. raw ≡ mesh.now) }
{
    let nodes = Vec::from_slice(alloc, &mesh.nodes)?;
    let mut faces = Vec::with_capacity(alloc, mesh.faces.len())?;
    for face in &mesh.faces {
        let items = Vec::from_slice(alloc, face.as_slice())?;
        faces.push(Ints { items })?;
    }
    Ok(RawMesh {
        nodes: Nodes { items: nodes },
        faces: Faces { items: faces },
    })
}

// The faces with their node numbers in place, where there are at most four.
fn keep_faces(alloc: Global, faces: &[Ints]) -> Result<Vec<SmallVec<i32, 4>>, AllocError>
    ensures { IfOk result (λ kept. face_lists kept.items ≡ faces.now) }
{
    let mut kept = Vec::with_capacity(alloc, faces.len())?;
    for face in faces {
        let numbers: SmallVec<i32, 4> = SmallVec::from_slice(alloc, &face.items)?;
        kept.push(numbers).map_err(AllocError::from)?;
    }
    Ok(kept)
}

/// The mesh of the same nodes and faces as `raw`, which has at least one face and counts that pass
/// `check_counts`.
///
/// A fault is the first one: at the nodes in their order, a component out of range before the zero
/// triple; then at the faces in their order, a node number out of range, then a number of nodes
/// other than 3 to 16, then a face that is not strictly convex. `NoMemory` may come in place of any
/// answer; `TooManyNodes` and `TooManyFaces` never come. At a fault `raw` is dropped.
pub fn check(alloc: Global, raw: RawMesh) -> Result<Mesh, MeshFault>
    requires some_face { 1 ≤ length raw.faces }
    requires counts { AreAllowedCounts (length raw.nodes) (length raw.faces) }
    ensures same { IfOk result (λ mesh. mesh ≡ raw) }
    ensures accepted { OnOk result (IsAcceptedMesh raw) }
    ensures fault { IfErr result (λ fault. fault ≢ MeshNoMemory → IsFirstMeshFault raw fault) }
    // and where the raw mesh has a fault, no mesh comes, and no other fault
    ensures refused { (fault : FirstFault) → IsFirstMeshFault raw fault
        → (result ≡ Err fault) ⊎ (result ≡ Err MeshNoMemory) }
{
    check_nodes(&raw.nodes.items)?;
    check_faces(&raw.nodes.items, &raw.faces.items)?;
    let faces = keep_faces(alloc, &raw.faces.items)?;
    Ok(Mesh {
        nodes: raw.nodes.items,
        faces,
    })
}
