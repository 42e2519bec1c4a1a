// The three rules of an accepted face.
ghost use Rattle.std.specs.Prelude.{false, ◌≡◌, ◌≢◌, ◌<◌, ◌≤◌, ◌↔◌, pos, ◌<ℤ◌, All, IfErr, IfOk, OnOk, IsTrue, length};
ghost use Rattle.vec_exact.specs.Vector.{inner};
ghost use Rattle.vec_exact.specs.Size.{Is18, Is37};
ghost use Rattle.vec_exact.specs.Cycle.{vector_at};
ghost use Rattle.vec_exact.specs.Counts.{AreAllowedCounts};
ghost use Rattle.vec_exact.specs.Face.{node_of, face_nodes, IsNodeNumber, IsAccepted};
ghost use Rattle.mesh_check.specs.Mesh.{IsGoodNode};
ghost use Rattle.mesh_check.specs.FirstFault.{HasFaceSize, IsPositiveEdge, IsStrictlyConvex, IsFaceFault, IsFirstFaceFault};

use crate::MeshFault;
use vec_exact::{Ints, Vec3, cross, dot, next_place, vector};

fn has_node_numbers(nodes: &[[i32; 3]], face: &[i32]) -> bool
    requires { length nodes.now ≤ 4194304 }
    ensures { IsTrue result ↔ All (IsNodeNumber nodes.now) face.now }
{
    let count = nodes.len() as i32;
    face.iter().all(|number| 1 <= *number && *number <= count)
}

// Node t of a face, from 0.
fn corner(nodes: &[[i32; 3]], face: &[i32], t: usize) -> Vec3
    requires good { All IsGoodNode nodes.now }
    requires numbers { All (IsNodeNumber nodes.now) face.now }
    requires place { t < length face.now }
    ensures value { result ≡ vector_at (face_nodes nodes.now face.now) t }
    ensures size { Is18 result }
{
    vector(nodes[face[t] as usize - 1])
}

fn is_positive(plane: Vec3, node: Vec3) -> bool
    requires plane { Is37 plane }
    requires node { Is18 node }
    ensures { IsTrue result ↔ (pos 0 <ℤ inner plane node) }
{
    0 < dot(plane, node)
}

fn is_positive_edge(nodes: &[[i32; 3]], face: &[i32], t: usize) -> bool
    requires good { All IsGoodNode nodes.now }
    requires numbers { All (IsNodeNumber nodes.now) face.now }
    requires place { t < length face.now }
    ensures yes { IsTrue result → IsPositiveEdge (face_nodes nodes.now face.now) t }
    ensures no { result ≡ false → IsPositiveEdge (face_nodes nodes.now face.now) t → ⊥ }
{
    let next = next_place(face.len(), t);
    let plane = cross(corner(nodes, face, t), corner(nodes, face, next));
    for s in 0..face.len() {
        if s != t && s != next && !is_positive(plane, corner(nodes, face, s)) {
            return false;
        }
    }
    true
}

fn is_strictly_convex(nodes: &[[i32; 3]], face: &[i32]) -> bool
    requires good { All IsGoodNode nodes.now }
    requires numbers { All (IsNodeNumber nodes.now) face.now }
    ensures yes { IsTrue result → IsStrictlyConvex (face_nodes nodes.now face.now) }
    ensures no { result ≡ false → IsStrictlyConvex (face_nodes nodes.now face.now) → ⊥ }
{
    for t in 0..face.len() {
        if !is_positive_edge(nodes, face, t) {
            return false;
        }
    }
    true
}

pub fn check_face(nodes: &[[i32; 3]], number: u32, face: &[i32]) -> Result<(), MeshFault>
    requires count { length nodes.now ≤ 4194304 }
    requires good { All IsGoodNode nodes.now }
    ensures accepted { OnOk result (IsAccepted nodes.now face.now) }
    ensures fault { IfErr result (λ fault. IsFaceFault nodes.now number face.now fault) }
{
    if !has_node_numbers(nodes, face) {
        return Err(MeshFault::NodeNumber(number));
    }
    if face.len() < 3 || 16 < face.len() {
        return Err(MeshFault::FaceSize(number));
    }
    if !is_strictly_convex(nodes, face) {
        return Err(MeshFault::NotConvex(number));
    }
    Ok(())
}

pub fn check_faces(nodes: &[[i32; 3]], faces: &[Ints]) -> Result<(), MeshFault>
    requires counts { AreAllowedCounts (length nodes.now) (length faces.now) }
    requires good { All IsGoodNode nodes.now }
    ensures accepted { OnOk result (All (IsAccepted nodes.now) faces.now) }
    ensures fault { IfErr result (λ fault. IsFirstFaceFault nodes.now faces.now fault) }
{
    for (i, face) in faces.iter().enumerate() {
        check_face(nodes, i as u32 + 1, &face.items)?;
    }
    Ok(())
}
