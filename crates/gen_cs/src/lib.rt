//! The cubed sphere.
#![tactic(auto)]

mod faces;
mod nodes;
mod numbers;

ghost use Rattle.std.specs.Prelude.{◌≡◌, ◌≤◌, ◌+◌, ◌*◌, All, IfOk, length};
ghost use Rattle.vec_exact.specs.Face.{vector_of, IsAcceptedNode, IsAccepted};
ghost use Rattle.gen_cs.specs.CubedSphere.{cubed_sphere};

use faces::all_faces;
use nodes::all_nodes;
use std::alloc::Global;
use vec_exact::{Faces, NoMemory, Nodes, RawMesh};

/// The cubed sphere of resolution `n`, from 1 to 400: each of the six faces of the cube is divided
/// into `n` by `n` squares of equal size (the equidistant gnomonic projection). It has
/// 6 n² + 2 nodes and 6 n² faces of four nodes each; node numbers count from 1.
///
/// Every face is accepted: its four nodes are in strictly convex position, seen from outside in
/// counterclockwise order. Every node is accepted too, also one of no face: it is not the zero triple,
/// and its components are small. Its only error is want of memory.
#[tactic(auto, unfolding(crate::specs::CubedSphere::cubed_sphere), using(crate::proofs::Rows::count_nodes, crate::proofs::Counts::count_faces, crate::proofs::Counts::all_squares))]
pub fn make(alloc: Global, n: u32) -> Result<RawMesh, NoMemory>
    requires least { 1 ≤ n }
    requires greatest { n ≤ 400 }
    ensures mesh { IfOk result (λ raw. raw ≡ cubed_sphere n) }
    ensures accepted { IfOk result (λ raw. All (IsAccepted raw.nodes) raw.faces) }
    ensures accepted_nodes { IfOk result (λ raw.
        All (λ node. IsAcceptedNode (vector_of node)) raw.nodes) }
    ensures nodes { IfOk result (λ raw. length raw.nodes ≡ 6 * (n * n) + 2) }
    ensures faces { IfOk result (λ raw. length raw.faces ≡ 6 * (n * n)) }
    ensures squares { IfOk result (λ raw. All (λ face. length face ≡ 4) raw.faces) }
{
    let Ok(nodes) = all_nodes(alloc, n) else {
        return Err(NoMemory);
    };
    let Ok(faces) = all_faces(alloc, n) else {
        return Err(NoMemory);
    };
    Ok(RawMesh {
        nodes: Nodes { items: nodes },
        faces: Faces { items: faces },
    })
}
