// Meshes of one face.
ghost use Rattle.std.specs.Prelude.{◌≡◌, IfOk, length};

use mesh_check::{Mesh, check};
use std::alloc::{AllocError, Global};
use std::process::Abort;
use vec_exact::{Faces, Ints, Nodes, RawMesh};

pub(crate) const OCTANT: [[i32; 3]; 3] = [[1, 0, 0], [0, 1, 0], [0, 0, 1]];

/// Face 1 of the cubed sphere of resolution 1.
pub(crate) const SQUARE: [[i32; 3]; 4] = [[1, -1, -1], [1, 1, -1], [1, 1, 1], [1, -1, 1]];

/// The nodes of a face that has as many as a face may have.
pub(crate) const SIXTEEN: [[i32; 3]; 16] = [
    [0, 0, 262143],
    [1, 0, 262143],
    [3, 1, 262143],
    [4, 2, 262143],
    [5, 4, 262143],
    [5, 5, 262143],
    [4, 7, 262143],
    [3, 8, 262143],
    [1, 9, 262143],
    [0, 9, 262143],
    [-2, 8, 262143],
    [-3, 7, 262143],
    [-4, 5, 262143],
    [-4, 4, 262143],
    [-3, 2, 262143],
    [-2, 1, 262143],
];

pub(crate) const IN_ORDER: [i32; 16] = [1, 2, 3, 4, 5, 6, 7, 8, 9, 10, 11, 12, 13, 14, 15, 16];

/// Nodes and one face.
pub(crate) fn one_face(
    alloc: Global,
    nodes: &[[i32; 3]],
    face: &[i32],
) -> Result<RawMesh, AllocError>
    ensures nodes { IfOk result (λ raw. length raw.nodes ≡ length nodes.now) }
    ensures faces { IfOk result (λ raw. length raw.faces ≡ 1) }
{
    let items = Vec::from_slice(alloc, face)?;
    let mut faces = Vec::with_capacity(alloc, 1)?;
    faces.push(Ints { items }).map_err(AllocError::from)?;
    Ok(RawMesh {
        nodes: Nodes {
            items: Vec::from_slice(alloc, nodes)?,
        },
        faces: Faces { items: faces },
    })
}

/// The mesh of one face, of at most 16 nodes.
pub(crate) fn face_mesh(rt: &impl Abort, alloc: Global, nodes: &[[i32; 3]], face: &[i32]) -> Mesh
    ensures { length result.faces ≡ 1 }
{
    assert!(rt; nodes.len() <= 16);
    let Ok(raw) = one_face(alloc, nodes, face) else {
        panic!(rt; "no memory");
    };
    let Ok(mesh) = check(alloc, raw) else {
        panic!(rt; "a fault");
    };
    mesh
}
