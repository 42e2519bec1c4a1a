// Meshes of one face, and the smallest cubed sphere.
ghost use Rattle.std.specs.Prelude.{◌≡◌, IfOk, length};

use mesh_check::{Mesh, check};
use std::alloc::{AllocError, Global};
use std::process::Abort;
use vec_exact::{Faces, Ints, Nodes, RawMesh};

pub(crate) const OCTANT: [[i32; 3]; 3] = [[1, 0, 0], [0, 1, 0], [0, 0, 1]];

fn one_face(alloc: Global, nodes: &[[i32; 3]; 3]) -> Result<RawMesh, AllocError>
    ensures nodes { IfOk result (λ raw. length raw.nodes ≡ 3) }
    ensures faces { IfOk result (λ raw. length raw.faces ≡ 1) }
{
    let items = Vec::from_slice(alloc, &[1, 2, 3])?;
    let mut faces = Vec::with_capacity(alloc, 1)?;
    faces.push(Ints { items }).map_err(AllocError::from)?;
    Ok(RawMesh {
        nodes: Nodes {
            items: Vec::from_slice(alloc, nodes)?,
        },
        faces: Faces { items: faces },
    })
}

/// The mesh of one face with these nodes.
pub(crate) fn face_mesh(rt: &impl Abort, alloc: Global, nodes: &[[i32; 3]; 3]) -> Mesh {
    let Ok(raw) = one_face(alloc, nodes) else {
        panic!(rt; "no memory");
    };
    let Ok(mesh) = check(alloc, raw) else {
        panic!(rt; "a fault");
    };
    mesh
}

/// The cubed sphere of resolution 1, which has six faces.
pub(crate) fn cube(rt: &impl Abort, alloc: Global) -> Mesh {
    let Ok(raw) = gen_cs::make(alloc, 1) else {
        panic!(rt; "no memory");
    };
    let Ok(mesh) = check(alloc, raw) else {
        panic!(rt; "a fault");
    };
    mesh
}
