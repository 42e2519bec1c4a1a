// The dual of a mesh of triangles.
ghost use Rattle.std.specs.Prelude.{◌≡◌, ◌≤◌, ◌<◌, ◌+◌, pos, ◌+ℤ◌, All, IfOk, length, map, unsigned_abs};
ghost use Rattle.std.specs.List.{range_with_len};
ghost use Rattle.vec_exact.specs.Rounding.{rounded};
ghost use Rattle.gen_ico.specs.Dual.{dual_face, dual_node, dual_of, face_component, half_sum};
ghost use Rattle.gen_ico.specs.Holding.{IsSmallNode, IsTriangle};

use crate::holders::{all_holders, held_by, numbers};
use crate::points::quotient;
use crate::round::dual_face;
use std::alloc::{AllocError, Global};
use vec_exact::{Faces, Ints, Nodes, RawMesh};

// Component `k` of node `s` of a face, both from 0.
fn component(nodes: &[[i32; 3]], face: &[i32], s: usize, k: usize) -> i32
    requires triangle { IsTriangle (length nodes.now) face.now }
    requires small { All IsSmallNode nodes.now }
    requires place { s < 3 }
    requires component { k < 3 }
    ensures value { result ≡ face_component nodes.now face.now s k }
    ensures size { unsigned_abs result ≤ 131072 }
{
    let number = face[s] as usize;
    nodes[number - 1][k]
}

fn sum(x: i32, y: i32, z: i32) -> i32
    requires x_size { unsigned_abs x ≤ 131072 }
    requires y_size { unsigned_abs y ≤ 131072 }
    requires z_size { unsigned_abs z ≤ 131072 }
    ensures value { result ≡ x +ℤ y +ℤ z }
    ensures size { unsigned_abs result ≤ 393216 }
{
    x + y + z
}

// Half the sum of three coordinates.
fn half_sum(x: i32, y: i32, z: i32) -> i32
    requires x_size { unsigned_abs x ≤ 131072 }
    requires y_size { unsigned_abs y ≤ 131072 }
    requires z_size { unsigned_abs z ≤ 131072 }
    ensures { result ≡ rounded (x +ℤ y +ℤ z) 2 }
{
    quotient(sum(x, y, z), 2)
}

fn half_component(nodes: &[[i32; 3]], face: &[i32], k: usize) -> i32
    requires triangle { IsTriangle (length nodes.now) face.now }
    requires small { All IsSmallNode nodes.now }
    requires component { k < 3 }
    ensures { result ≡ half_sum nodes.now face.now k }
{
    let x = component(nodes, face, 0, k);
    let y = component(nodes, face, 1, k);
    let z = component(nodes, face, 2, k);
    half_sum(x, y, z)
}

#[tactic(auto, unfolding(crate::specs::Dual::dual_node))]
fn dual_node(nodes: &[[i32; 3]], face: &[i32]) -> [i32; 3]
    requires triangle { IsTriangle (length nodes.now) face.now }
    requires small { All IsSmallNode nodes.now }
    ensures { result ≡ dual_node nodes.now face.now }
{
    [
        half_component(nodes, face, 0),
        half_component(nodes, face, 1),
        half_component(nodes, face, 2),
    ]
}

fn dual_nodes(
    alloc: Global,
    nodes: &[[i32; 3]],
    faces: &[Ints],
) -> Result<Vec<[i32; 3]>, AllocError>
    requires triangles { All (IsTriangle (length nodes.now)) faces.now }
    requires small { All IsSmallNode nodes.now }
    ensures { IfOk result (λ out. out.items ≡ map (dual_node nodes.now) faces.now) }
{
    let mut out = Vec::with_capacity(alloc, faces.len())?;
    for t in 0..faces.len() {
        out.push(dual_node(nodes, numbers(faces, t)))?;
    }
    Ok(out)
}

// A face for each of `count` nodes.
fn dual_faces(alloc: Global, count: usize, faces: &[Ints]) -> Result<Vec<Ints>, AllocError>
    requires triangles { All (IsTriangle count) faces.now }
    requires nodes { count ≤ 1048576 }
    requires faces { length faces.now ≤ 1048576 }
    ensures { IfOk result (λ out.
        out.items ≡ map (λ k. dual_face faces.now (pos (k + 1))) (range_with_len 0 count)) }
{
    let holders = all_holders(alloc, count, faces)?;
    let mut out = Vec::with_capacity(alloc, count)?;
    for q in 0..count {
        let items = dual_face(alloc, faces, held_by(&holders, q), q as i32 + 1)?;
        out.push(Ints { items })?;
    }
    Ok(out)
}

#[tactic(auto, unfolding(crate::specs::Dual::dual_of))]
pub fn dual(alloc: Global, raw: &RawMesh) -> Result<RawMesh, AllocError>
    requires triangles { All (IsTriangle (length raw.now.nodes)) raw.now.faces }
    requires small { All IsSmallNode raw.now.nodes }
    requires nodes { length raw.now.nodes ≤ 1048576 }
    requires faces { length raw.now.faces ≤ 1048576 }
    ensures { IfOk result (λ dual. dual ≡ dual_of raw.now) }
{
    let nodes = &raw.nodes;
    let faces = &raw.faces;
    Ok(RawMesh {
        nodes: Nodes {
            items: dual_nodes(alloc, &nodes.items, &faces.items)?,
        },
        faces: Faces {
            items: dual_faces(alloc, nodes.items.len(), &faces.items)?,
        },
    })
}
