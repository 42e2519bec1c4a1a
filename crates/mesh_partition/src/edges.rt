// The directed edges of the faces, counted by sorting.
ghost use Rattle.std.specs.Prelude.{◌≡◌, ◌≤◌, ◌<◌, ◌+◌, ◌*◌, ◌++◌, length, count_by, IfOk, OnOk, ℕ};
ghost use Rattle.std.specs.List.Sorted.{IsStrictlySortedBy};
ghost use Rattle.std.specs.Ordering.{int_cmp};
ghost use Rattle.std.specs.Cmp.Lexicographic.{slice_cmp};
ghost use Rattle.mesh_check.specs.Mesh.{face_of};
ghost use Rattle.mesh_partition.specs.Edges.{edge_between, reverse_edge, edge_at, edges_of_face, edges_of, IsEdge, IsUnpaired, IsEdgeCount};
ghost use Rattle.mesh_partition.specs.SortedEdges.{is_among, is_alone_among};

use mesh_check::{Mesh, edge_count, face_count, node};
use std::alloc::Global;
use vec_exact::{NoMemory, next_place};

fn edge_between(from: [i32; 3], to: [i32; 3]) -> [i32; 6]
    ensures { result ≡ edge_between from to }
{
    [from[0], from[1], from[2], to[0], to[1], to[2]]
}

fn reversed(edge: [i32; 6]) -> [i32; 6]
    ensures { result ≡ reverse_edge edge }
{
    [edge[3], edge[4], edge[5], edge[0], edge[1], edge[2]]
}

// The edge at place t of a face, from 0.
fn edge(mesh: &Mesh, face: u32, t: u32) -> [i32; 6]
    requires face { (1 ≤ face) × (face ≤ length mesh.now.faces) }
    requires place { t < length (face_of mesh.now face) }
    ensures { result ≡ edge_at mesh.now face t }
{
    let next = next_place(edge_count(mesh, face) as usize, t as usize) as u32;
    edge_between(node(mesh, face, t + 1), node(mesh, face, next + 1))
}

// Puts the edges of a face at the end.
fn push_edges(edges: &mut Vec<[i32; 6]>, mesh: &Mesh, face: u32) -> Result<(), NoMemory>
    requires face { (1 ≤ face) × (face ≤ length mesh.now.faces) }
    ensures edges { OnOk result (edges.new.items ≡ edges.old.items ++ edges_of_face mesh.now face) }
    ensures few { OnOk result (length edges.new.items ≤ length edges.old.items + 16) }
{
    for t in 0..edge_count(mesh, face) {
        edges.push(edge(mesh, face, t))?;
    }
    Ok(())
}

// All directed edges, each as often as there are faces that have it.
fn all_edges(alloc: Global, mesh: &Mesh) -> Result<Vec<[i32; 6]>, NoMemory>
    ensures edges { IfOk result (λ edges. edges.items ≡ edges_of mesh.now) }
    ensures few { IfOk result (λ edges. length edges.items ≤ 16777216) }
{
    let faces = face_count(mesh);
    let mut edges = Vec::with_capacity(alloc, 4 * faces as usize)?;
    for i in 0..faces {
        push_edges(&mut edges, mesh, i + 1)?;
    }
    Ok(edges)
}

// Whether an edge is among edges that ascend strictly.
fn has_edge(edges: &[[i32; 6]], edge: [i32; 6]) -> bool
    requires { IsStrictlySortedBy (slice_cmp int_cmp) edges.now }
    ensures { result ≡ is_among edges.now edge }
{
    edges.binary_search(&edge).is_ok()
}

// How many of the edges have no reverse among them.
fn alone_count(edges: &[[i32; 6]]) -> usize
    requires { IsStrictlySortedBy (slice_cmp int_cmp) edges.now }
    ensures { result ≡ count_by (is_alone_among edges.now) edges.now }
{
    edges
        .iter()
        .filter(|edge| !has_edge(edges, reversed(**edge)))
        .count()
}

// What is counted of the directed edges of a mesh.
#[derive(Clone, Copy, Debug, PartialEq, Eq)]
pub struct EdgeCounts {
    pub unpaired: u32,
    pub doubled: u32,
}

// The counts of the directed edges: how many different ones have no reverse, and how many more there
// are than different ones.
pub fn edge_counts(alloc: Global, mesh: &Mesh) -> Result<EdgeCounts, NoMemory>
    ensures unpaired { IfOk result (λ counts. IsEdgeCount (IsUnpaired mesh.now) counts.unpaired) }
    ensures doubled { IfOk result (λ counts. (different : ℕ)
        × IsEdgeCount (IsEdge mesh.now) different
        × (length (edges_of mesh.now) ≡ different + counts.doubled)) }
{
    let mut edges = all_edges(alloc, mesh)?;
    let all = edges.len();
    edges.sort_unstable();
    edges.dedup();
    Ok(EdgeCounts {
        unpaired: alone_count(&edges) as u32,
        doubled: (all - edges.len()) as u32,
    })
}
