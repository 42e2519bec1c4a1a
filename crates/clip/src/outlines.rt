// A face with the planes of its edges, in 64 bits, and what it says of another one.
ghost use Rattle.std.specs.Prelude.{◌≡◌, ℕ, ◌<◌, ◌≤◌, pos, ◌≤ℤ◌, [], length, slice_index_or, MatchOption, IsTrue, false};
ghost use Rattle.vec_exact.specs.Face.{IsAcceptedFace};
ghost use Rattle.vec_exact.specs.Size.{Is18, Is37};
ghost use Rattle.vec_exact.specs.Vector.{inner};
ghost use Rattle.vec_exact.specs.Cycle.{vector_at, face_plane};
ghost use Rattle.mesh_check.specs.Mesh.{corners_of};
ghost use Rattle.cone_laws.specs.Ring.{face_planes};
ghost use Rattle.clip.specs.Planes.{IsFaceNumber};
ghost use Rattle.clip.specs.Apart.{KeepsOff};
ghost use Rattle.clip.specs.Narrow.{wide, narrow_zero, AreNodeSized};
ghost use Rattle.clip.specs.Outlines.{wide_list, nodes_of, IsOutline, AreCuts};

use crate::narrow::{NarrowVec3, extent_on, narrow_cross, narrow_dot, narrow_of};
use arrayvec::ArrayVec;
use mesh_check::{Mesh, edge_count, node};
use vec_exact::next_place;

/// Up to 16 nodes, or planes.
pub type NarrowList = ArrayVec<NarrowVec3, 16>;

/// For each edge of a face, whether its plane has some node of another face on its negative side.
pub type Cuts = ArrayVec<bool, 16>;

/// A face: its nodes in order, and the planes of its edges in order.
#[derive(Drop)]
pub struct Outline {
    pub nodes: NarrowList,
    pub planes: NarrowList,
}

impl Outline {
    /// An outline of no face yet: without nodes and without planes.
    pub fn new() -> Self
        ensures nodes { nodes_of result ≡ [] }
        ensures planes { wide_list result.planes.items ≡ [] }
    {
        Outline {
            nodes: NarrowList::new(),
            planes: NarrowList::new(),
        }
    }
}

// The nodes of a face, in order.
fn read_nodes(mesh: &Mesh, face: u32, count: u32, nodes: &mut NarrowList)
    requires face { IsFaceNumber mesh.now face }
    requires count { count ≡ length (corners_of mesh.now face) }
    requires greatest { count ≤ 16 }
    ensures { wide_list nodes.new.items ≡ corners_of mesh.now face }
{
    nodes.clear();
    for t in 0..count {
        nodes.push(narrow_of(node(mesh, face, t + 1)));
    }
}

// The planes of the edges of a face, in order.
fn make_planes(nodes: &[NarrowVec3], planes: &mut NarrowList)
    requires greatest { length nodes.now ≤ 16 }
    requires nodes { AreNodeSized nodes.now }
    ensures { wide_list planes.new.items ≡ face_planes (wide_list nodes.now) }
{
    planes.clear();
    for t in 0..nodes.len() {
        let following = next_place(nodes.len(), t);
        planes.push(narrow_cross(nodes[t], nodes[following]));
    }
}

/// Reads the face with this number, which counts from 1, in place of what the outline held.
pub fn read_outline(mesh: &Mesh, face: u32, outline: &mut Outline)
    requires { IsFaceNumber mesh.now face }
    ensures nodes { nodes_of outline.new ≡ corners_of mesh.now face }
    ensures outline { IsOutline outline.new }
{
    read_nodes(mesh, face, edge_count(mesh, face), &mut outline.nodes);
    make_planes(outline.nodes.as_slice(), &mut outline.planes);
}

/// The face with this number, which counts from 1.
pub fn outline_of(mesh: &Mesh, face: u32) -> Outline
    requires { IsFaceNumber mesh.now face }
    ensures nodes { nodes_of result ≡ corners_of mesh.now face }
    ensures outline { IsOutline result }
{
    let mut outline = Outline::new();
    read_outline(mesh, face, &mut outline);
    outline
}

/// How many nodes the face has.
pub fn count_of(face: &Outline) -> usize
    requires { IsOutline face.now }
    ensures count { result ≡ length (nodes_of face.now) }
    ensures least { 3 ≤ result }
    ensures greatest { result ≤ 16 }
{
    face.nodes.len()
}

/// Node t of the face, from 0.
pub fn node_of(face: &Outline, t: usize) -> NarrowVec3
    requires face { IsOutline face.now }
    requires place { t < length (nodes_of face.now) }
    ensures value { wide result ≡ vector_at (nodes_of face.now) t }
    ensures size { Is18 (wide result) }
{
    face.nodes.as_slice()[t]
}

/// The plane of edge t of the face, from 0.
pub fn plane_of(face: &Outline, t: usize) -> NarrowVec3
    requires face { IsOutline face.now }
    requires place { t < length (nodes_of face.now) }
    ensures value { wide result ≡ face_plane (nodes_of face.now) t }
    ensures size { Is37 (wide result) }
{
    face.planes.as_slice()[t]
}

// Whether no node is on the positive side of the plane.
fn is_beyond(plane: NarrowVec3, nodes: &[NarrowVec3]) -> bool
    requires plane { Is37 (wide plane) }
    requires nodes { AreNodeSized nodes.now }
    ensures { IsTrue result → (s : ℕ) → s < length nodes.now
        → inner (wide plane) (wide (slice_index_or nodes.now s narrow_zero)) ≤ℤ pos 0 }
{
    for s in 0..nodes.len() {
        if narrow_dot(plane, nodes[s]) > 0 {
            return false;
        }
    }
    true
}

// Whether some edge of `f` has none of the nodes on its positive side.
fn planes_keep_off(f: &Outline, nodes: &[NarrowVec3]) -> bool
    requires f { IsOutline f.now }
    requires nodes { AreNodeSized nodes.now }
    ensures { IsTrue result → KeepsOff (nodes_of f.now) (wide_list nodes.now) }
{
    let planes = f.planes.as_slice();
    for t in 0..planes.len() {
        if is_beyond(planes[t], nodes) {
            return true;
        }
    }
    false
}

// Whether some edge of `f` has no node of `g` on its positive side.
pub fn outline_keeps_off(f: &Outline, g: &Outline) -> bool
    requires f { IsOutline f.now }
    requires g { IsOutline g.now }
    ensures { IsTrue result → KeepsOff (nodes_of f.now) (nodes_of g.now) }
{
    planes_keep_off(f, g.nodes.as_slice())
}

// Reads the face with this number, in place of what `g` held, unless some edge of `f` keeps it off:
// most faces near `f` are kept off, and need no planes.
pub fn read_unless_kept_off(f: &Outline, mesh: &Mesh, face: u32, g: &mut Outline) -> bool
    requires f { IsOutline f.now }
    requires face { IsFaceNumber mesh.now face }
    ensures off { result ≡ false → KeepsOff (nodes_of f.now) (corners_of mesh.now face) }
    ensures nodes { IsTrue result → nodes_of g.new ≡ corners_of mesh.now face }
    ensures outline { IsTrue result → IsOutline g.new }
    ensures accepted { IsAcceptedFace (corners_of mesh.now face) }
{
    read_nodes(mesh, face, edge_count(mesh, face), &mut g.nodes);
    let nodes = g.nodes.as_slice();
    if planes_keep_off(f, nodes) {
        return false;
    }
    make_planes(nodes, &mut g.planes);
    true
}

// The edges of `g` that have some node of `f` on their negative side, and None where some edge of
// `g` has none on its positive side.
pub fn cuts_of(f: &Outline, g: &Outline) -> Option<Cuts>
    requires f { IsOutline f.now }
    requires g { IsOutline g.now }
    ensures { MatchOption result (KeepsOff (nodes_of g.now) (nodes_of f.now))
        (λ cuts. AreCuts (nodes_of f.now) (nodes_of g.now) cuts.items) }
{
    let planes = g.planes.as_slice();
    let nodes = f.nodes.as_slice();
    let mut cuts = Cuts::new();
    for t in 0..planes.len() {
        let extent = extent_on(planes[t], nodes);
        if extent.greatest <= 0 {
            return None;
        }
        cuts.push(extent.least < 0);
    }
    Some(cuts)
}
