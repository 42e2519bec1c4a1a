// The corners of a ring: nodes, where neighbouring edges of one face meet, and cross products.
ghost use Rattle.std.specs.Prelude.{◌≡◌, ◌+◌, ◌-◌, ◌<◌, ◌≤◌, length};
ghost use Rattle.vec_exact.specs.Vector.{cross};
ghost use Rattle.vec_exact.specs.Size.{Is18, Is37};
ghost use Rattle.vec_exact.specs.Face.{vector_of};
ghost use Rattle.vec_exact.specs.Cycle.{corner as corner_of, face_plane};
ghost use Rattle.cone_laws.specs.Ring.{plane, planes_of_pair, listed};
ghost use Rattle.clip.specs.Narrow.{wide};
ghost use Rattle.clip.specs.Outlines.{nodes_of, IsOutline, AreNumbersOf};
ghost use Rattle.clip.specs.Forms.{IsFormOf};

use crate::lists::Ring;
use crate::narrow::{NarrowVec3, widened};
use crate::outlines::{Outline, count_of, node_of, plane_of};
use vec_exact::{Vec3, cross, next_place};

/// A corner of a ring.
#[derive(Clone, Copy)]
pub enum CornerForm {
    /// A positive multiple of this node.
    Node([i32; 3]),
    /// This triple.
    Meeting(Vec3),
}

// The numbers of a node.
fn numbers_in(node: NarrowVec3) -> [i32; 3]
    requires { Is18 (wide node) }
    ensures { vector_of result ≡ wide node }
{
    [node.x as i32, node.y as i32, node.z as i32]
}

// The corner where the edges t and s of a face meet.
fn form_in_face(face: &Outline, t: usize, s: usize) -> CornerForm
    requires face { IsOutline face.now }
    requires first { t < length (nodes_of face.now) }
    requires second { s < length (nodes_of face.now) }
    ensures { IsFormOf result
        (cross (face_plane (nodes_of face.now) t) (face_plane (nodes_of face.now) s)) }
{
    if next_place(count_of(face), t) == s {
        CornerForm::Node(numbers_in(node_of(face, s)))
    } else {
        let first = widened(plane_of(face, t));
        let second = widened(plane_of(face, s));
        CornerForm::Meeting(cross(first, second))
    }
}

// The plane with number i of two faces.
fn plane_number(f: &Outline, g: &Outline, i: u8) -> Vec3
    requires f { IsOutline f.now }
    requires g { IsOutline g.now }
    requires number { (1 ≤ i) × (i ≤ length (nodes_of f.now) + length (nodes_of g.now)) }
    ensures value { result ≡ plane (planes_of_pair (nodes_of f.now) (nodes_of g.now)) i }
    ensures size { Is37 result }
{
    let m = count_of(f);
    let place = i as usize - 1;
    if place < m {
        widened(plane_of(f, place))
    } else {
        widened(plane_of(g, place - m))
    }
}

// The corner where the planes i and j of two faces meet.
fn form_of(f: &Outline, g: &Outline, i: u8, j: u8) -> CornerForm
    requires f { IsOutline f.now }
    requires g { IsOutline g.now }
    requires first { (1 ≤ i) × (i ≤ length (nodes_of f.now) + length (nodes_of g.now)) }
    requires second { (1 ≤ j) × (j ≤ length (nodes_of f.now) + length (nodes_of g.now)) }
    ensures { let planes = planes_of_pair (nodes_of f.now) (nodes_of g.now) in
        IsFormOf result (cross (plane planes i) (plane planes j)) }
{
    let m = count_of(f);
    let first = i as usize;
    let second = j as usize;
    if first <= m && second <= m {
        form_in_face(f, first - 1, second - 1)
    } else if m < first && m < second {
        form_in_face(g, first - m - 1, second - m - 1)
    } else {
        CornerForm::Meeting(cross(plane_number(f, g, i), plane_number(f, g, j)))
    }
}

/// The corner at place t of a ring of two faces, from 0.
pub fn corner_form(f: &Outline, g: &Outline, ring: &Ring, t: usize) -> CornerForm
    requires f { IsOutline f.now }
    requires g { IsOutline g.now }
    requires numbers { AreNumbersOf f.now g.now ring.now.items }
    requires place { t < length ring.now.items }
    ensures { let planes = planes_of_pair (nodes_of f.now) (nodes_of g.now) in
        IsFormOf result (corner_of (length ring.now.items) (listed planes ring.now.items) t) }
{
    let numbers = ring.as_slice();
    let following = next_place(numbers.len(), t);
    form_of(f, g, numbers[t], numbers[following])
}
