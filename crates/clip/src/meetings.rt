// The sides of the corners of a ring, from the nodes of two faces.
ghost use Rattle.std.specs.Prelude.{◌≡◌, ◌+◌, ◌<◌, ◌≤◌, ◌^◌, ◌*ℤ◌, length, unsigned_abs};
ghost use Rattle.vec_exact.specs.Vector.{inner, cross};
ghost use Rattle.vec_exact.specs.Size.{Is37};
ghost use Rattle.vec_exact.specs.Side.{sign_of};
ghost use Rattle.vec_exact.specs.Cycle.{face_plane};
ghost use Rattle.cone_laws.specs.Ring.{plane, planes_of_pair};
ghost use Rattle.clip.specs.Narrow.{wide};
ghost use Rattle.clip.specs.Usable.{HaveSigns};
ghost use Rattle.clip.specs.Outlines.{nodes_of, IsOutline, AreNumbersOf};

use crate::lists::Ring;
use crate::narrow::{NarrowVec3, narrow_dot, widened};
use crate::outlines::{Outline, count_of, node_of, plane_of};
use crate::sides::{Sides, sign_number};
use vec_exact::{cross, dot, next_place};

// A number with the sign of the inner product of `w` and the corner where the edges t and s of a
// face meet. Neighbouring edges meet in a node.
fn meeting_in_face(face: &Outline, t: usize, s: usize, w: NarrowVec3) -> i128
    requires face { IsOutline face.now }
    requires first { t < length (nodes_of face.now) }
    requires second { s < length (nodes_of face.now) }
    requires plane { Is37 (wide w) }
    ensures { sign_of result ≡ sign_of (inner (wide w) (cross (face_plane (nodes_of face.now) t)
        (face_plane (nodes_of face.now) s))) }
{
    if next_place(count_of(face), t) == s {
        i128::from(narrow_dot(w, node_of(face, s)))
    } else {
        let first = widened(plane_of(face, t));
        let second = widened(plane_of(face, s));
        dot(widened(w), cross(first, second))
    }
}

// The product of two sides.
fn sides_product(a: i64, b: i64) -> i128
    requires a_size { unsigned_abs a < 2 ^ 57 }
    requires b_size { unsigned_abs b < 2 ^ 57 }
    ensures value { result ≡ a *ℤ b }
    ensures size { unsigned_abs result < 2 ^ 114 }
{
    i128::from(a) * i128::from(b)
}

// The inner product of `w` and the corner where edge t of a face meets the plane `q`.
fn meeting_of_faces(face: &Outline, t: usize, q: NarrowVec3, w: NarrowVec3) -> i128
    requires face { IsOutline face.now }
    requires place { t < length (nodes_of face.now) }
    requires q_size { Is37 (wide q) }
    requires w_size { Is37 (wide w) }
    ensures value { result ≡ inner (wide w) (cross (face_plane (nodes_of face.now) t) (wide q)) }
    ensures size { unsigned_abs result < 2 ^ 115 }
{
    let a = node_of(face, t);
    let b = node_of(face, next_place(count_of(face), t));
    sides_product(narrow_dot(q, a), narrow_dot(w, b))
        - sides_product(narrow_dot(q, b), narrow_dot(w, a))
}

// A number with the sign of the inner product of `w` and the corner where the planes i and j of two
// faces meet, first the edges of `f`, then those of `g`.
fn meeting(f: &Outline, g: &Outline, i: u8, j: u8, w: NarrowVec3) -> i128
    requires f { IsOutline f.now }
    requires g { IsOutline g.now }
    requires first { (1 ≤ i) × (i ≤ length (nodes_of f.now) + length (nodes_of g.now)) }
    requires second { (1 ≤ j) × (j ≤ length (nodes_of f.now) + length (nodes_of g.now)) }
    requires plane { Is37 (wide w) }
    ensures { let ps = planes_of_pair (nodes_of f.now) (nodes_of g.now) in sign_of result
        ≡ sign_of (inner (wide w) (cross (plane ps i) (plane ps j))) }
{
    let m = count_of(f);
    let first = i as usize;
    let second = j as usize;
    if first <= m {
        if second <= m {
            meeting_in_face(f, first - 1, second - 1, w)
        } else {
            let q = plane_of(g, second - m - 1);
            meeting_of_faces(f, first - 1, q, w)
        }
    } else if second <= m {
        let q = plane_of(g, first - m - 1);
        -meeting_of_faces(f, second - 1, q, w)
    } else {
        meeting_in_face(g, first - m - 1, second - m - 1, w)
    }
}

// The signs of the inner products of `w` and the corners of the ring.
pub fn signs_on(f: &Outline, g: &Outline, ring: &Ring, w: NarrowVec3) -> Sides
    requires f { IsOutline f.now }
    requires g { IsOutline g.now }
    requires numbers { AreNumbersOf f.now g.now ring.now.items }
    requires plane { Is37 (wide w) }
    ensures { HaveSigns (planes_of_pair (nodes_of f.now) (nodes_of g.now)) ring.now.items
        (wide w) result.items }
{
    let numbers = ring.as_slice();
    let mut sides = Sides::new();
    for t in 0..numbers.len() {
        let following = next_place(numbers.len(), t);
        sides.push(sign_number(meeting(f, g, numbers[t], numbers[following], w)));
    }
    sides
}
