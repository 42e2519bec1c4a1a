// The edge planes of two faces, their ring, and the test of a ring.
ghost use Rattle.std.specs.Prelude.{◌≡◌, ◌↔◌, ◌+◌, ◌<◌, ◌≤◌, ◌++◌, List, length, MatchOption, IsSome, IfSome, IsTrue};
ghost use Rattle.vec_exact.specs.declared.Vec3.{Vec3 as Triple};
ghost use Rattle.vec_exact.specs.Face.{IsAcceptedFace};
ghost use Rattle.cone_laws.specs.Cone.{AllPositive};
ghost use Rattle.cone_laws.specs.Inside.{IsInside, Meets};
ghost use Rattle.cone_laws.specs.Ring.{face_planes, planes_of_pair, listed, IsRing};
ghost use Rattle.mesh_check.specs.Mesh.{corners_of};
ghost use Rattle.clip.specs.Outlines.{nodes_of, IsOutline};
ghost use Rattle.clip.specs.Planes.{EachIs37, NoneIsZero, IsFaceNumber};

use crate::cuts::{ring_of_outlines, ring_with_next};
use crate::lists::{PlaneList, Ring};
use crate::outlines::{Outline, outline_of};
use mesh_check::{Mesh, edge_count, plane};
use std::sync::ledger::Ledger;
use vec_exact::Steps;

// Appends the edge planes of a face, in order.
fn push_planes(mesh: &Mesh, face: u32, planes: &mut PlaneList)
    requires face { IsFaceNumber mesh.now face }
    requires room { length planes.old.items ≤ 16 }
    ensures planes { planes.new.items ≡ planes.old.items ++ face_planes (corners_of mesh.now face) }
    ensures accepted { IsAcceptedFace (corners_of mesh.now face) }
{
    for t in 0..edge_count(mesh, face) {
        planes.push(plane(mesh, face, t + 1));
    }
}

/// The edge planes of face `i` of `a` in order, followed by those of face `j` of `b`; faces count
/// from 1. There are 6 to 32 of them. Their components are below 2^37 in size, and none is the zero
/// triple.
pub fn planes(a: &Mesh, i: u32, b: &Mesh, j: u32) -> PlaneList
    requires source { IsFaceNumber a.now i }
    requires target { IsFaceNumber b.now j }
    ensures planes { result.items ≡ planes_of_pair (corners_of a.now i) (corners_of b.now j) }
    ensures size { EachIs37 result.items (length result.items) }
    ensures nonzero { NoneIsZero result.items (length result.items) }
    ensures source { IsAcceptedFace (corners_of a.now i) }
    ensures target { IsAcceptedFace (corners_of b.now j) }
{
    let mut planes = PlaneList::new();
    push_planes(a, i, &mut planes);
    push_planes(b, j, &mut planes);
    planes
}

/// The ring of face `i` of `a` and face `j` of `b`, where a direction is inside both; faces count
/// from 1. It is None exactly where no direction is inside both. It takes one step.
///
/// All planes of the ring are positive on a direction exactly where both faces have it inside. The
/// numbers of the ring count from 1, first the edges of the face of `a`, then those of the face of
/// `b`.
pub fn clip<L: Ledger>(a: &Mesh, i: u32, b: &Mesh, j: u32, steps: &mut Steps<L>) -> Option<Ring>
    requires source { IsFaceNumber a.now i }
    requires target { IsFaceNumber b.now j }
    ensures meets { IsSome result ↔ Meets (corners_of a.now i) (corners_of b.now j) }
    ensures ring { IfSome result (λ ring.
        IsRing (corners_of a.now i) (corners_of b.now j) ring.items) }
    ensures bounds { let source = corners_of a.now i in
        let target = corners_of b.now j in
        IfSome result (λ ring. (d : Triple)
        → (AllPositive (length ring.items) (listed (planes_of_pair source target) ring.items) d)
        ↔ (IsInside source d × IsInside target d)) }
    ensures tick { steps.new ≡ steps.old + 1 }
{
    clip_next(&outline_of(a, i), &mut Outline::new(), a, i, b, j, steps)
}

/// `clip` for a face that was read before and one that is read now: `f` is face `i` of `a`, and `g`
/// becomes face `j` of `b` where the two meet. Where they don't, it is open what `g` holds. The mesh
/// `a` and the number `i` stand in the contract alone.
pub fn clip_next<L: Ledger>(
    f: &Outline,
    g: &mut Outline,
    a: &Mesh,
    i: u32,
    b: &Mesh,
    j: u32,
    steps: &mut Steps<L>,
) -> Option<Ring>
    requires f { IsOutline f.now }
    requires source { nodes_of f.now ≡ corners_of a.now i }
    requires target { IsFaceNumber b.now j }
    ensures meets { IsSome result ↔ Meets (corners_of a.now i) (corners_of b.now j) }
    ensures ring { IfSome result (λ ring.
        IsRing (corners_of a.now i) (corners_of b.now j) ring.items) }
    ensures bounds { let source = corners_of a.now i in
        let target = corners_of b.now j in
        IfSome result (λ ring. (d : Triple)
        → (AllPositive (length ring.items) (listed (planes_of_pair source target) ring.items) d)
        ↔ (IsInside source d × IsInside target d)) }
    ensures nodes { IsSome result → nodes_of g.new ≡ corners_of b.now j }
    ensures outline { IsSome result → IsOutline g.new }
    ensures tick { steps.new ≡ steps.old + 1 }
{
    steps.tick();
    ring_with_next(f, b, j, g)
}

/// Whether `ring` is the ring of two faces that were read, first the edges of `f`, then those of `g`.
/// A number in `ring` that is 0 or past the planes of the pair is a case of false.
pub fn is_ring_of_outlines(f: &Outline, g: &Outline, ring: &Ring) -> bool
    requires f { IsOutline f.now }
    requires g { IsOutline g.now }
    ensures { IsTrue result ↔ IsRing (nodes_of f.now) (nodes_of g.now) ring.now.items }
{
    match ring_of_outlines(f, g) {
        None => false,
        Some(found) => found.as_slice() == ring.as_slice(),
    }
}

/// Whether `ring` is the ring of face `i` of `a` and face `j` of `b`; faces count from 1. A number
/// in `ring` that is 0 or past the planes of the pair is a case of false.
pub fn is_ring(a: &Mesh, i: u32, b: &Mesh, j: u32, ring: &Ring) -> bool
    requires source { IsFaceNumber a.now i }
    requires target { IsFaceNumber b.now j }
    ensures { IsTrue result ↔ IsRing (corners_of a.now i) (corners_of b.now j) ring.now.items }
{
    is_ring_of_outlines(&outline_of(a, i), &outline_of(b, j), ring)
}
