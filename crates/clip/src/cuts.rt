// The ring of two faces, by one plane of the second face after another.
ghost use Rattle.std.specs.Prelude.{◌≡◌, ◌≢◌, ◌↔◌, ◌+◌, ◌-◌, ◌<◌, ◌≤◌, pos, ◌≤ℤ◌, ◌<ℤ◌, ℕ, List, length, slice_index, slice_index_or, MatchOption, IsSome, IsTrue, false, []};
ghost use Rattle.std.specs.List.{range_with_len};
ghost use Rattle.vec_exact.specs.Cycle.{after};
ghost use Rattle.vec_exact.specs.Face.{IsAcceptedFace};
ghost use Rattle.mesh_check.specs.Mesh.{corners_of};
ghost use Rattle.cone_laws.specs.Inside.{Meets};
ghost use Rattle.cone_laws.specs.Ring.{plane, planes_of_pair, IsCycle, IsRingOfFirst, IsRing};
ghost use Rattle.clip.specs.Planes.{HasInside, IsFaceNumber};
ghost use Rattle.clip.specs.Usable.{HaveSigns};
ghost use Rattle.clip.specs.Outlines.{nodes_of, IsOutline, AreCuts};

use crate::lists::Ring;
use crate::meetings::signs_on;
use crate::outlines::{
    Outline, count_of, cuts_of, outline_keeps_off, plane_of, read_unless_kept_off,
};
use crate::rings::{begin_with_least, turn};
use crate::sides::{has_negative, positive_run, rise};
use mesh_check::Mesh;
use vec_exact::next_place;

// The ring of the edges of `f`: the numbers from 1 on. `g` stands in the contract alone.
fn start_outline(f: &Outline, g: &Outline) -> Ring
    requires f { IsOutline f.now }
    ensures { let planes = planes_of_pair (nodes_of f.now) (nodes_of g.now) in
        IsRingOfFirst planes (length (nodes_of f.now)) result.items }
{
    let mut ring = Ring::new();
    for i in 0..count_of(f) as u8 {
        ring.push(i + 1);
    }
    ring
}

// `fill_gap` for the planes of two faces, which stand in the contract alone.
fn fill_outline_gap(f: &Outline, g: &Outline, ring: &mut Ring, sides: &[i8], m: u8, t: usize)
    requires room { 1 ≤ m × m ≤ 32 }
    requires cycle { IsCycle (plane (planes_of_pair (nodes_of f.now) (nodes_of g.now))) (m - 1)
        (length ring.old.items) (slice_index ring.old.items) }
    requires sides { HaveSigns (planes_of_pair (nodes_of f.now) (nodes_of g.now)) ring.old.items
        (plane (planes_of_pair (nodes_of f.now) (nodes_of g.now)) m) sides.now }
    requires place { t < length sides.now }
    requires not_positive { slice_index_or sides.now t (pos 0) ≤ℤ pos 0 }
    requires positive { pos 0 <ℤ slice_index_or sides.now (after (length sides.now) t) (pos 0) }
    requires negative { (s : ℕ) × s < length sides.now
        × slice_index_or sides.now s (pos 0) <ℤ pos 0 }
    ensures { IsCycle (plane (planes_of_pair (nodes_of f.now) (nodes_of g.now))) m
        (length ring.new.items) (slice_index ring.new.items) }
{
    let first = next_place(sides.len(), t);
    let kept = positive_run(sides, first);
    turn(ring, first);
    ring.truncate(kept + 1);
    ring.push(m);
}

// Adds the plane of edge u of `g`, from 0, to the ring of the planes before it.
fn cut_outline(f: &Outline, g: &Outline, ring: &mut Ring, u: usize) -> bool
    requires f { IsOutline f.now }
    requires g { IsOutline g.now }
    requires place { u < length (nodes_of g.now) }
    requires ring { let planes = planes_of_pair (nodes_of f.now) (nodes_of g.now) in
        IsRingOfFirst planes (length (nodes_of f.now) + u) ring.old.items }
    ensures decided { let planes = planes_of_pair (nodes_of f.now) (nodes_of g.now) in
        IsTrue result ↔ HasInside planes (length (nodes_of f.now) + u + 1) }
    ensures ring { let planes = planes_of_pair (nodes_of f.now) (nodes_of g.now) in
        IsTrue result → IsRingOfFirst planes (length (nodes_of f.now) + u + 1) ring.new.items }
{
    let all_sides = signs_on(f, g, ring, plane_of(g, u));
    let sides = all_sides.as_slice();
    if !has_negative(sides) {
        return true;
    }
    match rise(sides) {
        None => false,
        Some(t) => {
            let m = (count_of(f) + u + 1) as u8;
            fill_outline_gap(f, g, ring, sides, m, t);
            begin_with_least(ring);
            true
        }
    }
}

// The ring of all planes: an edge of `g` that cuts nothing off the face `f` is left out.
fn ring_of_cuts(f: &Outline, g: &Outline, cuts: &[bool]) -> Option<Ring>
    requires f { IsOutline f.now }
    requires g { IsOutline g.now }
    requires cuts { AreCuts (nodes_of f.now) (nodes_of g.now) cuts.now }
    ensures { MatchOption result (¬ Meets (nodes_of f.now) (nodes_of g.now))
        (λ ring. IsRing (nodes_of f.now) (nodes_of g.now) ring.items) }
{
    let mut ring = start_outline(f, g);
    for u in 0..cuts.len() {
        if cuts[u] {
            if !cut_outline(f, g, &mut ring, u) {
                return None;
            }
        }
    }
    Some(ring)
}

// The ring of two faces, where they meet, by the edges of `g` alone: where no edge of `f` keeps `g`
// off, this is all that is left to do, and where one does, it comes to the same.
fn ring_of_near(f: &Outline, g: &Outline) -> Option<Ring>
    requires f { IsOutline f.now }
    requires g { IsOutline g.now }
    ensures { MatchOption result (¬ Meets (nodes_of f.now) (nodes_of g.now))
        (λ ring. IsRing (nodes_of f.now) (nodes_of g.now) ring.items) }
{
    match cuts_of(f, g) {
        None => None,
        Some(cuts) => ring_of_cuts(f, g, cuts.as_slice()),
    }
}

/// The ring of two faces, where they meet.
pub fn ring_of_outlines(f: &Outline, g: &Outline) -> Option<Ring>
    requires f { IsOutline f.now }
    requires g { IsOutline g.now }
    ensures { MatchOption result (¬ Meets (nodes_of f.now) (nodes_of g.now))
        (λ ring. IsRing (nodes_of f.now) (nodes_of g.now) ring.items) }
{
    if outline_keeps_off(f, g) {
        return None;
    }
    ring_of_near(f, g)
}

/// The ring of the face `f` and a face of a mesh, where they meet. Where they do, `g` becomes that
/// face, and else it is open what `g` holds.
pub fn ring_with_next(f: &Outline, mesh: &Mesh, face: u32, g: &mut Outline) -> Option<Ring>
    requires f { IsOutline f.now }
    requires face { IsFaceNumber mesh.now face }
    ensures ring { MatchOption result (¬ Meets (nodes_of f.now) (corners_of mesh.now face))
        (λ ring. IsRing (nodes_of f.now) (corners_of mesh.now face) ring.items) }
    ensures nodes { IsSome result → nodes_of g.new ≡ corners_of mesh.now face }
    ensures outline { IsSome result → IsOutline g.new }
    ensures accepted { IsAcceptedFace (corners_of mesh.now face) }
{
    if !read_unless_kept_off(f, mesh, face, g) {
        return None;
    }
    ring_of_near(f, g)
}
