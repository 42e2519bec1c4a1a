// The sides of a ring's corners on one more plane.
ghost use Rattle.std.specs.Prelude.{◌≡◌, ◌↔◌, ◌<◌, ◌≤◌, pos, ◌≤ℤ◌, ◌<ℤ◌, ℕ, length, slice_index_or, MatchOption, IsTrue};
ghost use Rattle.vec_exact.specs.Side.{sign_of};
ghost use Rattle.vec_exact.specs.Size.{Is37};
ghost use Rattle.vec_exact.specs.Cycle.{after, shifted};
ghost use Rattle.clip.specs.Usable.{IsUsable, HaveSigns};

use crate::lists::{PlaneList, Ring, corner_at};
use arrayvec::ArrayVec;
use vec_exact::{Vec3, dot, next_place};

/// A sign for each corner of a ring: -1, 0 or 1.
pub type Sides = ArrayVec<i8, 32>;

// The sign of a number, as a number.
pub fn sign_number(x: i128) -> i8
    ensures { sign_of result ≡ sign_of x }
{
    if x < 0 {
        -1
    } else if x > 0 {
        1
    } else {
        0
    }
}

// The signs of the inner products of `plane` and the corners of the ring.
pub fn sides_of(planes: &PlaneList, ring: &Ring, plane: Vec3) -> Sides
    requires usable { IsUsable planes.now.items ring.now.items }
    requires size { Is37 plane }
    ensures { HaveSigns planes.now.items ring.now.items plane result.items }
{
    let mut sides = Sides::new();
    for t in 0..ring.len() {
        sides.push(sign_number(dot(plane, corner_at(planes, ring, t))));
    }
    sides
}

// Whether a corner is negative.
pub fn has_negative(sides: &[i8]) -> bool
    ensures { IsTrue result ↔ ((t : ℕ) × t < length sides.now
        × slice_index_or sides.now t (pos 0) <ℤ pos 0) }
{
    sides.iter().any(|side| *side < 0)
}

// A place whose corner is not positive while the next one is.
pub fn rise(sides: &[i8]) -> Option<usize>
    ensures { let side = (λ (t : ℕ). slice_index_or sides.now t (pos 0)) in
        let next = after (length sides.now) in
        MatchOption result
        ((t : ℕ) → t < length sides.now → side t ≤ℤ pos 0 → side (next t) ≤ℤ pos 0)
        (λ t. t < length sides.now × side t ≤ℤ pos 0 × pos 0 <ℤ side (next t)) }
{
    for t in 0..sides.len() {
        if sides[t] <= 0 {
            let next = next_place(sides.len(), t);
            if sides[next] > 0 {
                return Some(t);
            }
        }
    }
    None
}

// How many corners are positive from place `first` on, cyclically.
pub fn positive_run(sides: &[i8], first: usize) -> usize
    requires first { first < length sides.now }
    ensures within { result ≤ length sides.now }
    ensures positive { (u : ℕ) → u < result
        → pos 0 <ℤ slice_index_or sides.now (shifted (length sides.now) first u) (pos 0) }
    ensures stop { result < length sides.now
        → slice_index_or sides.now (shifted (length sides.now) first result) (pos 0) ≤ℤ pos 0 }
{
    let mut place = first;
    for run in 0..sides.len() {
        if sides[place] <= 0 {
            return run;
        }
        place = next_place(sides.len(), place);
    }
    sides.len()
}
