// The ring of the first planes of a list: of one face, and with one more plane.
ghost use Rattle.std.specs.Prelude.{◌≡◌, ◌≢◌, ◌↔◌, ◌+◌, ◌-◌, ◌<◌, ◌≤◌, pos, ◌≤ℤ◌, ◌<ℤ◌, ℕ, List, length, slice_index, slice_index_or, MatchOption, IsTrue, false, []};
ghost use Rattle.std.specs.List.{RotatedLeft, range_with_len};
ghost use Rattle.vec_exact.specs.declared.Vec3.{Vec3 as Triple};
ghost use Rattle.vec_exact.specs.Cycle.{after};
ghost use Rattle.cone_laws.specs.Ring.{plane, IsCycle, IsRingOfFirst};
ghost use Rattle.clip.specs.Planes.{HasInside, EachIs37, NoneIsZero, AreEdgesOf};
ghost use Rattle.clip.specs.Usable.{HaveSigns};

use crate::lists::{PlaneList, Ring, plane_at};
use crate::sides::{has_negative, positive_run, rise, sides_of};
use vec_exact::next_place;

/// The ring of the first m planes, which are the edge planes of an accepted face in order: the
/// numbers from 1 to m.
pub fn start(planes: &PlaneList, m: u8) -> Ring
    requires edges { (face : List Triple) × AreEdgesOf face planes.now.items m }
    ensures numbers { result.items ≡ range_with_len 1 m }
    ensures ring { IsRingOfFirst planes.now.items m result.items }
{
    // The call says that there are at most 32 planes, so the numbers fit.
    let _count = planes.len();
    let mut ring = Ring::new();
    for i in 0..m {
        ring.push(i + 1);
    }
    ring
}

// Turns the ring so that the number at place t, from 0, comes first.
pub fn turn(ring: &mut Ring, t: usize)
    requires { t ≤ length ring.old.items }
    ensures by_index { RotatedLeft ring.old.items ring.new.items (length ring.old.items) t }
    ensures len { length ring.new.items ≡ length ring.old.items }
{
    ring.as_mut_slice().rotate_left(t);
}

// The place of the least number, from 0.
fn least_place(ring: &Ring) -> usize
    requires { 0 < length ring.now.items }
    ensures below { result < length ring.now.items }
    ensures least { (t : ℕ) → t < length ring.now.items
        → slice_index ring.now.items result ≤ slice_index ring.now.items t }
{
    let numbers = ring.as_slice();
    let mut least = 0;
    for t in 1..numbers.len() {
        if numbers[t] < numbers[least] {
            least = t;
        }
    }
    least
}

// Turns the ring so that its least number comes first.
pub fn begin_with_least(ring: &mut Ring)
    requires { 0 < length ring.old.items }
    ensures least_first { (t : ℕ) → t < length ring.new.items
        → slice_index ring.new.items 0 ≤ slice_index ring.new.items t }
    ensures turned { (j : ℕ) × j < length ring.old.items
        × RotatedLeft ring.old.items ring.new.items (length ring.old.items) j }
    ensures len { length ring.new.items ≡ length ring.old.items }
{
    let least = least_place(ring);
    turn(ring, least);
}

// Puts plane m into the gap that begins behind the run of positive corners after place t, in place
// of the planes whose corners are no part of that run. `planes` stands in the contract alone.
fn fill_gap(planes: &PlaneList, ring: &mut Ring, sides: &[i8], m: u8, t: usize)
    requires room { 1 ≤ m × m ≤ 32 }
    requires cycle { IsCycle (plane planes.now.items) (m - 1) (length ring.old.items)
        (slice_index ring.old.items) }
    requires sides { HaveSigns planes.now.items ring.old.items
        (plane planes.now.items m) sides.now }
    requires place { t < length sides.now }
    requires not_positive { slice_index_or sides.now t (pos 0) ≤ℤ pos 0 }
    requires positive { pos 0 <ℤ slice_index_or sides.now (after (length sides.now) t) (pos 0) }
    requires negative { (s : ℕ) × s < length sides.now
        × slice_index_or sides.now s (pos 0) <ℤ pos 0 }
    ensures { IsCycle (plane planes.now.items) m (length ring.new.items)
        (slice_index ring.new.items) }
{
    let first = next_place(sides.len(), t);
    let kept = positive_run(sides, first);
    turn(ring, first);
    ring.truncate(kept + 1);
    ring.push(m);
}

/// Adds plane m to the ring of the planes before it.
///
/// At true some direction is positive on all of the first m planes, and `ring` is their ring. At
/// false no direction is positive on all of them, and `ring` is empty.
///
/// A plane that is negative on no corner changes nothing. Where it is positive on none, nothing is
/// left. Else it takes the place of the listed planes neither of whose two corners is positive on
/// it.
pub fn cut(planes: &PlaneList, ring: &mut Ring, m: u8) -> bool
    requires least { 4 ≤ m }
    requires greatest { m ≤ length planes.now.items }
    requires size { EachIs37 planes.now.items m }
    requires nonzero { NoneIsZero planes.now.items m }
    requires ring { IsRingOfFirst planes.now.items (m - 1) ring.old.items }
    ensures decided { IsTrue result ↔ HasInside planes.now.items m }
    ensures ring { IsTrue result → IsRingOfFirst planes.now.items m ring.new.items }
    ensures empty { result ≡ false → ring.new.items ≡ [] }
{
    // The call says that there are at most 32 planes, so one more number fits.
    let _count = planes.len();
    let all_sides = sides_of(planes, ring, plane_at(planes, m));
    let sides = all_sides.as_slice();
    if !has_negative(sides) {
        return true;
    }
    match rise(sides) {
        None => {
            ring.clear();
            false
        }
        Some(t) => {
            fill_gap(planes, ring, sides, m, t);
            begin_with_least(ring);
            true
        }
    }
}
