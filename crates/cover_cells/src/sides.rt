// What one more plane leaves of a ring, by the sides of the ring's corners on it.
ghost use Rattle.std.specs.Prelude.{◌≡◌, ◌↔◌, ◌<◌, ◌≤◌, pos, ◌≤ℤ◌, ◌<ℤ◌, ℕ, length, MatchOption, IsTrue};
ghost use Rattle.vec_exact.specs.Cycle.{after, shifted};
ghost use Rattle.cover_cells.specs.Sides.{side_at, IsLeft};

use vec_exact::{next_place, place_after};

/// What one more plane leaves of a ring.
#[derive(Clone, Copy, Debug, PartialEq, Eq)]
pub enum Left {
    /// The whole ring.
    Whole,
    /// No direction.
    Nothing,
    /// The planes of a run of positive corners, which begins at place `first`, from 0, and has
    /// `count` corners; the new plane closes the gap.
    Run { first: usize, count: usize },
}

// Whether a side is negative.
fn has_negative(sides: &[i128]) -> bool
    ensures { IsTrue result ↔ ((t : ℕ) × t < length sides.now × side_at sides.now t <ℤ pos 0) }
{
    sides.iter().any(|side| *side < 0)
}

// A place whose side is not positive while the next one is.
fn rise(sides: &[i128]) -> Option<usize>
    ensures { let side = side_at sides.now in
        let next = after (length sides.now) in
        MatchOption result
        ((t : ℕ) → t < length sides.now → side t ≤ℤ pos 0 → side (next t) ≤ℤ pos 0)
        (λ t. t < length sides.now × side t ≤ℤ pos 0 × pos 0 <ℤ side (next t)) }
{
    for t in 0..sides.len() {
        if sides[t] <= 0 {
            let next = next_place(sides.len(), t);
            if sides[next] > 0 {
                return Some(t);
            }
        }
    }
    None
}

// How many sides are positive from place `first` on, cyclically.
fn positive_run(sides: &[i128], first: usize) -> usize
    requires { first < length sides.now }
    ensures within { result ≤ length sides.now }
    ensures positive { (t : ℕ) → t < result
        → pos 0 <ℤ side_at sides.now (shifted (length sides.now) first t) }
    ensures stop { result < length sides.now
        → side_at sides.now (shifted (length sides.now) first result) ≤ℤ pos 0 }
{
    for t in 0..sides.len() {
        let place = place_after(sides.len(), first, t);
        if sides[place] <= 0 {
            return t;
        }
    }
    sides.len()
}

// What a plane leaves of a ring with these sides.
pub fn left_of(sides: &[i128]) -> Left
    ensures { IsLeft sides.now result }
{
    if !has_negative(sides) {
        return Left::Whole;
    }
    match rise(sides) {
        None => Left::Nothing,
        Some(t) => {
            let first = next_place(sides.len(), t);
            let count = positive_run(sides, first);
            Left::Run { first, count }
        }
    }
}
