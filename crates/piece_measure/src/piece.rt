// The measure of a piece, by its fan of triangles.
ghost use Rattle.std.specs.Prelude.{◌≡◌, ◌≤◌, pos, ◌≤ℤ◌, length, All};
ghost use Rattle.piece_measure.specs.Grid.{IsOnGrid};
ghost use Rattle.piece_measure.specs.Piece.{fan_measure, piece_measure_of};

use crate::triangle::{make_arm, tri_of_arms};

/// The greatest measure of a piece, 2^40 - 1. The least is 1.
pub const GREATEST_MEASURE: i64 = (1 << 40) - 1;

// The sum of the measures of the triangles of the fan from the first corner.
#[tactic(auto, unfolding(crate::specs::Piece::fan_measure))]
fn fan_measure(corners: &[[i32; 3]]) -> i64
    requires least_count { 3 ≤ length corners.now }
    requires greatest_count { length corners.now ≤ 32 }
    requires size { All IsOnGrid corners.now }
    ensures { result ≡ pos (fan_measure corners.now) }
{
    let first = make_arm(corners[0]);
    let mut before = make_arm(corners[1]);
    let mut sum = 0;
    for t in 1..corners.len() - 1 {
        let next = make_arm(corners[t + 1]);
        sum += tri_of_arms(first, before, next);
        before = next;
    }
    sum
}

/// The measure of the piece with these corners, in order: the sum of the measures of the triangles
/// of the fan from the first corner, held between 1 and 1,099,511,627,775, in units of 2^-36.
///
/// There are 3 to 32 corners, and no component is above 2^28 in size. How near the measure is to
/// the true area isn't said.
#[tactic(auto, unfolding(crate::specs::Piece::piece_measure_of))]
pub fn measure(corners: &[[i32; 3]]) -> i64
    requires least_count { 3 ≤ length corners.now }
    requires greatest_count { length corners.now ≤ 32 }
    requires size { All IsOnGrid corners.now }
    ensures value { result ≡ pos (piece_measure_of corners.now) }
    ensures least { pos 1 ≤ℤ result }
    ensures greatest { result ≤ℤ GREATEST_MEASURE }
{
    fan_measure(corners).clamp(1, GREATEST_MEASURE)
}
