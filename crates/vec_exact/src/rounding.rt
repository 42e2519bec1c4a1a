// Whole numbers next to a quotient and to a square root.
ghost use Rattle.std.specs.Prelude.{◌≡◌, ◌≤◌, ◌<◌, ◌*◌, ◌^◌, pos, ◌+ℤ◌, ◌-ℤ◌, ◌*ℤ◌, ◌≤ℤ◌, ◌<ℤ◌, unsigned_abs};
ghost use Rattle.vec_exact.specs.Root.{root_of};
ghost use Rattle.vec_exact.specs.Rounding.{rounded};

/// `x / d` rounded to the nearest whole number, halves away from zero. `d` is positive, and both
/// are below 2^124 in size.
pub fn round_div(x: i128, d: i128) -> i128
    requires positive { pos 0 <ℤ d }
    requires x_size { unsigned_abs x < 2 ^ 124 }
    requires d_size { unsigned_abs d < 2 ^ 124 }
    ensures value { result ≡ rounded x (unsigned_abs d) }
    // no whole number is nearer to the quotient
    ensures nearest { 2 * unsigned_abs (x -ℤ result *ℤ d) ≤ unsigned_abs d }
    // halfway between two whole numbers it is the one further from zero
    ensures half { 2 * unsigned_abs (x -ℤ result *ℤ d) ≡ unsigned_abs d →
        unsigned_abs x < unsigned_abs (result *ℤ d) }
    ensures size { unsigned_abs result ≤ unsigned_abs x }
{
    let size = d.unsigned_abs();
    let whole = ((2 * x.unsigned_abs() + size) / (2 * size)) as i128;
    if x < 0 { -whole } else { whole }
}

/// The greatest whole number whose square is at most `x`, of an `x` from 0 to below 2^124.
#[tactic(auto, using(crate::proofs::Roots::root_unique_signed))]
pub fn isqrt(x: i128) -> i128
    requires low { pos 0 ≤ℤ x }
    requires high { unsigned_abs x < 2 ^ 124 }
    ensures value { result ≡ pos (root_of (unsigned_abs x)) }
    ensures low { pos 0 ≤ℤ result }
    ensures square { (result *ℤ result) ≤ℤ x }
    ensures greatest { x <ℤ ((result +ℤ pos 1) *ℤ (result +ℤ pos 1)) }
    ensures size { unsigned_abs result < 2 ^ 62 }
{
    x.isqrt()
}
