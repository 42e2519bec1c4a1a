// What a target gets: a whole part and a rest.
ghost use Rattle.std.specs.Prelude.{◌≡◌, ◌≤◌, ◌^◌, pos, negsuc, ◌*ℤ◌, ◌≤ℤ◌, ◌<ℤ◌, unsigned_abs};
ghost use Rattle.map_rows.specs.Application.{divided};

/// What a target gets in a slice: the floor of its sum over its area, and what the floor leaves.
#[derive(Clone, Copy)]
pub struct Share {
    /// The floor.
    pub whole: i32,
    /// What it leaves, from 0 to below the area.
    pub rest: i64,
}

/// Measure times value, at most 2^94 in size.
pub fn product(measure: i64, value: i32) -> i128
    ensures value { result ≡ measure *ℤ value }
    ensures size { unsigned_abs result ≤ 2 ^ 94 }
{
    i128::from(measure) * i128::from(value)
}

// The share of a sum over an area, in 64 bits: the area is below 2^32.
fn narrow_share(sum: i64, area: i64) -> Share
    requires area { pos 1 ≤ℤ area }
    requires narrow { area <ℤ pos 4294967296 }
    requires least { (area *ℤ negsuc 2147483647) ≤ℤ sum }
    requires greatest { sum ≤ℤ (area *ℤ pos 2147483647) }
    ensures whole { result.whole ≡ (divided sum area).whole }
    ensures rest { result.rest ≡ (divided sum area).rest }
{
    let whole = sum.div_euclid(area);
    Share {
        whole: whole as i32,
        rest: sum - area * whole,
    }
}

// The share of a sum over an area, in 128 bits.
fn wide_share(sum: i128, area: i64) -> Share
    requires area { pos 1 ≤ℤ area }
    requires least { (area *ℤ negsuc 2147483647) ≤ℤ sum }
    requires greatest { sum ≤ℤ (area *ℤ pos 2147483647) }
    ensures whole { result.whole ≡ (divided sum area).whole }
    ensures rest { result.rest ≡ (divided sum area).rest }
{
    let area = i128::from(area);
    let whole = sum.div_euclid(area);
    Share {
        whole: whole as i32,
        rest: (sum - area * whole) as i64,
    }
}

/// The area of a target, and a guess at 2^64 over it, which spares a division for each slice.
#[derive(Clone, Copy)]
pub struct Divisor {
    /// The area.
    pub area: i64,
    inverse: u64,
}

/// The divisor of this area.
pub fn divisor_of(area: i64) -> Divisor
    requires { pos 1 ≤ℤ area }
    ensures { result.area ≡ area }
{
    let inverse = u64::MAX / area.unsigned_abs();
    Divisor {
        area,
        inverse: inverse.saturating_add(1),
    }
}

// A guess at the floor of a sum over an area below 2^31, which is right nearly always. No clause
// says it, since every guess serves.
fn whole_guess(sum: i64, divisor: Divisor) -> i32 {
    // from 0 to 2^32 areas, so that nothing is negative
    let raised = sum.wrapping_add(divisor.area.wrapping_mul(1 << 31));
    let product = u128::from(raised.unsigned_abs()) * u128::from(divisor.inverse);
    let whole = ((product >> 64) as u64).min(u64::from(u32::MAX));
    (whole as i64 - (1 << 31)) as i32
}

// The share of a sum over an area below 2^31. It is most often the guess; one that is off costs
// time alone.
fn near_share(sum: i64, area: i64, guess: i32) -> Share
    requires area { pos 1 ≤ℤ area }
    requires narrow { area <ℤ pos 2147483648 }
    requires least { (area *ℤ negsuc 2147483647) ≤ℤ sum }
    requires greatest { sum ≤ℤ (area *ℤ pos 2147483647) }
    ensures whole { result.whole ≡ (divided sum area).whole }
    ensures rest { result.rest ≡ (divided sum area).rest }
{
    let rest = sum - area * i64::from(guess);
    if 0 <= rest && rest < area {
        return Share { whole: guess, rest };
    }
    narrow_share(sum, area)
}

/// The share of a sum of measures times values over the sum of the measures, which is above 0.
pub fn share_of(sum: i128, area: i64) -> Share
    requires area { pos 1 ≤ℤ area }
    requires least { (area *ℤ negsuc 2147483647) ≤ℤ sum }
    requires greatest { sum ≤ℤ (area *ℤ pos 2147483647) }
    ensures whole { result.whole ≡ (divided sum area).whole }
    ensures rest { result.rest ≡ (divided sum area).rest }
{
    // A division of 64 bits is much faster, and serves where the faces are small.
    if area < 1 << 32 {
        narrow_share(sum as i64, area)
    } else {
        wide_share(sum, area)
    }
}

/// The same by a divisor, which is faster where several sums have one area.
pub fn share_by(sum: i128, divisor: Divisor) -> Share
    requires area { pos 1 ≤ℤ divisor.area }
    requires least { (divisor.area *ℤ negsuc 2147483647) ≤ℤ sum }
    requires greatest { sum ≤ℤ (divisor.area *ℤ pos 2147483647) }
    ensures whole { result.whole ≡ (divided sum divisor.area).whole }
    ensures rest { result.rest ≡ (divided sum divisor.area).rest }
{
    if divisor.area < 1 << 31 {
        let sum = sum as i64;
        near_share(sum, divisor.area, whole_guess(sum, divisor))
    } else {
        share_of(sum, divisor.area)
    }
}
