// Cosine and sine in units of 2^-30.
ghost use Rattle.std.specs.Prelude.{◌≡◌, ◌≤◌, ◌<◌, ◌*◌, ◌^◌, ◌/◌, pos, ◌<ℤ◌, ◌+ℤ◌, ◌-ℤ◌, unsigned_abs};
ghost use Rattle.gen_rll.specs.Trigonometry.{angle, cosine, in_quarter, next_term, sine, square, trig_of, turned};

use vec_exact::round_div;

const UNIT: u64 = 1 << 30;

// The whole part of pi times the unit.
const PI: u64 = 3_373_259_426;

// The size of the term that follows `t` in a series, with `u` the square of the angle.
#[tactic(auto, unfolding(crate::specs::Trigonometry::next_term))]
fn next_term(u: u64, d: u64, t: u64) -> u64
    requires square { u < 2 ^ 30 }
    requires term { t ≤ 2 ^ 30 }
    requires least { 1 ≤ d }
    requires greatest { d ≤ 72 }
    ensures value { result ≡ next_term u d t }
    ensures small { result ≤ t }
{
    t * u / (d * UNIT)
}

// The sum of five terms of these sizes, the second and the fourth below zero.
fn alternating(a: u64, b: u64, c: u64, d: u64, e: u64) -> i64
    requires greatest { a ≤ 2 ^ 30 }
    requires second { b ≤ a }
    requires third { c ≤ b }
    requires fourth { d ≤ c }
    requires fifth { e ≤ d }
    ensures value { result ≡ pos a -ℤ pos b +ℤ pos c -ℤ pos d +ℤ pos e }
    ensures size { unsigned_abs result ≤ 2 ^ 30 }
{
    a as i64 - b as i64 + c as i64 - d as i64 + e as i64
}

#[tactic(auto, unfolding(crate::specs::Trigonometry::sine))]
fn sine(x: u64) -> i64
    requires { x < 2 ^ 30 }
    ensures value { result ≡ sine x }
    ensures size { unsigned_abs result ≤ 2 ^ 30 }
{
    let u = x * x / UNIT;
    let third = next_term(u, 6, x);
    let fifth = next_term(u, 20, third);
    let seventh = next_term(u, 42, fifth);
    let ninth = next_term(u, 72, seventh);
    alternating(x, third, fifth, seventh, ninth)
}

#[tactic(auto, unfolding(crate::specs::Trigonometry::cosine))]
fn cosine(x: u64) -> i64
    requires { x < 2 ^ 30 }
    ensures value { result ≡ cosine x }
    ensures size { unsigned_abs result ≤ 2 ^ 30 }
{
    let u = x * x / UNIT;
    let second = u / 2;
    let fourth = next_term(u, 12, second);
    let sixth = next_term(u, 30, fourth);
    let eighth = next_term(u, 56, sixth);
    alternating(UNIT, second, fourth, sixth, eighth)
}

// The angle of `e` of `m` parts of a quarter turn, at most half of it.
fn angle(e: u64, m: u64) -> u64
    requires least { 1 ≤ m }
    requires greatest { m ≤ 1440 }
    requires half { 2 * e ≤ m }
    ensures value { result ≡ angle e m }
    ensures small { result < 2 ^ 30 }
{
    round_div(i128::from(PI * e), i128::from(2 * m)) as u64
}

#[tactic(auto, unfolding(crate::specs::Trigonometry::in_quarter))]
fn in_quarter(e: u64, m: u64) -> (i64, i64)
    requires greatest { m ≤ 1440 }
    requires part { e < m }
    ensures value { result ≡ in_quarter e m }
    ensures size { (unsigned_abs result.0 ≤ 2 ^ 30) × (unsigned_abs result.1 ≤ 2 ^ 30) }
{
    if 2 * e <= m {
        let x = angle(e, m);
        (cosine(x), sine(x))
    } else {
        let x = angle(m - e, m);
        (sine(x), cosine(x))
    }
}

// The pair of an angle that is `q` quarter turns past one whose pair is given; `q` is at most 3.
fn turned(q: u64, pair: (i64, i64)) -> (i64, i64)
    requires { (unsigned_abs pair.0 ≤ 2 ^ 30) × (unsigned_abs pair.1 ≤ 2 ^ 30) }
    ensures value { result ≡ turned q pair }
    ensures size { (unsigned_abs result.0 ≤ 2 ^ 30) × (unsigned_abs result.1 ≤ 2 ^ 30) }
{
    let (c, s) = pair;
    match q {
        0 => (c, s),
        1 => (-s, c),
        2 => (-c, -s),
        _ => (s, -c),
    }
}

/// The cosine and the sine of the angle of `k` parts of a full turn that is divided into `m` parts,
/// in units of 2^-30: each is at most 2^30 in size. `m` is from 1 to 1440, and `k` at most 1440 in
/// size.
#[tactic(auto, unfolding(crate::specs::Trigonometry::trig_of))]
pub fn trig(k: i64, m: i64) -> (i64, i64)
    requires least { pos 0 <ℤ m }
    requires greatest { unsigned_abs m ≤ 1440 }
    requires part { unsigned_abs k ≤ 1440 }
    ensures value { result ≡ trig_of k (unsigned_abs m) }
    ensures cosine_size { unsigned_abs result.0 ≤ 2 ^ 30 }
    ensures sine_size { unsigned_abs result.1 ≤ 2 ^ 30 }
{
    let parts = m as u64;
    let quarters = 4 * k.rem_euclid(m) as u64;
    turned(quarters / parts, in_quarter(quarters % parts, parts))
}
