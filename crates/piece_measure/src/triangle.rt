// The measure of a triangle, by the tangent of half its solid angle.
ghost use Rattle.std.specs.Prelude.{◌≡◌, ◌≤◌, ◌<◌, ◌+◌, ◌*◌, ◌^◌, pos, ◌*ℤ◌, ◌≤ℤ◌, ◌<ℤ◌, ◌/◌, ℤ, List, unsigned_abs};
ghost use Rattle.vec_exact.specs.Vector.{inner};
ghost use Rattle.vec_exact.specs.Size.{Within};
ghost use Rattle.vec_exact.specs.Root.{root_of};
ghost use Rattle.vec_exact.specs.Face.{vector_of};
ghost use Rattle.piece_measure.specs.Grid.{IsOnGrid};
ghost use Rattle.piece_measure.specs.Arms.{IsArm, IsArmOf};
ghost use Rattle.piece_measure.specs.Triangle.{whole_length, numerator, denominator, half_tangent, halved, angle, triangle_measure};

use vec_exact::{Vec3, det, dot, vector};

// One in fixed point, 2^36.
const UNIT: u128 = 1 << 36;

// The root of `x`, rounded down. It is most often the guess; one that is off costs time alone.
#[tactic(auto, using(vec_exact::proofs::Roots::root_unique))]
fn root_near(x: u128, guess: u64) -> u128
    ensures value { result ≡ root_of x }
    ensures square { result * result ≤ x }
    ensures greatest { x < (result + 1) * (result + 1) }
{
    let root = u128::from(guess);
    let square = root * root;
    if square <= x && x - square <= 2 * root {
        root
    } else {
        x.isqrt()
    }
}

// `x / d`, rounded down. It is most often the guess; one that is off costs time alone.
#[tactic(auto, using(crate::proofs::Quotients::quotient_is))]
fn quotient_near(x: u128, d: u128, guess: u64) -> u128
    requires positive { 0 < d }
    requires limit { d < 2 ^ 90 }
    ensures { result ≡ x / d }
{
    let quotient = guess.min(1 << 38) as u128;
    let product = quotient * d;
    if product <= x && x - product < d {
        quotient
    } else {
        x / d
    }
}

// A product of two numbers whose unit is 2^32, in that unit.
fn scaled(a: i64, b: i64) -> i64 {
    a.wrapping_mul(b) >> 32
}

// Half the reciprocal of the root of `x`, near it for an `x` from 1 to 3: a parabola. The unit of `x`
// is 2^30, and that of the answer 2^32.
fn half_reciprocal(x: i64) -> i64 {
    let beyond = x.wrapping_sub(1 << 31).wrapping_mul(4);
    let slope = scaled(165_450_730, beyond).wrapping_sub(431_927_680);
    scaled(slope, beyond).wrapping_add(1_518_500_250)
}

// A guess at the root of `square`, which is most often right from 2^56 to 3 * 2^56, where the squares
// of the lengths of grid corners are: two steps of Goldschmidt's, and one of Newton's. No clause says
// it, since every guess serves.
fn length_guess(square: i64) -> u64 {
    let x = square >> 26;
    let mut half = half_reciprocal(x);
    let mut root = x.wrapping_mul(half) >> 29;
    for _ in 0..2 {
        let lack = i64::MIN.wrapping_sub(root.wrapping_mul(half)) >> 32;
        root = root.wrapping_add(scaled(root, lack));
        half = half.wrapping_add(scaled(half, lack));
    }
    let root = root >> 4;
    let rest = square.wrapping_sub(root.wrapping_mul(root)) >> 10;
    root.wrapping_add(rest.wrapping_mul(half) >> 50)
        .unsigned_abs()
}

// The length of `a`, rounded down.
fn whole_length(a: Vec3) -> i128
    requires { Within (2 ^ 28) a }
    ensures value { result ≡ pos (whole_length a) }
    ensures size { unsigned_abs result < 2 ^ 29 }
{
    let square = dot(a, a).unsigned_abs();
    let guess = length_guess(square.min(1 << 62) as i64);
    root_near(square, guess) as i128
}

// The triple of a corner, and its length, rounded down. Two triangles of a fan share it.
#[derive(Clone, Copy)]
pub struct Arm {
    place: Vec3,
    length: i128,
}

/// The arm of a grid corner.
pub fn make_arm(corner: [i32; 3]) -> Arm
    requires { IsOnGrid corner }
    ensures { IsArmOf result corner }
{
    let place = vector(corner);
    Arm {
        place,
        length: whole_length(place),
    }
}

// The product of three lengths.
fn product(a_length: i128, b_length: i128, c_length: i128) -> i128
    requires a_size { unsigned_abs a_length < 2 ^ 29 }
    requires b_size { unsigned_abs b_length < 2 ^ 29 }
    requires c_size { unsigned_abs c_length < 2 ^ 29 }
    ensures value { result ≡ a_length *ℤ b_length *ℤ c_length }
    ensures size { unsigned_abs result < 2 ^ 87 }
{
    a_length * b_length * c_length
}

// `a . b` times a length.
fn weighted(a: Vec3, b: Vec3, length: i128) -> i128
    requires a_size { Within (2 ^ 28) a }
    requires b_size { Within (2 ^ 28) b }
    requires length_size { unsigned_abs length < 2 ^ 29 }
    ensures value { result ≡ inner a b *ℤ length }
    ensures size { unsigned_abs result < 2 ^ 87 }
{
    dot(a, b) * length
}

// The numerator of the tangent of half the solid angle: 0 where the triples don't turn to the left.
#[tactic(auto, unfolding(crate::specs::Triangle::numerator))]
fn numerator(a: Vec3, b: Vec3, c: Vec3) -> u128
    requires a_size { Within (2 ^ 28) a }
    requires b_size { Within (2 ^ 28) b }
    requires c_size { Within (2 ^ 28) c }
    ensures value { result ≡ numerator a b c }
    ensures size { result < 2 ^ 87 }
{
    det(a, b, c).max(0).unsigned_abs()
}

// Its denominator, raised to 1 where it is less.
fn denominator(a: Arm, b: Arm, c: Arm) -> u128
    requires a { IsArm a }
    requires b { IsArm b }
    requires c { IsArm c }
    ensures value { result ≡ denominator a.place b.place c.place }
    ensures positive { 1 ≤ result }
    ensures limit { result < 2 ^ 90 }
{
    let sum = product(a.length, b.length, c.length)
        + weighted(a.place, b.place, c.length)
        + weighted(b.place, c.place, a.length)
        + weighted(c.place, a.place, b.length);
    sum.max(1).unsigned_abs()
}

// A guess at the quotient of two numbers, the first in fixed point, which is right where the
// quotient is small. No clause says it, since every guess serves.
fn quotient_guess(x: u128, d: u128) -> u64
    requires x_size { x < 2 ^ 87 }
    requires d_size { d < 2 ^ 90 }
{
    let leading = (d >> 56) as u64;
    ((x >> 23) as u64).saturating_mul(8) / leading.max(1)
}

// The tangent of half the solid angle in fixed point, held at 4.
#[tactic(auto, unfolding(crate::specs::Triangle::half_tangent))]
fn half_tangent(a: Arm, b: Arm, c: Arm) -> u128
    requires a { IsArm a }
    requires b { IsArm b }
    requires c { IsArm c }
    ensures value { result ≡ half_tangent a.place b.place c.place }
    ensures size { result ≤ 2 ^ 38 }
{
    let over = numerator(a.place, b.place, c.place);
    let under = denominator(a, b, c);
    let guess = quotient_guess(over, under);
    quotient_near(over * UNIT, under, guess).min(4 * UNIT)
}

// A guess at the root of 2^72 + t^2, which is right where `t` is small: 2^36, and t^2 / 2^37 less a
// term more. No clause says it, since every guess serves.
fn hypotenuse_guess(t: u128) -> u64
    requires { t ≤ 2 ^ 38 }
{
    let square = t * t;
    let first = square >> 37;
    let second = square.saturating_sub(first * first) >> 37;
    (UNIT + second) as u64
}

// A guess at the quotient of `t` in fixed point and 2^36 + `root`, which is right where `root` is near
// 2^36. No clause says it, since every guess serves.
fn half_guess(t: u128, root: u128) -> u64
    requires t { t ≤ 2 ^ 38 }
    requires root { root ≤ 2 ^ 40 }
{
    let less = (t * root.saturating_sub(UNIT)) >> 38;
    (t / 2).saturating_sub(less) as u64
}

// The tangent of half the angle whose tangent is `t`.
#[tactic(auto, unfolding(crate::specs::Triangle::halved), using(crate::proofs::Series::halved_at_most))]
fn halved(t: u128) -> u128
    requires { t ≤ 2 ^ 38 }
    ensures value { result ≡ halved t }
    ensures below_one { result < 2 ^ 36 }
    ensures half { 2 * result ≤ t }
{
    let root = root_near(UNIT * UNIT + t * t, hypotenuse_guess(t));
    quotient_near(t * UNIT, UNIT + root, half_guess(t, root))
}

// The angle whose tangent is `s`, which is at most 1, by three terms of its series.
#[tactic(auto, unfolding(crate::specs::Triangle::angle), using(crate::proofs::Series::third_at_most, crate::proofs::Series::fifth_at_most))]
fn angle(s: u128) -> u128
    requires { s ≤ 2 ^ 36 }
    ensures value { result ≡ angle s }
    ensures size { result ≤ s }
{
    let square = s * s / UNIT;
    let fourth = square * square / UNIT;
    s - s * s * s / (3 * UNIT * UNIT) + fourth * s / UNIT / 5
}

/// The measure of the triangle of three arms.
#[tactic(auto, unfolding(crate::specs::Triangle::triangle_measure))]
pub fn tri_of_arms(a: Arm, b: Arm, c: Arm) -> i64
    requires a { IsArm a }
    requires b { IsArm b }
    requires c { IsArm c }
    ensures value { (x y z : List ℤ) → a.place ≡ vector_of x → b.place ≡ vector_of y
        → c.place ≡ vector_of z → result ≡ pos (triangle_measure x y z) }
    ensures least { pos 0 ≤ℤ result }
    ensures below { result <ℤ pos (2 ^ 38) }
{
    let tangent = half_tangent(a, b, c);
    (16 * angle(halved(halved(halved(tangent))))) as i64
}

/// The measure of the triangle of three triples: a fixed-point form of its solid angle, in units
/// of 2^-36. It is from 0 to below 2^38.
///
/// No component is above 2^28 in size.
pub fn tri(a: [i32; 3], b: [i32; 3], c: [i32; 3]) -> i64
    requires a_size { IsOnGrid a }
    requires b_size { IsOnGrid b }
    requires c_size { IsOnGrid c }
    ensures value { result ≡ pos (triangle_measure a b c) }
    ensures least { pos 0 ≤ℤ result }
    ensures below { result <ℤ pos (2 ^ 38) }
{
    tri_of_arms(make_arm(a), make_arm(b), make_arm(c))
}
