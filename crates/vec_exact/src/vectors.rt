// Products of triples, exact under bounds on the size of their components.
ghost use Rattle.std.specs.Prelude.{◌≡◌, ◌≤◌, ◌<◌, ◌*◌, ◌^◌, ◌-ℤ◌, ◌*ℤ◌, unsigned_abs};
ghost use Rattle.vec_exact.specs.Vector.{inner, cross, det};
ghost use Rattle.vec_exact.specs.Size.{Within, Is18, Is37, Is75, HasInner, HasCross};
ghost use Rattle.vec_exact.specs.Side.{side_of};
ghost use Rattle.vec_exact.specs.Face.{vector_of};

use crate::Vec3;

/// The side of a plane on which a direction lies.
#[derive(Clone, Copy, Debug, PartialEq, Eq)]
pub enum Sign {
    /// On the negative side.
    Neg,
    /// On the plane itself.
    On,
    /// On the positive side.
    Pos,
}

/// Three whole numbers, as a node has them, as a triple.
pub fn vector(numbers: [i32; 3]) -> Vec3
    ensures { result ≡ vector_of numbers }
{
    Vec3 {
        x: i128::from(numbers[0]),
        y: i128::from(numbers[1]),
        z: i128::from(numbers[2]),
    }
}

// The product, which fits.
fn product(a: i128, b: i128) -> i128
    requires { unsigned_abs a * unsigned_abs b < 2 ^ 115 }
    ensures value { result ≡ a *ℤ b }
    ensures size { unsigned_abs result < 2 ^ 115 }
{
    a * b
}

// One component of a cross product: `a * d - b * c`.
fn minor(a: i128, b: i128, c: i128, d: i128) -> i128
    requires a_size { unsigned_abs a < 2 ^ 37 }
    requires b_size { unsigned_abs b < 2 ^ 37 }
    requires c_size { unsigned_abs c < 2 ^ 37 }
    requires d_size { unsigned_abs d < 2 ^ 37 }
    ensures { result ≡ a *ℤ d -ℤ b *ℤ c }
{
    product(a, d) - product(b, c)
}

/// The inner product `a . b`. It is below 2^114 in size.
///
/// One of the two has components below 2^37 in size, the other below 2^75.
pub fn dot(a: Vec3, b: Vec3) -> i128
    requires { HasInner a b }
    ensures value { result ≡ inner a b }
    ensures size { unsigned_abs result < 2 ^ 114 }
{
    product(a.x, b.x) + product(a.y, b.y) + product(a.z, b.z)
}

/// The cross product `a x b`.
///
/// Its components are below 2^75 in size where those of both are below 2^37, and below 2^37 where
/// those of both are at most 262,143.
pub fn cross(a: Vec3, b: Vec3) -> Vec3
    requires { HasCross a b }
    ensures value { result ≡ cross a b }
    ensures size { Is75 result }
    ensures small { Is18 a → Is18 b → Is37 result }
{
    Vec3 {
        x: minor(a.y, a.z, b.y, b.z),
        y: minor(a.z, a.x, b.z, b.x),
        z: minor(a.x, a.y, b.x, b.y),
    }
}

/// The determinant `a . (b x c)` of three triples whose components are at most 2^28 in size. It is
/// below 2^87 in size.
pub fn det(a: Vec3, b: Vec3, c: Vec3) -> i128
    requires a_size { Within 268435456 a }
    requires b_size { Within 268435456 b }
    requires c_size { Within 268435456 c }
    ensures value { result ≡ det a b c }
    ensures size { unsigned_abs result < 2 ^ 87 }
{
    dot(a, cross(b, c))
}

/// The side of the plane `n` on which the direction `d` lies: the sign of `n . d`.
pub fn side(n: Vec3, d: Vec3) -> Sign
    requires n_size { Is37 n }
    requires d_size { Is75 d }
    ensures { result ≡ side_of n d }
{
    let along = dot(n, d);
    if along < 0 {
        Sign::Neg
    } else if along == 0 {
        Sign::On
    } else {
        Sign::Pos
    }
}
