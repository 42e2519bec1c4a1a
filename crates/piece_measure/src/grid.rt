// Corners on a grid of fixed size.
ghost use Rattle.std.specs.Prelude.{◌≡◌, ◌≢◌, ◌+◌, ◌-◌, ◌*◌, ◌/◌, ◌≤◌, ◌<◌, ◌^◌, ◌⊎◌, pos, ◌*ℤ◌, unsigned_abs};
ghost use Rattle.vec_exact.specs.Vector.{zero_triple};
ghost use Rattle.vec_exact.specs.Size.{Within, Is18, Is75};
ghost use Rattle.vec_exact.specs.Face.{vector_of};
ghost use Rattle.vec_exact.specs.Rounding.{nearest, rounded};
ghost use Rattle.piece_measure.specs.Grid.{component_size, grid_corner_of, SameForMultiples};
ghost use Rattle.piece_measure.specs.Scale.{IsScale};

use vec_exact::Vec3;

// The size of the greatest component of each grid corner, 2^28.
const GRID: u128 = 1 << 28;

// How many of the leading places of a size are divided by.
const LEADING: u32 = 33;

// The greatest size of a component.
fn component_size(c: Vec3) -> u128
    ensures { result ≡ component_size c }
{
    c.x.unsigned_abs()
        .max(c.y.unsigned_abs())
        .max(c.z.unsigned_abs())
}

// How many low places are left out of `size`, so that at most 33 are left.
fn low_places(size: u128) -> u32
    requires positive { 0 < size }
    requires limit { size < 2 ^ 75 }
    ensures few { result ≤ 42 }
    ensures head { size / 2 ^ result < 2 ^ 33 }
    ensures whole { (result ≡ 0) ⊎ (2 ^ 32 ≤ size / 2 ^ result) }
    ensures some { 0 < size / 2 ^ result }
{
    (u128::BITS - size.leading_zeros()).saturating_sub(LEADING)
}

// `size` parts of 2^28 to the nearest whole number: `n * 2^28 / size`, halves upwards. The
// leading places of both give the answer or one less, by a product with the reciprocal.
fn part_of_grid(n: u128, size: u128, places: u32, reciprocal: u64) -> u32
    requires positive { 0 < size }
    requires greatest { n ≤ size }
    requires limit { size < 2 ^ 75 }
    requires scale { IsScale size places reciprocal }
    ensures value { result ≡ nearest (n * 268435456) size }
    ensures size { result ≤ 2 ^ 28 }
{
    let leading = (n >> places) as u64;
    let guess = (leading * reciprocal) >> 35;
    if (2 * guess as u128 + 1) * size <= n * (2 * GRID) {
        guess as u32 + 1
    } else {
        guess as u32
    }
}

// A component as the grid has it, where the greatest size of a component is `size`.
fn on_grid(x: i128, size: u128, places: u32, reciprocal: u64) -> i32
    requires positive { 0 < size }
    requires greatest { unsigned_abs x ≤ size }
    requires limit { size < 2 ^ 75 }
    requires scale { IsScale size places reciprocal }
    ensures value { result ≡ rounded (x *ℤ pos 268435456) size }
    ensures size { unsigned_abs result ≤ 2 ^ 28 }
{
    let part = part_of_grid(x.unsigned_abs(), size, places, reciprocal) as i32;
    if x < 0 { -part } else { part }
}

/// The corner `c` brought to a fixed size: each component divided by the greatest size of a
/// component and multiplied by 2^28, rounded to the nearest whole number, halves away from zero.
///
/// `c` is not the zero triple, and its components are below 2^75 in size. No component of the
/// answer is above 2^28 in size, and at least one is 2^28 in size.
pub fn grid_corner(c: Vec3) -> [i32; 3]
    requires size { Is75 c }
    requires nonzero { c ≢ zero_triple }
    ensures value { result ≡ grid_corner_of c }
    ensures size { Within (2 ^ 28) (vector_of result) }
    ensures reached { component_size (vector_of result) ≡ 2 ^ 28 }
{
    let size = component_size(c);
    let places = low_places(size);
    let reciprocal = (1 << 63) / ((size >> places) as u64);
    [
        on_grid(c.x, size, places, reciprocal),
        on_grid(c.y, size, places, reciprocal),
        on_grid(c.z, size, places, reciprocal),
    ]
}

// The greatest size of a number of a node.
fn node_size(node: [i32; 3]) -> u64
    requires nonzero { vector_of node ≢ zero_triple }
    requires size { Is18 (vector_of node) }
    ensures value { result ≡ component_size (vector_of node) }
    ensures positive { 0 < result }
    ensures limit { result < 2 ^ 18 }
{
    u64::from(
        node[0]
            .unsigned_abs()
            .max(node[1].unsigned_abs())
            .max(node[2].unsigned_abs()),
    )
}

// `part_of_grid` for the numbers of a node.
fn part_of_node(n: u64, size: u64, reciprocal: u64) -> u32
    requires positive { 0 < size }
    requires greatest { n ≤ size }
    requires limit { size < 2 ^ 18 }
    requires reciprocal { reciprocal ≡ 2 ^ 63 / size }
    ensures value { result ≡ nearest (n * 268435456) size }
    ensures size { result ≤ 2 ^ 28 }
{
    let guess = (n * reciprocal) >> 35;
    if (2 * guess + 1) * size <= n * (1 << 29) {
        guess as u32 + 1
    } else {
        guess as u32
    }
}

fn node_on_grid(x: i32, size: u64, reciprocal: u64) -> i32
    requires positive { 0 < size }
    requires greatest { unsigned_abs x ≤ size }
    requires limit { size < 2 ^ 18 }
    requires reciprocal { reciprocal ≡ 2 ^ 63 / size }
    ensures value { result ≡ rounded (x *ℤ pos 268435456) size }
    ensures size { unsigned_abs result ≤ 2 ^ 28 }
{
    let part = part_of_node(x.unsigned_abs() as u64, size, reciprocal) as i32;
    if x < 0 { -part } else { part }
}

/// The grid corner of a node, and so of each positive multiple of it.
///
/// Its components are at most 262,143 in size, and not all of them are 0.
pub fn grid_node(node: [i32; 3]) -> [i32; 3]
    requires size { Is18 (vector_of node) }
    requires nonzero { vector_of node ≢ zero_triple }
    ensures value { result ≡ grid_corner_of (vector_of node) }
    ensures size { Within (2 ^ 28) (vector_of result) }
{
    let size = node_size(node);
    let reciprocal = (1 << 63) / size;
    [
        node_on_grid(node[0], size, reciprocal),
        node_on_grid(node[1], size, reciprocal),
        node_on_grid(node[2], size, reciprocal),
    ]
}

/// A law: a positive multiple of a corner has the same grid corner.
pub fn law_same_for_multiples()
    ensures { SameForMultiples }
{}
