// Nodes and edge planes in 64 bits.
ghost use Rattle.std.specs.Prelude.{◌≡◌, ◌≤◌, ◌<◌, ◌^◌, ◌*ℤ◌, ◌-ℤ◌, ◌≤ℤ◌, ℕ, length, slice_index_or, unsigned_abs};
ghost use Rattle.vec_exact.specs.Vector.{cross, inner};
ghost use Rattle.vec_exact.specs.Size.{Is18, Is37};
ghost use Rattle.vec_exact.specs.Face.{vector_of};
ghost use Rattle.clip.specs.Narrow.{wide, narrow_zero, AreNodeSized};

use vec_exact::Vec3;

/// A node, or the plane of an edge.
#[derive(Clone, Copy, Default, Debug, PartialEq, Eq)]
pub struct NarrowVec3 {
    pub x: i64,
    pub y: i64,
    pub z: i64,
}

// Three whole numbers, as a node has them, as a triple.
pub fn narrow_of(numbers: [i32; 3]) -> NarrowVec3
    ensures { wide result ≡ vector_of numbers }
{
    NarrowVec3 {
        x: i64::from(numbers[0]),
        y: i64::from(numbers[1]),
        z: i64::from(numbers[2]),
    }
}

// The same triple in 128 bits.
pub fn widened(triple: NarrowVec3) -> Vec3
    ensures { result ≡ wide triple }
{
    Vec3 {
        x: i128::from(triple.x),
        y: i128::from(triple.y),
        z: i128::from(triple.z),
    }
}

// One component of a cross product: `a * d - b * c`.
fn minor(a: i64, b: i64, c: i64, d: i64) -> i64
    requires a_size { unsigned_abs a ≤ 262143 }
    requires b_size { unsigned_abs b ≤ 262143 }
    requires c_size { unsigned_abs c ≤ 262143 }
    requires d_size { unsigned_abs d ≤ 262143 }
    ensures { result ≡ a *ℤ d -ℤ b *ℤ c }
{
    node_product(a, d) - node_product(b, c)
}

fn node_product(a: i64, b: i64) -> i64
    requires a_size { unsigned_abs a ≤ 262143 }
    requires b_size { unsigned_abs b ≤ 262143 }
    ensures value { result ≡ a *ℤ b }
    ensures size { unsigned_abs result < 2 ^ 36 }
{
    a * b
}

fn side_product(a: i64, b: i64) -> i64
    requires a_size { unsigned_abs a ≤ 137438953471 }
    requires b_size { unsigned_abs b ≤ 262143 }
    ensures value { result ≡ a *ℤ b }
    ensures size { unsigned_abs result < 2 ^ 55 }
{
    a * b
}

// The plane of an edge from the node `a` to the node `b`.
pub fn narrow_cross(a: NarrowVec3, b: NarrowVec3) -> NarrowVec3
    requires a_size { Is18 (wide a) }
    requires b_size { Is18 (wide b) }
    ensures value { wide result ≡ cross (wide a) (wide b) }
{
    NarrowVec3 {
        x: minor(a.y, a.z, b.y, b.z),
        y: minor(a.z, a.x, b.z, b.x),
        z: minor(a.x, a.y, b.x, b.y),
    }
}

// The inner product of a plane and a node.
pub fn narrow_dot(plane: NarrowVec3, node: NarrowVec3) -> i64
    requires plane { Is37 (wide plane) }
    requires node { Is18 (wide node) }
    ensures value { result ≡ inner (wide plane) (wide node) }
    ensures size { unsigned_abs result < 2 ^ 57 }
{
    side_product(plane.x, node.x) + side_product(plane.y, node.y) + side_product(plane.z, node.z)
}

// Bounds on the inner products of a plane and nodes.
#[derive(Clone, Copy)]
pub struct Extent {
    pub least: i64,
    pub greatest: i64,
}

// The least and the greatest inner product of a plane and nodes.
pub fn extent_on(plane: NarrowVec3, nodes: &[NarrowVec3]) -> Extent
    requires plane { Is37 (wide plane) }
    requires nodes { AreNodeSized nodes.now }
    ensures least { (t : ℕ) → t < length nodes.now
        → result.least ≤ℤ inner (wide plane) (wide (slice_index_or nodes.now t narrow_zero)) }
    ensures greatest { (t : ℕ) → t < length nodes.now
        → inner (wide plane) (wide (slice_index_or nodes.now t narrow_zero)) ≤ℤ result.greatest }
{
    let mut least = i64::MAX;
    let mut greatest = i64::MIN;
    for t in 0..nodes.len() {
        let side = narrow_dot(plane, nodes[t]);
        least = least.min(side);
        greatest = greatest.max(side);
    }
    Extent { least, greatest }
}
