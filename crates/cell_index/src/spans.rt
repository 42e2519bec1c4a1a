// How far a face reaches: what its nodes say of the sides of all panels, read in one pass.
ghost use Rattle.std.specs.Prelude.{◌≡◌, ℕ, ◌+◌, ◌≤◌, ◌+ℤ◌, ◌-ℤ◌, List, length, unsigned_abs, pos, int_lt, int_le};
ghost use Rattle.std.specs.Int.{int_min, int_max};
ghost use Rattle.vec_exact.specs.declared.Vec3.{Vec3};
ghost use Rattle.vec_exact.specs.Size.{Is18};
ghost use Rattle.vec_exact.specs.Face.{vector_of};
ghost use Rattle.vec_exact.specs.Cycle.{vector_at};
ghost use Rattle.mesh_check.specs.Mesh.{corners_of};
ghost use Rattle.cell_index.specs.Box.{is_beyond, is_in_front};
ghost use Rattle.cell_index.specs.Extents.{AreFirstSpans, AreSpans};

use crate::coordinates::{corner, corner_count};
use mesh_check::Mesh;
use vec_exact::Panel;

/// The least and the greatest of some numbers.
#[derive(Clone, Copy)]
pub struct Extent {
    pub least: i32,
    pub greatest: i32,
}

/// The extents of the difference and of the sum of two numbers.
#[derive(Clone, Copy)]
pub struct PairExtent {
    pub minus: Extent,
    pub plus: Extent,
}

/// The extents of the coordinates of some nodes, and of the differences and sums of two of them.
#[derive(Clone, Copy)]
pub struct Spans {
    pub x: Extent,
    pub y: Extent,
    pub z: Extent,
    pub xy: PairExtent,
    pub xz: PairExtent,
    pub yz: PairExtent,
}

// The extent of one number.
fn extent_at(value: i32) -> Extent
    ensures { result ≡ record { least = value; greatest = value } }
{
    Extent {
        least: value,
        greatest: value,
    }
}

// The extent with one number more.
fn extended(extent: Extent, value: i32) -> Extent
    ensures least { result.least ≡ int_min extent.least value }
    ensures greatest { result.greatest ≡ int_max extent.greatest value }
{
    Extent {
        least: extent.least.min(value),
        greatest: extent.greatest.max(value),
    }
}

// The difference of two numbers of nodes.
fn difference(a: i32, b: i32) -> i32
    requires a_size { unsigned_abs a ≤ 262143 }
    requires b_size { unsigned_abs b ≤ 262143 }
    ensures { result ≡ a -ℤ b }
{
    a - b
}

// The sum of two numbers of nodes.
fn sum(a: i32, b: i32) -> i32
    requires a_size { unsigned_abs a ≤ 262143 }
    requires b_size { unsigned_abs b ≤ 262143 }
    ensures { result ≡ a +ℤ b }
{
    a + b
}

// The extents of the difference and the sum of two numbers.
fn pair_at(a: i32, b: i32) -> PairExtent
    requires a_size { unsigned_abs a ≤ 262143 }
    requires b_size { unsigned_abs b ≤ 262143 }
    ensures minus { result.minus ≡ record { least = a -ℤ b; greatest = a -ℤ b } }
    ensures plus { result.plus ≡ record { least = a +ℤ b; greatest = a +ℤ b } }
{
    PairExtent {
        minus: extent_at(difference(a, b)),
        plus: extent_at(sum(a, b)),
    }
}

// The extents with two numbers more.
fn pair_extended(pair: PairExtent, a: i32, b: i32) -> PairExtent
    requires a_size { unsigned_abs a ≤ 262143 }
    requires b_size { unsigned_abs b ≤ 262143 }
    ensures minus_least { result.minus.least ≡ int_min pair.minus.least (a -ℤ b) }
    ensures minus_greatest { result.minus.greatest ≡ int_max pair.minus.greatest (a -ℤ b) }
    ensures plus_least { result.plus.least ≡ int_min pair.plus.least (a +ℤ b) }
    ensures plus_greatest { result.plus.greatest ≡ int_max pair.plus.greatest (a +ℤ b) }
{
    PairExtent {
        minus: extended(pair.minus, difference(a, b)),
        plus: extended(pair.plus, sum(a, b)),
    }
}

// The spans of one node, the first one of a face.
fn spans_at(node: [i32; 3]) -> Spans
    requires { Is18 (vector_of node) }
    ensures { (face : List Vec3) → vector_of node ≡ vector_at face 0 → AreFirstSpans face 0 result }
{
    let [x, y, z] = node;
    Spans {
        x: extent_at(x),
        y: extent_at(y),
        z: extent_at(z),
        xy: pair_at(x, y),
        xz: pair_at(x, z),
        yz: pair_at(y, z),
    }
}

// The spans with the next node.
fn with_node(spans: Spans, node: [i32; 3]) -> Spans
    requires { Is18 (vector_of node) }
    ensures { (face : List Vec3) (t : ℕ) → AreFirstSpans face t spans
        → vector_of node ≡ vector_at face (t + 1) → AreFirstSpans face (t + 1) result }
{
    let [x, y, z] = node;
    Spans {
        x: extended(spans.x, x),
        y: extended(spans.y, y),
        z: extended(spans.z, z),
        xy: pair_extended(spans.xy, x, y),
        xz: pair_extended(spans.xz, x, z),
        yz: pair_extended(spans.yz, y, z),
    }
}

/// The spans of a face.
pub(crate) fn spans_of(mesh: &Mesh, face: u32) -> Spans
    requires face { (1 ≤ face) × (face ≤ length mesh.now.faces) }
    ensures { AreSpans (corners_of mesh.now face) result }
{
    let last = corner_count(mesh, face) - 1;
    let mut spans = spans_at(corner(mesh, face, 0));
    for t in 0..last {
        spans = with_node(spans, corner(mesh, face, t + 1));
    }
    spans
}

// Whether no number is above 0.
fn is_low(extent: Extent) -> bool
    ensures { result ≡ int_le extent.greatest (pos 0) }
{
    extent.greatest <= 0
}

// Whether no number is below 0.
fn is_high(extent: Extent) -> bool
    ensures { result ≡ int_le (pos 0) extent.least }
{
    0 <= extent.least
}

// Whether all numbers are above 0.
fn is_positive(extent: Extent) -> bool
    ensures { result ≡ int_lt (pos 0) extent.least }
{
    0 < extent.least
}

// Whether all numbers are below 0.
fn is_negative(extent: Extent) -> bool
    ensures { result ≡ int_lt extent.greatest (pos 0) }
{
    extent.greatest < 0
}

/// Whether one of the four sides of the panel has the whole face beyond it.
pub(crate) fn lies_beyond(spans: &Spans, panel: Panel) -> bool
    ensures { (face : List Vec3) → AreSpans face spans.now → result ≡ is_beyond face panel }
{
    let Spans { xy, xz, yz, .. } = *spans;
    // The ends and the starts of the panel's first and second coordinate.
    match panel {
        Panel::PlusX => is_low(xy.minus) | is_low(xy.plus) | is_low(xz.minus) | is_low(xz.plus),
        Panel::PlusY => is_low(xy.plus) | is_high(xy.minus) | is_low(yz.minus) | is_low(yz.plus),
        Panel::MinusX => is_high(xy.minus)
            | is_high(xy.plus)
            | is_high(xz.plus)
            | is_high(xz.minus),
        Panel::MinusY => is_high(xy.plus) | is_low(xy.minus) | is_high(yz.plus) | is_high(yz.minus),
        Panel::PlusZ => is_high(yz.minus) | is_low(yz.plus) | is_low(xz.plus) | is_high(xz.minus),
        Panel::MinusZ => is_high(yz.plus) | is_low(yz.minus) | is_high(xz.plus) | is_low(xz.minus),
    }
}

/// Whether all nodes are in front of the panel.
pub(crate) fn lies_in_front(spans: &Spans, panel: Panel) -> bool
    ensures { (face : List Vec3) → AreSpans face spans.now → result ≡ is_in_front face panel }
{
    match panel {
        Panel::PlusX => is_positive(spans.x),
        Panel::PlusY => is_positive(spans.y),
        Panel::MinusX => is_negative(spans.x),
        Panel::MinusY => is_negative(spans.y),
        Panel::PlusZ => is_positive(spans.z),
        Panel::MinusZ => is_negative(spans.z),
    }
}
