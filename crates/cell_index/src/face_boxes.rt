// The boxes of a face.
ghost use Rattle.std.specs.Prelude.{◌≡◌, ◌<◌, ◌≤◌, pos, ◌*ℤ◌, ◌≤ℤ◌, ◌<ℤ◌, length, unsigned_abs, false, IsTrue, if◌then◌else◌};
ghost use Rattle.std.specs.Int.{int_min, int_max};
ghost use Rattle.mesh_check.specs.Mesh.{corners_of};
ghost use Rattle.cell_index.specs.Box.{is_beyond, is_in_front, floor_of, u_floor, v_floor, range_of, is_empty, whole_panel, box_of, boxes};
ghost use Rattle.cell_index.specs.Extents.{AreSpans};
ghost use Rattle.cell_index.specs.Fineness.{fineness_of};

use crate::coordinates::{corner_count, see};
use crate::spans::{Spans, lies_beyond, lies_in_front, spans_of};
use crate::{Boxes, CellBox};
use mesh_check::Mesh;
use vec_exact::Panel;

// `k s / w` rounded down.
fn floor_at(k: i32, s: i32, w: i32) -> i32
    requires least { pos 1 ≤ℤ k }
    requires greatest { k ≤ℤ pos 256 }
    requires s_size { unsigned_abs s ≤ 262143 }
    requires front { pos 0 <ℤ w }
    ensures { result ≡ floor_of (k *ℤ s) w }
{
    (k * s).div_euclid(w)
}

// The cell of a node, in each coordinate.
#[derive(Clone, Copy)]
struct NodeCell {
    u: i32,
    v: i32,
}

// The cell of the node at place t.
fn node_cell(mesh: &Mesh, face: u32, panel: Panel, k: i32, t: u32) -> NodeCell
    requires face { (1 ≤ face) × (face ≤ length mesh.now.faces) }
    requires least { pos 1 ≤ℤ k }
    requires greatest { k ≤ℤ pos 256 }
    requires front { IsTrue (is_in_front (corners_of mesh.now face) panel) }
    requires place { t < length (corners_of mesh.now face) }
    requires small { t < 16 }
    ensures u_floor { result.u ≡ u_floor (corners_of mesh.now face) panel k t }
    ensures v_floor { result.v ≡ v_floor (corners_of mesh.now face) panel k t }
{
    let at = see(mesh, face, panel, t);
    NodeCell {
        u: floor_at(k, at.u, at.w),
        v: floor_at(k, at.v, at.w),
    }
}

// The box of one cell.
fn only(at: NodeCell) -> CellBox
    ensures { result ≡ record { u0 = at.u; u1 = at.u; v0 = at.v; v1 = at.v } }
{
    CellBox {
        u0: at.u,
        u1: at.u,
        v0: at.v,
        v1: at.v,
    }
}

// The box with one cell more.
fn widened(range: CellBox, at: NodeCell) -> CellBox
    ensures u0 { result.u0 ≡ int_min range.u0 at.u }
    ensures u1 { result.u1 ≡ int_max range.u1 at.u }
    ensures v0 { result.v0 ≡ int_min range.v0 at.v }
    ensures v1 { result.v1 ≡ int_max range.v1 at.v }
{
    CellBox {
        u0: range.u0.min(at.u),
        u1: range.u1.max(at.u),
        v0: range.v0.min(at.v),
        v1: range.v1.max(at.v),
    }
}

// What two boxes have in common.
fn common(a: CellBox, b: CellBox) -> CellBox
    ensures u0 { result.u0 ≡ int_max a.u0 b.u0 }
    ensures u1 { result.u1 ≡ int_min a.u1 b.u1 }
    ensures v0 { result.v0 ≡ int_max a.v0 b.v0 }
    ensures v1 { result.v1 ≡ int_min a.v1 b.v1 }
{
    CellBox {
        u0: a.u0.max(b.u0),
        u1: a.u1.min(b.u1),
        v0: a.v0.max(b.v0),
        v1: a.v1.min(b.v1),
    }
}

// All cells of a panel.
fn whole(k: i32) -> CellBox
    requires least { pos 1 ≤ℤ k }
    requires greatest { k ≤ℤ pos 256 }
    ensures { result ≡ whole_panel k }
{
    CellBox {
        u0: -k,
        u1: k - 1,
        v0: -k,
        v1: k - 1,
    }
}

// The cells of the nodes and all between them, within the panel.
fn fit(mesh: &Mesh, face: u32, panel: Panel, k: i32) -> CellBox
    requires face { (1 ≤ face) × (face ≤ length mesh.now.faces) }
    requires least { pos 1 ≤ℤ k }
    requires greatest { k ≤ℤ pos 256 }
    requires front { IsTrue (is_in_front (corners_of mesh.now face) panel) }
    ensures { result ≡ range_of (corners_of mesh.now face) panel k }
{
    let last = corner_count(mesh, face) - 1;
    let mut range = only(node_cell(mesh, face, panel, k, 0));
    for t in 0..last {
        range = widened(range, node_cell(mesh, face, panel, k, t + 1));
    }
    common(whole(k), range)
}

// The box, if it has a cell.
fn unless_empty(fitted: CellBox) -> Option<CellBox>
    ensures { result ≡ (if is_empty fitted then None else Some fitted) }
{
    if (fitted.u1 < fitted.u0) | (fitted.v1 < fitted.v0) {
        None
    } else {
        Some(fitted)
    }
}

// The box of a face on a panel that doesn't have it beyond one of its sides.
#[inline(never)]
fn box_within(mesh: &Mesh, face: u32, spans: &Spans, panel: Panel, k: i32) -> Option<CellBox>
    requires face { (1 ≤ face) × (face ≤ length mesh.now.faces) }
    requires spans { AreSpans (corners_of mesh.now face) spans.now }
    requires within { is_beyond (corners_of mesh.now face) panel ≡ false }
    requires least { pos 1 ≤ℤ k }
    requires greatest { k ≤ℤ pos 256 }
    ensures { result ≡ box_of (corners_of mesh.now face) panel k }
{
    if lies_in_front(spans, panel) {
        unless_empty(fit(mesh, face, panel, k))
    } else {
        Some(whole(k))
    }
}

// The box of a face on one panel. Most panels have the face beyond a side and end here, so this is put
// where it is called, once for each panel, and the rest is a call.
#[inline(always)]
fn box_on(mesh: &Mesh, face: u32, spans: &Spans, panel: Panel, k: i32) -> Option<CellBox>
    requires face { (1 ≤ face) × (face ≤ length mesh.now.faces) }
    requires spans { AreSpans (corners_of mesh.now face) spans.now }
    requires least { pos 1 ≤ℤ k }
    requires greatest { k ≤ℤ pos 256 }
    ensures { result ≡ box_of (corners_of mesh.now face) panel k }
{
    if lies_beyond(spans, panel) {
        return None;
    }
    box_within(mesh, face, spans, panel, k)
}

/// The boxes at the fineness `k` of the face with this number, which counts from 1.
///
/// The face has no box on a panel that has it beyond one of its four sides, nor where no cell of
/// the panel is left. Where all nodes are in front of the panel, the box holds the cells of the
/// nodes and all between them. Else it is the whole panel.
pub fn boxes_of(mesh: &Mesh, face: u32, k: i32) -> Boxes
    requires face { (1 ≤ face) × (face ≤ length mesh.now.faces) }
    requires least { pos 1 ≤ℤ k }
    requires greatest { k ≤ℤ pos 256 }
    ensures { result.panel ≡ boxes (corners_of mesh.now face) k }
{
    let spans = spans_of(mesh, face);
    Boxes {
        panel: [
            box_on(mesh, face, &spans, Panel::PlusX, k),
            box_on(mesh, face, &spans, Panel::PlusY, k),
            box_on(mesh, face, &spans, Panel::MinusX, k),
            box_on(mesh, face, &spans, Panel::MinusY, k),
            box_on(mesh, face, &spans, Panel::PlusZ, k),
            box_on(mesh, face, &spans, Panel::MinusZ, k),
        ],
    }
}

/// The fineness of a mesh with this many faces: the whole square root of a 24th of them, held
/// between 1 and 256. At the fineness k a panel has 2 k by 2 k cells.
pub fn fineness(faces: u32) -> i32
    ensures value { result ≡ fineness_of faces }
    ensures least { pos 1 ≤ℤ result }
    ensures greatest { result ≤ℤ pos 256 }
{
    (faces / 24).isqrt().clamp(1, 256) as i32
}
