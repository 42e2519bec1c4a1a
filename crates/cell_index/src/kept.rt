// The cells of a box, and how an index keeps the faces of each cell.
ghost use Rattle.std.specs.Prelude.{◌≡◌, ◌*◌, ◌<◌, ◌≤◌, pos, ◌≤ℤ◌};
ghost use Rattle.cell_index.specs.Kept.{IsPanelBox, side, shifted, Fits, place_of};

use crate::CellBox;

/// A range of cells, counted from the corner of the panel; both ends are in it.
#[derive(Clone, Copy)]
pub struct CellRange {
    pub x0: u32,
    pub x1: u32,
    pub y0: u32,
    pub y1: u32,
}

/// The faces of each cell: those of cell c stand from `starts[c]` to `starts[c + 1]` in `faces`.
/// A face whose box has many cells stands in `large` instead, once for each such box.
#[derive(Drop)]
pub struct Cells {
    pub starts: Vec<u32>,
    pub faces: Vec<u32>,
    pub large: Vec<u32>,
}

// The box, counted from the corner.
pub(crate) fn shift(b: CellBox, k: i32) -> CellRange
    requires least { pos 1 ≤ℤ k }
    requires greatest { k ≤ℤ pos 256 }
    requires inside { IsPanelBox k b }
    ensures value { result ≡ shifted k b }
    ensures fits { Fits (side k) result }
{
    CellRange {
        x0: (b.u0 + k) as u32,
        x1: (b.u1 + k) as u32,
        y0: (b.v0 + k) as u32,
        y1: (b.v1 + k) as u32,
    }
}

// The number of a cell, with s cells a side.
pub(crate) fn cell_number(s: u32, panel: u32, x: u32, y: u32) -> usize
    requires side { s ≤ 512 }
    requires on { panel < 6 }
    requires x_in { x < s }
    requires y_in { y < s }
    ensures value { result ≡ place_of s panel x y }
    ensures below { result < 6 * s * s }
{
    (panel as usize * s as usize + x as usize) * s as usize + y as usize
}
