// Boxes that share a cell.
ghost use Rattle.std.specs.Prelude.{IsTrue, ◌↔◌};
ghost use Rattle.cell_index.specs.Candidate.{SharesCell};
ghost use Rattle.cell_index.specs.IndexOf.{Share, IsSharer};

use crate::kept_boxes::{KeptBoxes, kept};
use crate::{Boxes, CellBox};

// Whether there are both boxes, and they share a cell.
fn shares_cell(a: Option<CellBox>, b: Option<CellBox>) -> bool
    ensures { IsTrue result ↔ SharesCell a b }
{
    match a {
        None => false,
        Some(x) => match b {
            None => false,
            Some(y) => { (x.u0 <= y.u1) & (y.u0 <= x.u1) & (x.v0 <= y.v1) & (y.v0 <= x.v1) }
        },
    }
}

// Whether two faces have boxes that share a cell on some panel.
fn share(a: &Boxes, b: &Boxes) -> bool
    ensures { IsTrue result ↔ Share a.now.panel b.now.panel }
{
    for p in 0..6 {
        if shares_cell(a.panel[p], b.panel[p]) {
            return true;
        }
    }
    false
}

// Whether j is the number of a face that shares a cell with these boxes.
pub(crate) fn is_sharer(own: &Boxes, all: &[KeptBoxes], j: u32) -> bool
    ensures { IsTrue result ↔ IsSharer own.now.panel all.now j }
{
    if j < 1 {
        return false;
    }
    let place = j as usize - 1;
    if all.len() <= place {
        return false;
    }
    share(own, &kept(&all[place]))
}
