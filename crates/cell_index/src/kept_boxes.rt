// The boxes of faces as an index keeps them: in 16 bits, since it keeps six for each face.
ghost use Rattle.std.specs.Prelude.{◌≡◌, ◌≤◌, pos, ◌≤ℤ◌, Some, unsigned_abs};
ghost use Rattle.cell_index.specs.declared.CellBox.{CellBox as Wide};
ghost use Rattle.cell_index.specs.Kept.{IsPanelBox, AreBoxes};

use crate::{Boxes, CellBox};
use std::marker::Model;

/// A box whose numbers have 16 bits.
#[derive(Drop)]
pub struct NarrowBox {
    u0: i16,
    u1: i16,
    v0: i16,
    v1: i16,
}

impl Model for NarrowBox {
    ghost use Rattle.cell_index.specs.declared.CellBox.{CellBox};

    ghost Value = { CellBox };

    ghost view = { λ b. record { u0 = b.u0; u1 = b.u1; v0 = b.v0; v1 = b.v1 } };
}

/// The boxes of a face on the six panels, as an index keeps them.
#[derive(Drop)]
pub struct KeptBoxes {
    panel: [Option<NarrowBox>; 6],
}

impl Model for KeptBoxes {
    ghost use Rattle.cell_index.specs.declared.Boxes.{Boxes};

    ghost Value = { Boxes };

    ghost view = { λ kept. record { panel = kept.panel } };
}

// A number of 9 bits in 16.
fn narrow_number(x: i32) -> i16
    requires { unsigned_abs x ≤ 256 }
    ensures { result ≡ x }
{
    x as i16
}

// A box of a panel in 16 bits.
fn narrow(b: CellBox, k: i32) -> NarrowBox
    requires least { pos 1 ≤ℤ k }
    requires greatest { k ≤ℤ pos 256 }
    requires inside { IsPanelBox k b }
    ensures { result ≡ b }
{
    NarrowBox {
        u0: narrow_number(b.u0),
        u1: narrow_number(b.u1),
        v0: narrow_number(b.v0),
        v1: narrow_number(b.v1),
    }
}

fn narrow_at(own: Option<CellBox>, k: i32) -> Option<NarrowBox>
    requires least { pos 1 ≤ℤ k }
    requires greatest { k ≤ℤ pos 256 }
    requires fair { (b : Wide) → own ≡ Some b → IsPanelBox k b }
    ensures { result ≡ own }
{
    match own {
        None => None,
        Some(b) => Some(narrow(b, k)),
    }
}

fn narrow_on(panel: &[Option<CellBox>; 6], k: i32) -> [Option<NarrowBox>; 6]
    requires least { pos 1 ≤ℤ k }
    requires greatest { k ≤ℤ pos 256 }
    requires fair { AreBoxes k panel.now }
    ensures { result ≡ panel.now }
{
    let [a, b, c, d, e, f] = *panel;
    [
        narrow_at(a, k),
        narrow_at(b, k),
        narrow_at(c, k),
        narrow_at(d, k),
        narrow_at(e, k),
        narrow_at(f, k),
    ]
}

/// The boxes of a face at the fineness `k`, to be kept.
pub(crate) fn keep(boxes: &Boxes, k: i32) -> KeptBoxes
    requires least { pos 1 ≤ℤ k }
    requires greatest { k ≤ℤ pos 256 }
    requires fair { AreBoxes k boxes.now.panel }
    ensures { result ≡ boxes.now }
{
    KeptBoxes {
        panel: narrow_on(&boxes.panel, k),
    }
}

fn wide(b: &NarrowBox) -> CellBox
    ensures { result ≡ b.now }
{
    CellBox {
        u0: i32::from(b.u0),
        u1: i32::from(b.u1),
        v0: i32::from(b.v0),
        v1: i32::from(b.v1),
    }
}

fn wide_at(own: &Option<NarrowBox>) -> Option<CellBox>
    ensures { result ≡ own.now }
{
    match own {
        None => None,
        Some(b) => Some(wide(b)),
    }
}

fn wide_on(panel: &[Option<NarrowBox>; 6]) -> [Option<CellBox>; 6]
    ensures { result ≡ panel.now }
{
    let [a, b, c, d, e, f] = panel;
    [
        wide_at(a),
        wide_at(b),
        wide_at(c),
        wide_at(d),
        wide_at(e),
        wide_at(f),
    ]
}

/// The boxes that are kept.
pub(crate) fn kept(boxes: &KeptBoxes) -> Boxes
    ensures { result ≡ boxes.now }
{
    Boxes {
        panel: wide_on(&boxes.panel),
    }
}
