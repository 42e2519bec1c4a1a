// Cells as lists of planes.
use std::marker::Model;

/// The plane of an edge, turned round where `neg` holds.
///
/// `source` is a face of the source mesh, or 0 for the target face. The edge is one of that face.
/// Faces and edges count from 1.
#[derive(Clone, Copy, Debug, PartialEq, Eq)]
pub struct CellPlane {
    pub source: u32,
    pub edge: u32,
    pub neg: bool,
}

/// A cell: the directions on which all of its planes are positive.
#[derive(Drop)]
pub struct Cell {
    pub items: Vec<CellPlane>,
}

impl Model for Cell {
    ghost use Rattle.std.specs.Prelude.{List};
    ghost use Rattle.cover_cells.specs.declared.cells.CellPlane.{CellPlane};

    ghost Value = { List CellPlane };

    ghost view = { λ cell. cell.items.items };
}

/// Cells of one target face.
#[derive(Drop)]
pub struct Cells {
    pub items: Vec<Cell>,
}

impl Model for Cells {
    ghost use Rattle.std.specs.Prelude.{List};
    ghost use Rattle.cover_cells.specs.declared.cells.CellPlane.{CellPlane};

    ghost Value = { List (List CellPlane) };

    ghost view = { λ cells. cells.items.items };
}
