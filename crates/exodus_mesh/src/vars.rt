// The variables of a mesh in a file.
use std::marker::Model;

/// The variables that hold the coordinates, by their places in the list of variables, from 0.
#[derive(Clone, Copy, Debug, PartialEq, Eq)]
pub enum CoordVars {
    /// `coord`: first all x, then all y, then all z.
    Whole(u32),
    /// `coordx`, `coordy` and `coordz`.
    Split(u32, u32, u32),
}

/// A block of faces: the place of its variable in the list of variables, from 0, how many faces it
/// has, and how many numbers stand in the row of each.
#[derive(Clone, Copy, Debug, PartialEq, Eq)]
pub struct BlockVar {
    pub var: u32,
    pub faces: u32,
    pub width: u32,
}

/// Blocks of faces in their order, seen as a list.
#[derive(Drop)]
pub struct BlockVars {
    pub items: Vec<BlockVar>,
}

impl Model for BlockVars {
    ghost use Rattle.std.specs.Prelude.{List};
    ghost use Rattle.exodus_mesh.specs.declared.vars.BlockVar.{BlockVar};

    ghost Value = { List BlockVar };

    ghost view = { λ s. s.items.items };
}

/// The variables of a mesh: where its coordinates stand, how many nodes it has, its blocks
/// `connect1`, `connect2` and so on, and how many faces all blocks have together.
#[derive(Drop)]
pub struct MeshVars {
    pub coord: CoordVars,
    pub nodes: u32,
    pub blocks: BlockVars,
    pub faces: u64,
}
