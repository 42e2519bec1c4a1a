//! Whole-number vectors and raw meshes, as every layer above names them.
#![tactic(auto)]

mod limits;
mod lists;
mod panels;
mod places;
mod rounding;
mod steps;
mod vectors;

ghost use Rattle.std.specs.Prelude.{◌≡◌};

pub use limits::{
    MAX_COORDINATE, MAX_FACE_NODES, MAX_FACES, MAX_FILE_LEN, MAX_MEASURE, MAX_NODES, MAX_PIECES,
    MAX_WORKERS,
};
pub use lists::{Faces, Ints, Longs, Nodes};
pub use panels::Panel;
pub use places::{next_place, place_after};
pub use rounding::{isqrt, round_div};
use std::alloc::{AllocError, AllocFailed};
pub use steps::Steps;
pub use vectors::{Sign, cross, det, dot, side, vector};

/// Memory ran out.
#[derive(Clone, Copy, Debug, PartialEq, Eq)]
pub struct NoMemory;

impl From<AllocError> for NoMemory {
    ghost from_gives = { λ _ e. e ≡ e };

    fn from(_: AllocError) -> Self {
        NoMemory
    }
}

impl<T: Drop> From<AllocFailed<T>> for NoMemory {
    ghost from_gives = { λ _ e. e ≡ e };

    fn from(_: AllocFailed<T>) -> Self {
        NoMemory
    }
}

/// A triple of whole numbers: a node, a direction, or the plane of an edge.
#[derive(Clone, Copy, Default, Debug, PartialEq, Eq)]
pub struct Vec3 {
    pub x: i128,
    pub y: i128,
    pub z: i128,
}

/// A mesh as a file has it: nodes, and faces by the numbers of their nodes, counted from 1.
/// Nothing is known of the numbers.
#[derive(Drop)]
pub struct RawMesh {
    pub nodes: Nodes,
    pub faces: Faces,
}
