// Why two meshes and an overlap have no map.
ghost use Rattle.std.specs.Prelude.{◌≡◌};
ghost use Rattle.offline_map.specs.declared.faults.MapFault.TheVariants.{NoMemory};

use std::alloc::{AllocError, AllocFailed};

/// The first fault of an overlap as one of two meshes. Pieces and faces are named by their numbers,
/// which count from 1.
#[derive(Clone, Copy, Debug, PartialEq, Eq)]
pub enum MapFault {
    /// The overlap has this source count, and the source mesh another one.
    CountsA {
        /// The source count of the overlap.
        file: u32,
        /// How many faces the source mesh has.
        mesh: u32,
    },
    /// The overlap has this target count, and the target mesh another one.
    CountsB {
        /// The target count of the overlap.
        file: u32,
        /// How many faces the target mesh has.
        mesh: u32,
    },
    /// The ring of this piece is not that of its two faces, or its corners are not the grid corners
    /// of that ring.
    Row(u32),
    /// This target face has no piece.
    Uncovered(u32),
    /// Memory ran out.
    NoMemory,
}

impl From<AllocError> for MapFault {
    ghost from_gives = { λ _ fault. fault ≡ NoMemory };

    fn from(_: AllocError) -> Self {
        MapFault::NoMemory
    }
}

impl<T: Drop> From<AllocFailed<T>> for MapFault {
    ghost from_gives = { λ _ fault. fault ≡ NoMemory };

    fn from(_: AllocFailed<T>) -> Self {
        MapFault::NoMemory
    }
}
