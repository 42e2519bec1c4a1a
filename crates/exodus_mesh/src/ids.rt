// What is looked for in a file by its name, and what is wrong with what is found.
ghost use Rattle.std.specs.Prelude.{◌≡◌};
ghost use Rattle.exodus_mesh.specs.declared.ids.NameFault.TheVariants.{NoMemory};

use std::alloc::{AllocError, AllocFailed};

/// A name in a file: a dimension, a variable or a global attribute of a mesh file, an overlap file
/// or a map file. `Connect` is `connectN` for the block with this number, which counts from 1. `Var`
/// is the name that `--var` gave.
#[derive(Clone, Copy, Debug, PartialEq, Eq)]
pub enum NameId {
    Coord,
    CoordX,
    CoordY,
    CoordZ,
    NumElBlk,
    Connect(u32),
    FacesA,
    FacesB,
    Pieces,
    Source,
    Target,
    RingSize,
    RingPlane,
    Corner,
    Col,
    Row,
    S,
    AreaA,
    AreaB,
    Var,
}

/// The first fault of the names in a file.
#[derive(Clone, Copy, Debug, PartialEq, Eq)]
pub enum NameFault {
    /// Nothing has this name.
    Missing(NameId),
    /// What has this name does not have the right dimensions or lengths.
    Shape(NameId),
    /// What has this name is of another type than those that are read there.
    Kind(NameId),
    /// Memory ran out.
    NoMemory,
}

impl From<AllocError> for NameFault {
    ghost from_gives = { λ _ fault. fault ≡ NoMemory };

    fn from(_: AllocError) -> Self {
        NameFault::NoMemory
    }
}

impl<T: Drop> From<AllocFailed<T>> for NameFault {
    ghost from_gives = { λ _ fault. fault ≡ NoMemory };

    fn from(_: AllocFailed<T>) -> Self {
        NameFault::NoMemory
    }
}
