// What is wrong with a mesh.
ghost use Rattle.std.specs.Prelude.{◌≡◌};
ghost use Rattle.mesh_check.specs.declared.faults.MeshFault.TheVariants.{NoMemory};
ghost use Rattle.mesh_check.specs.declared.faults.GenFault.TheVariants.{NoMemory as GenNoMemory};
ghost use Rattle.mesh_check.specs.FirstFault.{gen_fault_of};

use std::alloc::AllocError;
use vec_exact::NoMemory;

/// The first fault of a mesh. Nodes and faces are named by their numbers, which count from 1.
#[derive(Clone, Copy, Debug, PartialEq, Eq)]
pub enum MeshFault {
    /// There are this many nodes, more than 4,194,304.
    TooManyNodes(u32),
    /// There are this many faces, more than 1,048,576.
    TooManyFaces(u32),
    /// A component of this node is above 262,143 in size.
    CoordRange(u32),
    /// This node is the zero triple.
    ZeroNode(u32),
    /// A node number of this face is below 1 or above the node count.
    NodeNumber(u32),
    /// This face has fewer than 3 or more than 16 nodes.
    FaceSize(u32),
    /// This face is not strictly convex.
    NotConvex(u32),
    /// Memory ran out.
    NoMemory,
}

impl From<AllocError> for MeshFault {
    ghost from_gives = { λ _ fault. fault ≡ NoMemory };

    fn from(_: AllocError) -> Self {
        MeshFault::NoMemory
    }
}

/// Why a generator gives no mesh.
#[derive(Clone, Copy, Debug, PartialEq, Eq)]
pub enum GenFault {
    /// The mesh that it made has this first fault, which is never `MeshFault::NoMemory`.
    Mesh(MeshFault),
    /// Memory ran out.
    NoMemory,
}

impl From<AllocError> for GenFault {
    ghost from_gives = { λ _ fault. fault ≡ GenNoMemory };

    fn from(_: AllocError) -> Self {
        GenFault::NoMemory
    }
}

impl From<MeshFault> for GenFault {
    ghost from_gives = { λ mesh_fault fault. fault ≡ gen_fault_of mesh_fault };

    fn from(fault: MeshFault) -> Self {
        match fault {
            MeshFault::NoMemory => GenFault::NoMemory,
            _ => GenFault::Mesh(fault),
        }
    }
}
