// A generated mesh, checked.
ghost use Rattle.std.specs.Prelude.{◌≡◌, ◌≤◌, ◌⊎◌, Err, IfOk, OnOk, length};
ghost use Rattle.vec_exact.specs.Counts.{AreAllowedCounts};
ghost use Rattle.mesh_check.specs.Mesh.{IsAcceptedMesh};
ghost use Rattle.mesh_check.specs.FirstFault.{IsFirstMeshFault};
ghost use Rattle.mesh_check.specs.declared.faults.MeshFault.{MeshFault};
ghost use Rattle.mesh_check.specs.declared.faults.MeshFault.TheVariants.{NoMemory as MeshNoMemory};
ghost use Rattle.mesh_check.specs.declared.faults.GenFault.TheVariants.{Mesh as FaultOfMesh, NoMemory};

use crate::{GenFault, Mesh, check};
use std::alloc::Global;
use vec_exact::RawMesh;

/// The mesh of the same nodes and faces as `raw`, which a generator made: at least one face, and
/// counts that pass `check_counts`.
///
/// `Mesh(f)` comes exactly where `f` is the first fault of `raw`, and is never
/// `Mesh(MeshFault::NoMemory)`. `NoMemory` may come in place of any answer. At a fault `raw` is
/// dropped.
pub fn check_generated(alloc: Global, raw: RawMesh) -> Result<Mesh, GenFault>
    requires some_face { 1 ≤ length raw.faces }
    requires counts { AreAllowedCounts (length raw.nodes) (length raw.faces) }
    ensures same { IfOk result (λ mesh. mesh ≡ raw) }
    ensures accepted { OnOk result (IsAcceptedMesh raw) }
    ensures fault { (fault : MeshFault) → result ≡ Err (FaultOfMesh fault)
        → IsFirstMeshFault raw fault }
    ensures outer { result ≡ Err (FaultOfMesh MeshNoMemory) → ⊥ }
    ensures refused { (fault : MeshFault) → IsFirstMeshFault raw fault
        → (result ≡ Err (FaultOfMesh fault)) ⊎ (result ≡ Err NoMemory) }
{
    let mesh = check(alloc, raw)?;
    Ok(mesh)
}
