// Node counts and face counts.
ghost use Rattle.std.specs.Prelude.{◌≡◌, IfErr, OnOk, Some, None};
ghost use Rattle.vec_exact.specs.Counts.{AreAllowedCounts};
ghost use Rattle.mesh_check.specs.FirstFault.{count_fault};

use crate::MeshFault;

/// Whether a mesh may have this many nodes and faces: at most 4,194,304 nodes, and at most
/// 1,048,576 faces.
///
/// `TooManyNodes` comes before `TooManyFaces`; each holds the count.
pub fn check_counts(nodes: u32, faces: u32) -> Result<(), MeshFault>
    ensures allowed { OnOk result (AreAllowedCounts nodes faces) }
    ensures no_fault { OnOk result (count_fault nodes faces ≡ None) }
    ensures fault { IfErr result (λ fault. count_fault nodes faces ≡ Some fault) }
{
    if 4_194_304 < nodes {
        return Err(MeshFault::TooManyNodes(nodes));
    }
    if 1_048_576 < faces {
        return Err(MeshFault::TooManyFaces(faces));
    }
    Ok(())
}
