// That the first fault of a mesh is determined.
ghost use Rattle.vec_exact.specs.declared.RawMesh.{RawMesh};
ghost use Rattle.mesh_check.specs.FirstFault.{OneMeshFault};

/// A raw mesh has at most one first fault, and none where it is accepted.
pub fn law_one_mesh_fault()
    ensures { (raw : RawMesh) → OneMeshFault raw }
{}
