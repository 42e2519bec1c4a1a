// That the fault of an overlap as one of two meshes is determined.
ghost use Rattle.clip.specs.Overlaps.{OverlapParts};
ghost use Rattle.vec_exact.specs.declared.RawMesh.{RawMesh};
ghost use Rattle.offline_map.specs.MapFaults.{OneMapFault};

/// An overlap has at most one first fault as one of two meshes, and none where it has a map.
pub fn law_one_map_fault()
    ensures { (a b : RawMesh) (o : OverlapParts) → OneMapFault a b o }
{}
