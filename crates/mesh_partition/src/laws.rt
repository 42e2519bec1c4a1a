// What decides whether the sphere is covered, and what a report says.
ghost use Rattle.mesh_partition.specs.MeshReport.{OneMeshReport};
ghost use Rattle.mesh_partition.specs.Sphere.{SixFacesDecide};

/// A mesh covers the sphere exactly where it covers the six faces of the smallest cubed sphere.
pub fn law_six_faces_decide()
    ensures { SixFacesDecide }
{}

/// A mesh has at most one report.
pub fn law_one_mesh_report()
    ensures { OneMeshReport }
{}
