// That meetings and overlaps are determined by the two meshes.
ghost use Rattle.overlap_run.specs.Pairs.{OneListOfPairs};
ghost use Rattle.overlap_run.specs.Whole.{OneOverlap};

/// Two meshes have at most one list of the pairs of faces that meet.
pub fn law_one_list_of_pairs()
    ensures { OneListOfPairs }
{}

/// Two meshes have at most one overlap.
pub fn law_one_overlap()
    ensures { OneOverlap }
{}
