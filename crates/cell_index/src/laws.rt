// What candidates are for.
ghost use Rattle.cell_index.specs.Candidate.{LawMeetsIsCandidate};
ghost use Rattle.cell_index.specs.CandidateList.{LawCandidatesOf};
ghost use Rattle.cell_index.specs.IndexOf.{LawSharersAreCandidates};
ghost use Rattle.cell_index.specs.Panels.{LawSeenIsPlaced};

/// Two accepted faces that meet are candidates, at any fineness.
pub fn law_meets_is_candidate()
    ensures { LawMeetsIsCandidate }
{}

/// In the index of a mesh, the faces that share a cell with a face's boxes are its candidates.
pub fn law_sharers_are_candidates()
    ensures { LawSharersAreCandidates }
{}

/// The list of the candidates of a face has exactly the faces that are candidates.
pub fn law_candidates_of()
    ensures { LawCandidatesOf }
{}

/// The panels of the index are those of the cubed sphere: to see a direction from a panel and to
/// place its coordinates there undo each other.
pub fn law_seen_is_placed()
    ensures { LawSeenIsPlaced }
{}
