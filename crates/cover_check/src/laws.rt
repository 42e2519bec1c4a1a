// What a count says.
ghost use Rattle.cover_check.specs.CoveredTargets.{OneCoverCount};

/// Two meshes have at most one count of covered targets.
pub fn law_one_cover_count()
    ensures { OneCoverCount }
{}
