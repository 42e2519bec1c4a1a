// That what is made is determined.
ghost use Rattle.gen_ico.specs.Made.{OneMade};

/// At most one raw mesh is the icosahedral mesh of a resolution, and at most one its dual.
pub fn law_one_made()
    ensures { OneMade }
{}
