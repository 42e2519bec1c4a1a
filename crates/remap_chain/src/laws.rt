// That what the chain gives is determined by the two meshes and the values.
ghost use Rattle.std.specs.Prelude.{ℤ, List};
ghost use Rattle.vec_exact.specs.declared.RawMesh.{RawMesh};
ghost use Rattle.remap_chain.specs.Chains.{OneChain};

/// Of two meshes and values the chain gives at most one answer, it has at most one fault, and it has
/// none where there is an answer.
pub fn law_one_chain()
    ensures { (a b : RawMesh) (values : List ℤ) → OneChain a b values }
{}
