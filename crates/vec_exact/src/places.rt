// Places in a cycle, from 0.
ghost use Rattle.std.specs.Prelude.{◌≡◌, ◌<◌, ◌≤◌};
ghost use Rattle.vec_exact.specs.Cycle.{after, shifted};

/// The place after `t` in a cycle of `count` places. Places count from 0.
#[tactic(auto, using(crate::proofs::Cycles::after_inner, crate::proofs::Cycles::after_last))]
pub fn next_place(count: usize, t: usize) -> usize
    requires { t < count }
    ensures value { result ≡ after count t }
    ensures below { result < count }
{
    if t + 1 == count { 0 } else { t + 1 }
}

/// The place `t` places after `first` in a cycle of `count` places. Places count from 0.
#[tactic(auto, using(crate::proofs::Cycles::shifted_early, crate::proofs::Cycles::shifted_late))]
pub fn place_after(count: usize, first: usize, t: usize) -> usize
    requires first { first < count }
    requires within { t ≤ count }
    ensures value { result ≡ shifted count first t }
    ensures below { t < count → result < count }
{
    if t < count - first {
        t + first
    } else {
        t - (count - first)
    }
}
