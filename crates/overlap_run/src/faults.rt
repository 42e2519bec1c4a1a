// Why a run gives no overlap.
use vec_exact::NoMemory as OutOfMemory;

/// Why a run gives no overlap.
#[derive(Clone, Copy, Debug, PartialEq, Eq)]
pub enum RunFault {
    /// More than 8,388,608 pairs of faces meet: this many.
    TooManyPieces(u64),
    /// Memory ran out.
    NoMemory,
}

impl From<OutOfMemory> for RunFault {
    ghost use Rattle.std.specs.Prelude.{◌≡◌};
    ghost use Rattle.overlap_run.specs.declared.faults.RunFault.TheVariants as faults;

    ghost from_gives = { λ _ e. e ≡ faults.NoMemory };

    fn from(_: OutOfMemory) -> Self {
        RunFault::NoMemory
    }
}
