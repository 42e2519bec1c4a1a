// Why a file gave nothing.
use crate::LoadFault;
use vec_exact::NoMemory;

/// Why a file gave nothing of its kind: it wasn't loaded, or what it holds has a fault `C` of its
/// own, which is never want of memory.
#[derive(Clone, Copy, Debug, PartialEq, Eq)]
pub enum FileRefusal<C> {
    Load(LoadFault),
    Content(C),
}

impl<C> From<LoadFault> for FileRefusal<C> {
    ghost use Rattle.std.specs.Prelude.{◌≡◌};
    ghost use Rattle.remap_load.specs.declared.refusal.FileRefusal.TheVariants.{Load};

    ghost from_gives = { λ fault refusal. refusal ≡ Load fault };

    fn from(fault: LoadFault) -> Self {
        FileRefusal::Load(fault)
    }
}

impl<C> From<NoMemory> for FileRefusal<C> {
    ghost use Rattle.std.specs.Prelude.{◌≡◌};
    ghost use Rattle.remap_load.specs.declared.refusal.FileRefusal.TheVariants.{Load};
    ghost use Rattle.remap_load.specs.declared.fault.LoadFault.TheVariants as faults;

    ghost from_gives = { λ _ refusal. refusal ≡ Load faults.NoMemory };

    fn from(_: NoMemory) -> Self {
        FileRefusal::Load(LoadFault::NoMemory)
    }
}
