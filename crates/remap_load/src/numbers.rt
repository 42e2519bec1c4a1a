// Lists of numbers that the bytes of variables spell.
ghost use Rattle.std.specs.Prelude.{◌≡◌, ◌%◌, ℤ, Bool, List, true, length, IfOk};
ghost use Rattle.nc_write.specs.Kinds.{size_of};
ghost use Rattle.nc_write.specs.declared.NcKind.{NcKind as Kind};
ghost use Rattle.nc_format.specs.Numbers.{numbers_in};

use nc_format::{int_values, long_values};
use nc_write::NcKind;
use std::alloc::Global;
use vec_exact::{Ints, Longs, NoMemory};

/// A list of numbers, as the values of variables are kept: `Ints` in 32 bits, `Longs` in 64.
pub trait Numbers: Sized + Drop {
    /// The types of variables that it can keep.
    ghost keeps: { Kind → Bool };

    /// Its numbers.
    ghost numbers: { Self → List ℤ };

    /// The numbers that bytes of such a type spell, one after another. It may come from the first
    /// bytes of a file or from all of them.
    fn spelled(alloc: Global, kind: NcKind, bytes: &[u8]) -> Result<Self, NoMemory>
        requires kind { keeps kind ≡ true }
        requires len { length bytes.now % size_of kind ≡ 0 }
        ensures { IfOk result (λ list. numbers list ≡ numbers_in kind bytes.now) };
}

impl Numbers for Ints {
    ghost use Rattle.nc_format.specs.Numbers.{is_int};

    ghost keeps = { is_int };

    ghost numbers = { λ list. list };

    fn spelled(alloc: Global, kind: NcKind, bytes: &[u8]) -> Result<Ints, NoMemory> {
        let items = int_values(alloc, kind, bytes)?;
        Ok(Ints { items })
    }
}

impl Numbers for Longs {
    ghost use Rattle.nc_format.specs.Numbers.{is_long};

    ghost keeps = { is_long };

    ghost numbers = { λ list. list };

    fn spelled(alloc: Global, kind: NcKind, bytes: &[u8]) -> Result<Longs, NoMemory> {
        let items = long_values(alloc, kind, bytes)?;
        Ok(Longs { items })
    }
}
