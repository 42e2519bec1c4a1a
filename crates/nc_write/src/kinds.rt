//! The types of netCDF values, their numbers in a file and their sizes (netCDF classic format
//! specification; CDF-5).
ghost use Rattle.std.specs.Prelude.{◌≡◌, ◌≤◌};
ghost use Rattle.nc_write.specs.Kinds.{size_of, type_number, kind_numbered};

use crate::NcKind;

/// The number that names a type in a file, from 1 to 11.
pub fn type_number(kind: NcKind) -> u32
    ensures { result ≡ type_number kind }
{
    match kind {
        NcKind::Byte => 1,
        NcKind::Char => 2,
        NcKind::Short => 3,
        NcKind::Int => 4,
        NcKind::Float => 5,
        NcKind::Double => 6,
        NcKind::UByte => 7,
        NcKind::UShort => 8,
        NcKind::UInt => 9,
        NcKind::Int64 => 10,
        NcKind::UInt64 => 11,
    }
}

/// The type that a number from 1 to 11 names; UINT64 for any other number.
#[tactic(auto, unfolding(crate::specs::Kinds::kind_numbered))]
pub fn kind_numbered(number: u32) -> NcKind
    ensures { result ≡ kind_numbered number }
{
    match number {
        1 => NcKind::Byte,
        2 => NcKind::Char,
        3 => NcKind::Short,
        4 => NcKind::Int,
        5 => NcKind::Float,
        6 => NcKind::Double,
        7 => NcKind::UByte,
        8 => NcKind::UShort,
        9 => NcKind::UInt,
        10 => NcKind::Int64,
        _ => NcKind::UInt64,
    }
}

/// The bytes of one value of a type.
pub fn size_of(kind: NcKind) -> u64
    ensures is { result ≡ size_of kind }
    ensures small { result ≤ 8 }
{
    match kind {
        NcKind::Byte | NcKind::Char | NcKind::UByte => 1,
        NcKind::Short | NcKind::UShort => 2,
        NcKind::Int | NcKind::Float | NcKind::UInt => 4,
        NcKind::Double | NcKind::Int64 | NcKind::UInt64 => 8,
    }
}
