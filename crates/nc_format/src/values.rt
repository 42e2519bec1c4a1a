// The values of variables.
ghost use Rattle.std.specs.Prelude.{◌≡◌, ◌≤◌, ◌*◌, ◌%◌, ℕ, length, true, IfOk};
ghost use Rattle.nc_write.specs.Kinds.{size_of};
ghost use Rattle.nc_format.specs.Numbers.{is_int, is_long, number_in, numbers_in, HasPieces, gathered};

use crate::NcVar;
use byteorder::{BigEndian, ByteOrder};
use nc_write::NcKind;
use nc_write::kinds::size_of;
use std::alloc::{AllocError, Global};
use vec_exact::NoMemory;

/// True for BYTE, SHORT and INT alone.
pub fn is_int(kind: NcKind) -> bool
    ensures { result ≡ is_int kind }
{
    matches!(kind, NcKind::Byte | NcKind::Short | NcKind::Int)
}

/// True for BYTE, SHORT, INT and INT64 alone.
pub fn is_long(kind: NcKind) -> bool
    ensures { result ≡ is_long kind }
{
    is_int(kind) || matches!(kind, NcKind::Int64)
}

/// The pieces of a variable, one after another.
#[tactic(auto, unfolding(crate::specs::Numbers::gathered))]
pub fn gather(alloc: Global, var: &NcVar, file: &[u8]) -> Result<Vec<u8>, NoMemory>
    requires { HasPieces (length file.now) var.now }
    ensures pieces { IfOk result (λ bytes. bytes.items ≡ gathered var.now file.now) }
    ensures len { IfOk result (λ bytes. length bytes.items ≡ var.now.parts * var.now.part) }
{
    let part = var.part as usize;
    let mut bytes = Vec::with_capacity(alloc, part.saturating_mul(var.parts as usize))?;
    for r in 0..var.parts {
        let at = (var.begin + u64::from(r) * var.step) as usize;
        bytes.extend_from_slice(&file[at..at + part])?;
    }
    Ok(bytes)
}

/// The number that the first bytes spell.
#[tactic(auto, unfolding(crate::specs::Numbers::number_in))]
pub fn int_at(kind: NcKind, bytes: &[u8]) -> i32
    requires kind { is_int kind ≡ true }
    requires len { size_of kind ≤ length bytes.now }
    ensures { result ≡ number_in kind bytes.now }
{
    match kind {
        NcKind::Byte => i32::from(bytes[0].cast_signed()),
        NcKind::Short => i32::from(BigEndian::read_i16(bytes)),
        _ => BigEndian::read_i32(bytes),
    }
}

#[tactic(auto, unfolding(crate::specs::Numbers::number_in))]
fn long_at(kind: NcKind, bytes: &[u8]) -> i64
    requires kind { is_long kind ≡ true }
    requires len { size_of kind ≤ length bytes.now }
    ensures { result ≡ number_in kind bytes.now }
{
    match kind {
        NcKind::Int64 => BigEndian::read_i64(bytes),
        _ => i64::from(int_at(kind, bytes)),
    }
}

#[tactic(auto, unfolding(crate::specs::Numbers::numbers_in))]
fn ints(alloc: Global, kind: NcKind, bytes: &[u8]) -> Result<Vec<i32>, AllocError>
    requires { is_int kind ≡ true }
    ensures { IfOk result (λ values. values.items ≡ numbers_in kind bytes.now) }
{
    let size = size_of(kind) as usize;
    let count = bytes.len() / size;
    let mut values = Vec::with_capacity(alloc, count)?;
    for k in 0..count {
        values.push(int_at(kind, &bytes[k * size..]))?;
    }
    Ok(values)
}

/// The numbers that bytes of an integer type spell, one after another.
pub fn int_values(alloc: Global, kind: NcKind, bytes: &[u8]) -> Result<Vec<i32>, NoMemory>
    requires kind { is_int kind ≡ true }
    requires len { length bytes.now % size_of kind ≡ 0 }
    ensures { IfOk result (λ values. values.items ≡ numbers_in kind bytes.now) }
{
    Ok(ints(alloc, kind, bytes)?)
}

#[tactic(auto, unfolding(crate::specs::Numbers::numbers_in))]
fn longs(alloc: Global, kind: NcKind, bytes: &[u8]) -> Result<Vec<i64>, AllocError>
    requires { is_long kind ≡ true }
    ensures { IfOk result (λ values. values.items ≡ numbers_in kind bytes.now) }
{
    let size = size_of(kind) as usize;
    let count = bytes.len() / size;
    let mut values = Vec::with_capacity(alloc, count)?;
    for k in 0..count {
        values.push(long_at(kind, &bytes[k * size..]))?;
    }
    Ok(values)
}

/// The same in 64 bits, which INT64 has.
pub fn long_values(alloc: Global, kind: NcKind, bytes: &[u8]) -> Result<Vec<i64>, NoMemory>
    requires kind { is_long kind ≡ true }
    requires len { length bytes.now % size_of kind ≡ 0 }
    ensures { IfOk result (λ values. values.items ≡ numbers_in kind bytes.now) }
{
    Ok(longs(alloc, kind, bytes)?)
}
