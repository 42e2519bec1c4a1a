// The values of variables of a file whose head was loaded.
ghost use Rattle.std.specs.Prelude.{◌≡◌, ◌≤◌, ◌+◌, ◌*◌, ◌++◌, ◌∷◌, [], ℕ, true, length, map, slice_range, slice_get, Some, IfOk, IfErr, OnOk, IsOkUnless, IsSome, IsSomeAnd, All, nat_le, if◌then◌else◌};
ghost use Rattle.std.specs.List.{sum_by};
ghost use Rattle.vec_exact.specs.declared.limits.TheConstants.{MAX_FILE_LEN};
ghost use Rattle.remap_io.specs.Folder.{OnFile};
ghost use Rattle.nc_format.specs.declared.NcVar.{NcVar};
ghost use Rattle.nc_format.specs.Numbers.{is_int, is_long, numbers_in, gathered, HasPieces, HasWholePieces};
ghost use Rattle.remap_load.specs.Heads.{IsHead, IsHeadOfBytes};
ghost use Rattle.remap_load.specs.Loading.{IsReadFault, ReadsAtMost};
ghost use Rattle.remap_load.specs.Pieces.{value_count, values_cost, numbers_at, count_at, bytes_at};

use crate::numbers::Numbers;
use crate::reads::read_behind;
use crate::{Head, LoadFault};
use nc_format::NcVar;
use remap_io::Files;
use std::alloc::{AllocError, Global};
use vec_exact::{Ints, Longs};

// The variable at a place in the list of variables.
pub fn variable<'a>(head: &'a Head, var: u32) -> &'a NcVar
    requires { IsSome (slice_get head.now.file.vars var) }
    ensures { slice_get head.now.file.vars var ≡ Some result.now }
{
    &head.file.vars.items[var as usize]
}

// Puts `part` bytes of the file, from `at` on, behind those of `bytes`. Where the first bytes have
// them all, nothing is read.
pub fn put_piece<F: Files>(
    files: &mut F,
    name: &str,
    head: &Head,
    at: u64,
    part: u64,
    bytes: &mut Vec<u8>,
) -> Result<(), LoadFault>
    requires short { head.now.len ≤ MAX_FILE_LEN }
    requires inside { at + part ≤ head.now.len }
    requires of_file { OnFile (F.seen files.old).folder name.now (IsHeadOfBytes head.now) }
    ensures piece { OnOk result (OnFile (F.seen files.old).folder name.now
        (λ all. bytes.new.items ≡ bytes.old.items ++ slice_range all at (at + part))) }
    ensures len { OnOk result (length bytes.new.items ≡ length bytes.old.items + part) }
    ensures fault { IfErr result (IsReadFault (F.seen files.old) (F.seen files.new)) }
    ensures reads { ReadsAtMost (F.seen files.old) (F.seen files.new)
        (if nat_le (at + part) (length head.now.prefix) then 0 else part) }
{
    let prefix = &head.prefix.items;
    if at + part <= prefix.len() as u64 {
        let piece = &prefix[at as usize..(at + part) as usize];
        bytes.extend_from_slice(piece)?;
        return Ok(());
    }
    read_behind(files, name, at, part as usize, bytes)
}

// The pieces of a variable, one after another.
#[tactic(auto, unfolding(nc_format::specs::Numbers::gathered))]
fn piece_bytes<F: Files>(
    alloc: Global,
    files: &mut F,
    name: &str,
    head: &Head,
    var: &NcVar,
) -> Result<Vec<u8>, LoadFault>
    requires short { head.now.len ≤ MAX_FILE_LEN }
    requires pieces { HasPieces head.now.len var.now }
    requires of_file { OnFile (F.seen files.old).folder name.now (IsHeadOfBytes head.now) }
    ensures pieces { IfOk result (λ bytes. OnFile (F.seen files.old).folder name.now
        (λ all. bytes.items ≡ gathered var.now all)) }
    ensures len { IfOk result (λ bytes. length bytes.items ≡ var.now.parts * var.now.part) }
    ensures fault { IfErr result (IsReadFault (F.seen files.old) (F.seen files.new)) }
    ensures reads { ReadsAtMost (F.seen files.old) (F.seen files.new)
        (values_cost (length head.now.prefix) var.now) }
{
    let size = (var.part as usize).saturating_mul(var.parts as usize);
    let mut bytes = Vec::with_capacity(alloc, size)?;
    for r in 0..var.parts {
        let at = var.begin + u64::from(r) * var.step;
        put_piece(files, name, head, at, var.part, &mut bytes)?;
    }
    Ok(bytes)
}

// The values of a variable.
fn values_of<N: Numbers, F: Files>(
    alloc: Global,
    files: &mut F,
    name: &str,
    head: &Head,
    var: &NcVar,
) -> Result<N, LoadFault>
    requires short { head.now.len ≤ MAX_FILE_LEN }
    requires pieces { HasWholePieces head.now.len var.now }
    requires kind { N.keeps var.now.kind ≡ true }
    requires of_file { OnFile (F.seen files.old).folder name.now (IsHeadOfBytes head.now) }
    ensures values { IfOk result (λ list. OnFile (F.seen files.old).folder name.now
        (λ all. N.numbers list ≡ numbers_in var.now.kind (gathered var.now all))) }
    ensures len { IfOk result (λ list. length (N.numbers list) ≡ value_count var.now) }
    ensures fault { IfErr result (IsReadFault (F.seen files.old) (F.seen files.new)) }
    ensures reads { ReadsAtMost (F.seen files.old) (F.seen files.new)
        (values_cost (length head.now.prefix) var.now) }
{
    let bytes = piece_bytes(alloc, files, name, head, var)?;
    Ok(N::spelled(alloc, var.kind, &bytes)?)
}

/// The values of the variable `var`, which counts from 0, in the named file, whose head is `head`,
/// as a list that can keep its type.
///
/// A piece of the variable that lies in the first bytes of the head is taken from there. Each other
/// one is read whole by one call, also one that lies there in part. There are as many values as the
/// variable has. `Failed` and `NoMemory` may come in place of them, and `Absent` where the folder is
/// not told.
pub fn load_numbers<N: Numbers, F: Files>(
    alloc: Global,
    files: &mut F,
    name: &str,
    head: &Head,
    var: u32,
) -> Result<N, LoadFault>
    requires head { IsHead head.now }
    requires of_file { OnFile (F.seen files.old).folder name.now (IsHeadOfBytes head.now) }
    requires var { IsSomeAnd (slice_get head.now.file.vars var) (λ v. N.keeps v.kind ≡ true) }
    ensures values { IfOk result (λ list. OnFile (F.seen files.old).folder name.now
        (λ bytes. N.numbers list ≡ numbers_at head.now.file bytes var)) }
    ensures len { IfOk result (λ list. length (N.numbers list) ≡ count_at head.now.file var) }
    ensures fault { IfErr result (IsReadFault (F.seen files.old) (F.seen files.new)) }
    ensures reads { ReadsAtMost (F.seen files.old) (F.seen files.new)
        (bytes_at head.now.file var) }
    ensures first { (v : NcVar) → slice_get head.now.file.vars var ≡ Some v
        → ReadsAtMost (F.seen files.old) (F.seen files.new)
        (values_cost (length head.now.prefix) v) }
{
    values_of(alloc, files, name, head, variable(head, var))
}

/// `load_numbers` in 32 bits: the type of the variable is BYTE, SHORT or INT.
pub fn load_ints<F: Files>(
    alloc: Global,
    files: &mut F,
    name: &str,
    head: &Head,
    var: u32,
) -> Result<Ints, LoadFault>
    requires head { IsHead head.now }
    requires of_file { OnFile (F.seen files.old).folder name.now (IsHeadOfBytes head.now) }
    requires var { IsSomeAnd (slice_get head.now.file.vars var) (λ v. is_int v.kind ≡ true) }

    // The values are those of the file, where the folder is told, and as many as the variable has.
    ensures values { IfOk result (λ ints. OnFile (F.seen files.old).folder name.now
        (λ bytes. ints ≡ numbers_at head.now.file bytes var)) }
    ensures len { IfOk result (λ ints. length ints ≡ count_at head.now.file var) }

    // A miss or a failed read is counted, and there is no miss where the folder is told.
    ensures fault { IfErr result (IsReadFault (F.seen files.old) (F.seen files.new)) }

    // Only the bytes of the variable are asked for, and of these none of a piece that lies in the
    // first bytes.
    ensures reads { ReadsAtMost (F.seen files.old) (F.seen files.new)
        (bytes_at head.now.file var) }
    ensures first { (v : NcVar) → slice_get head.now.file.vars var ≡ Some v
        → ReadsAtMost (F.seen files.old) (F.seen files.new)
        (values_cost (length head.now.prefix) v) }
{
    load_numbers(alloc, files, name, head, var)
}

/// `load_numbers` in 64 bits: the type of the variable is BYTE, SHORT, INT or INT64.
pub fn load_longs<F: Files>(
    alloc: Global,
    files: &mut F,
    name: &str,
    head: &Head,
    var: u32,
) -> Result<Longs, LoadFault>
    requires head { IsHead head.now }
    requires of_file { OnFile (F.seen files.old).folder name.now (IsHeadOfBytes head.now) }
    requires var { IsSomeAnd (slice_get head.now.file.vars var) (λ v. is_long v.kind ≡ true) }

    // As of `load_ints`.
    ensures values { IfOk result (λ longs. OnFile (F.seen files.old).folder name.now
        (λ bytes. longs ≡ numbers_at head.now.file bytes var)) }
    ensures len { IfOk result (λ longs. length longs ≡ count_at head.now.file var) }
    ensures fault { IfErr result (IsReadFault (F.seen files.old) (F.seen files.new)) }
    ensures reads { ReadsAtMost (F.seen files.old) (F.seen files.new)
        (bytes_at head.now.file var) }
    ensures first { (v : NcVar) → slice_get head.now.file.vars var ≡ Some v
        → ReadsAtMost (F.seen files.old) (F.seen files.new)
        (values_cost (length head.now.prefix) v) }
{
    load_numbers(alloc, files, name, head, var)
}

fn push<N: Drop>(lists: &mut Vec<N>, list: N) -> Result<(), LoadFault>
    ensures read { OnOk result (lists.new.items ≡ lists.old.items ++ list ∷ []) }
    ensures fault { IsOkUnless result LoadFault.NoMemory }
{
    lists.push(list).map_err(AllocError::from)?;
    Ok(())
}

/// The values of the variables at some places, one list for each, in their order.
pub fn load_lists<N: Numbers, F: Files>(
    alloc: Global,
    files: &mut F,
    name: &str,
    head: &Head,
    places: &[u32],
) -> Result<Vec<N>, LoadFault>
    requires head { IsHead head.now }
    requires of_file { OnFile (F.seen files.old).folder name.now (IsHeadOfBytes head.now) }
    requires vars { All (λ place. IsSomeAnd (slice_get head.now.file.vars place)
        (λ v. N.keeps v.kind ≡ true)) places.now }
    ensures values { IfOk result (λ lists. OnFile (F.seen files.old).folder name.now (λ bytes.
        map N.numbers lists.items ≡ map (numbers_at head.now.file bytes) places.now)) }
    ensures lens { IfOk result (λ lists. map (λ list. length (N.numbers list)) lists.items
        ≡ map (count_at head.now.file) places.now) }
    ensures fault { IfErr result (IsReadFault (F.seen files.old) (F.seen files.new)) }
    ensures reads { ReadsAtMost (F.seen files.old) (F.seen files.new)
        (sum_by (bytes_at head.now.file) places.now) }
{
    let mut lists = Vec::new(alloc);
    for place in places {
        let list: N = load_numbers(alloc, files, name, head, *place)?;
        push(&mut lists, list)?;
    }
    Ok(lists)
}
