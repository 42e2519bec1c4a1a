// A part of the values of a variable of a file whose head was loaded.
ghost use Rattle.std.specs.Prelude.{◌≡◌, ◌≤◌, ◌+◌, ◌*◌, true, length, slice_range, slice_get, Some, IfOk, IfErr, IsSomeAnd};
ghost use Rattle.vec_exact.specs.declared.limits.TheConstants.{MAX_FILE_LEN};
ghost use Rattle.remap_io.specs.Folder.{OnFile};
ghost use Rattle.nc_write.specs.Kinds.{size_of};
ghost use Rattle.nc_format.specs.declared.NcVar.{NcVar};
ghost use Rattle.nc_format.specs.Numbers.{numbers_in, gathered, HasWholePieces};
ghost use Rattle.remap_load.specs.Heads.{IsHead, IsHeadOfBytes};
ghost use Rattle.remap_load.specs.Loading.{IsReadFault, ReadsAtMost};
ghost use Rattle.remap_load.specs.Pieces.{value_count, numbers_at, count_at};

use crate::numbers::Numbers;
use crate::variables::{put_piece, variable};
use crate::{Head, LoadFault};
use nc_format::NcVar;
use nc_write::kinds::size_of;
use remap_io::Files;
use std::alloc::Global;

// The values `from` to `from + count` of a variable in one piece.
fn part_of<N: Numbers, F: Files>(
    alloc: Global,
    files: &mut F,
    name: &str,
    head: &Head,
    var: &NcVar,
    from: u64,
    count: u64,
) -> Result<N, LoadFault>
    requires short { head.now.len ≤ MAX_FILE_LEN }
    requires pieces { HasWholePieces head.now.len var.now }
    requires one { var.now.parts ≡ 1 }
    requires inside { from + count ≤ value_count var.now }
    requires kind { N.keeps var.now.kind ≡ true }
    requires of_file { OnFile (F.seen files.old).folder name.now (IsHeadOfBytes head.now) }
    ensures values { IfOk result (λ list. OnFile (F.seen files.old).folder name.now (λ all.
        N.numbers list
        ≡ slice_range (numbers_in var.now.kind (gathered var.now all)) from (from + count))) }
    ensures len { IfOk result (λ list. length (N.numbers list) ≡ count) }
    ensures fault { IfErr result (IsReadFault (F.seen files.old) (F.seen files.new)) }
    ensures reads { ReadsAtMost (F.seen files.old) (F.seen files.new)
        (count * size_of var.now.kind) }
{
    let size = size_of(var.kind);
    let at = var.begin + from * size;
    let part = count * size;
    let mut bytes = Vec::with_capacity(alloc, part as usize)?;
    put_piece(files, name, head, at, part, &mut bytes)?;
    Ok(N::spelled(alloc, var.kind, &bytes)?)
}

/// The values `from` to `from + count` of the variable `var`, as `load_numbers` gives all of them.
/// Values and variables count from 0.
///
/// The variable stands in one piece, as each one does that has no record dimension. No byte but those
/// of the part is asked for, and none where the part lies in the first bytes of the head.
pub fn load_part<N: Numbers, F: Files>(
    alloc: Global,
    files: &mut F,
    name: &str,
    head: &Head,
    var: u32,
    from: u64,
    count: u64,
) -> Result<N, LoadFault>
    requires head { IsHead head.now }
    requires of_file { OnFile (F.seen files.old).folder name.now (IsHeadOfBytes head.now) }
    requires var { IsSomeAnd (slice_get head.now.file.vars var) (λ v. N.keeps v.kind ≡ true) }
    requires one { IsSomeAnd (slice_get head.now.file.vars var) (λ v. v.parts ≡ 1) }
    requires inside { from + count ≤ count_at head.now.file var }
    ensures values { IfOk result (λ list. OnFile (F.seen files.old).folder name.now (λ bytes.
        N.numbers list ≡ slice_range (numbers_at head.now.file bytes var) from (from + count))) }
    ensures len { IfOk result (λ list. length (N.numbers list) ≡ count) }
    ensures fault { IfErr result (IsReadFault (F.seen files.old) (F.seen files.new)) }
    ensures reads { (v : NcVar) → slice_get head.now.file.vars var ≡ Some v
        → ReadsAtMost (F.seen files.old) (F.seen files.new) (count * size_of v.kind) }
{
    part_of(alloc, files, name, head, variable(head, var), from, count)
}
