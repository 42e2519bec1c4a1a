// An overlap by the name of its file.
ghost use Rattle.std.specs.Prelude.{◌≡◌, ◌⊎◌, ◌≤◌, ◌+◌, List, ℕ, ℤ, All, length, map, Ok, Err, Some, IfOk, IfErr, IfSome, OnOk, IsOkAnd};
ghost use Rattle.clip.specs.Overlaps.{OverlapParts};
ghost use Rattle.remap_io.specs.Folder.{Folder, OnFile};
ghost use Rattle.remap_io.specs.Outside.{OnlyReads};
ghost use Rattle.nc_format.specs.Sound.{IsSound};
ghost use Rattle.exodus_mesh.specs.declared.faults.FileFault.{FileFault};
ghost use Rattle.remap_files.specs.OverlapNames.{overlap_vars_in};
ghost use Rattle.remap_files.specs.OverlapIn.{lists_in};
ghost use Rattle.remap_files.specs.OverlapRows.{overlap_of, overlap_lens};
ghost use Rattle.remap_load.specs.declared.refusal.FileRefusal.{FileRefusal as Refusal};
ghost use Rattle.remap_load.specs.Heads.{IsHead, IsHeadOfBytes};
ghost use Rattle.remap_load.specs.Loading.{IsReadFault, ReadsAtMost};
ghost use Rattle.remap_load.specs.Kinds.{HasContent, IsFileRefusal, IsCutOff, head_cost};
ghost use Rattle.overlap_load.specs.OverlapFile.{overlap_kind, overlap_bytes, IsOverlapFile, IsRefusedOverlap, IsOfHead, overlap_cost};
ghost use Rattle.overlap_load.specs.Refusals.{HasHeadFault, HasRowFault, IsOwn};

use crate::OverlapRefusal;
use crate::refusal::{of_names, of_rows};
use clip::Overlap;
use nc_format::NcFile;
use remap_files::{OverlapVars, find_overlap, overlap_from};
use remap_io::Files;
use remap_load::{Head, LoadFault, load_header, load_lists};
use std::alloc::Global;
use vec_exact::Ints;

// The counts and the variables of an overlap in a header.
pub fn named_vars(alloc: Global, file: &NcFile) -> Result<OverlapVars, OverlapRefusal>
    requires { IsSound file.now }
    ensures found { IfOk result (λ vars. overlap_vars_in file.now ≡ Ok vars) }
    ensures refusal { IfErr result (IsOwn (HasHeadFault file.now)) }
{
    match find_overlap(alloc, file) {
        Ok(vars) => Ok(vars),
        Err(fault) => Err(of_names(fault)),
    }
}

// The numbers of the variables that the header has.
fn load_values<F: Files>(
    alloc: Global,
    files: &mut F,
    name: &str,
    head: &Head,
    vars: &OverlapVars,
) -> Result<Vec<Ints>, LoadFault>
    requires head { IsHead head.now }
    requires of_file { OnFile (F.seen files.old).folder name.now (IsHeadOfBytes head.now) }
    requires found { overlap_vars_in head.now.file ≡ Ok vars.now }
    ensures values { IfOk result (λ values. OnFile (F.seen files.old).folder name.now
        (λ bytes. values.items ≡ lists_in head.now.file bytes vars.now.vars)) }
    ensures lens { IfOk result (λ values. map length values.items ≡ overlap_lens vars.now) }
    ensures fault { IfErr result (IsReadFault (F.seen files.old) (F.seen files.new)) }
    ensures reads { ReadsAtMost (F.seen files.old) (F.seen files.new)
        (overlap_bytes head.now.file vars.now) }
{
    load_lists(alloc, files, name, head, &vars.vars.items)
}

// The overlap of the numbers of its variables.
fn from_rows(
    alloc: Global,
    file: &NcFile,
    vars: &OverlapVars,
    values: &[Ints],
) -> Result<Overlap, OverlapRefusal>
    requires found { overlap_vars_in file.now ≡ Ok vars.now }
    requires lens { map length values.now ≡ overlap_lens vars.now }
    ensures overlap { IfOk result (λ overlap. overlap_of vars.now values.now ≡ Ok overlap) }
    ensures refusal { IfErr result (IsOwn (HasRowFault vars.now values.now)) }
{
    match overlap_from(alloc, vars, values) {
        Ok(overlap) => Ok(overlap),
        Err(fault) => Err(of_rows(fault)),
    }
}

// The overlap of a file whose head was loaded. The names are tested before any value is read.
fn overlap_by_head<F: Files>(
    alloc: Global,
    files: &mut F,
    name: &str,
    head: &Head,
) -> Result<Overlap, OverlapRefusal>
    requires head { IsHead head.now }
    requires of_file { OnFile (F.seen files.old).folder name.now (IsHeadOfBytes head.now) }
    ensures overlap { IfOk result (λ overlap. OnFile (F.seen files.old).folder name.now
        (λ bytes. HasContent overlap_kind bytes overlap)) }
    ensures refusal { IfErr result
        (IsFileRefusal overlap_kind (F.seen files.old) (F.seen files.new) name.now) }
    ensures reads { ReadsAtMost (F.seen files.old) (F.seen files.new)
        (overlap_kind.needed head.now.file) }
    ensures values_last { IfErr result (λ refusal. IsOfHead refusal
        → (F.seen files.new).taken ≡ (F.seen files.old).taken) }
{
    let vars = named_vars(alloc, &head.file)?;
    let values = load_values(alloc, files, name, head, &vars)?;
    from_rows(alloc, &head.file, &vars, &values)
}

// The overlap of a file, by what is proved on the way.
fn load<F: Files>(alloc: Global, files: &mut F, name: &str) -> Result<Overlap, OverlapRefusal>
    ensures overlap { IfOk result (λ overlap. OnFile (F.seen files.old).folder name.now
        (λ bytes. HasContent overlap_kind bytes overlap)) }
    ensures refusal { IfErr result
        (IsFileRefusal overlap_kind (F.seen files.old) (F.seen files.new) name.now) }
    ensures reads { OnlyReads (F.seen files.old) (F.seen files.new) }
    ensures values_last { IfErr result (λ refusal. IsOfHead refusal
        → IfSome (F.seen files.old).folder (λ m.
        (F.seen files.new).taken ≤ (F.seen files.old).taken + head_cost m name.now)) }
    ensures asked { OnOk result (IfSome (F.seen files.old).folder (λ m.
        (F.seen files.new).taken ≤ (F.seen files.old).taken + overlap_cost m name.now)) }
{
    let head = load_header(alloc, files, name)?;
    overlap_by_head(alloc, files, name, &head)
}

/// The overlap that the named file holds.
///
/// A refusal is the first of these: there is no such file; it has more than 2,147,483,647 bytes; the
/// first fault of its header; the first fault of the names there; the first row at fault. A failed
/// read and want of memory may come in place of any answer. The names are tested before a value is
/// read, and without a piece no value is read at all. Whether the rows are true of two meshes isn't
/// tested.
pub fn load_overlap<F: Files>(
    alloc: Global,
    files: &mut F,
    name: &str,
) -> Result<Overlap, OverlapRefusal>
    // What is answered stands in the file, where the folder is told. A miss and a failed read are
    // counted. What is said of an `Overlap` by its type holds in every folder.
    ensures overlap { IfOk result (λ overlap. OnFile (F.seen files.old).folder name.now
        (λ bytes. HasContent overlap_kind bytes overlap)) }
    ensures refusal { IfErr result
        (IsFileRefusal overlap_kind (F.seen files.old) (F.seen files.new) name.now) }

    // What stands in a told folder is answered, unless a read fails or memory runs out.
    ensures found { (m : Folder) (parts : OverlapParts) → (F.seen files.old).folder ≡ Some m
        → IsOverlapFile m name.now parts
        → IsOkAnd result (λ overlap. overlap ≡ parts) ⊎ IsCutOff result }
    ensures refused { (m : Folder) (refusal : Refusal FileFault)
        → (F.seen files.old).folder ≡ Some m → IsRefusedOverlap m name.now refusal
        → (result ≡ Err refusal) ⊎ IsCutOff result }

    // No file changes, and no count falls. No value is read before the names are found good; then
    // only the variables of the overlap are.
    ensures reads { OnlyReads (F.seen files.old) (F.seen files.new) }
    ensures values_last { IfErr result (λ refusal. IsOfHead refusal
        → IfSome (F.seen files.old).folder (λ m.
        (F.seen files.new).taken ≤ (F.seen files.old).taken + head_cost m name.now)) }
    ensures asked { OnOk result (IfSome (F.seen files.old).folder (λ m.
        (F.seen files.new).taken ≤ (F.seen files.old).taken + overlap_cost m name.now)) }
{
    load(alloc, files, name)
}
