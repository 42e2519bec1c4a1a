// A variable by the names of its file and of itself.
ghost use Rattle.std.specs.Prelude.{◌≡◌, ◌⊎◌, ◌≤◌, ◌+◌, List, ℕ, length, Ok, Err, Some, IfOk, IfErr, IfSome, OnOk, IsOkAnd, IsSomeAnd, slice_get, true};
ghost use Rattle.remap_io.specs.Folder.{Folder, OnFile};
ghost use Rattle.remap_io.specs.Outside.{OnlyReads};
ghost use Rattle.nc_format.specs.Sound.{IsSound};
ghost use Rattle.nc_format.specs.Numbers.{is_int};
ghost use Rattle.exodus_mesh.specs.declared.ids.NameFault.{NameFault};
ghost use Rattle.field_files.specs.FieldNames.{field_var, IsFieldPlace};
ghost use Rattle.remap_load.specs.declared.refusal.FileRefusal.{FileRefusal as Refusal};
ghost use Rattle.remap_load.specs.Heads.{IsHead, IsHeadOfBytes};
ghost use Rattle.remap_load.specs.Loading.{ReadsAtMost};
ghost use Rattle.remap_load.specs.Kinds.{HasContent, IsFileRefusal, IsCutOff, head_cost};
ghost use Rattle.data_load.specs.declared.DataVar.{DataVar as Data};
ghost use Rattle.data_load.specs.DataFile.{data_kind, IsDataVar, IsDataFile, IsRefusedData, IsOfHead, data_cost};
ghost use Rattle.data_load.specs.Refusals.{HasNameFault, IsOwn};

use crate::refusal::of_names;
use crate::{DataRefusal, DataVar};
use field_files::{fill_value, find_field};
use nc_format::NcFile;
use remap_io::Files;
use remap_load::{Head, load_header, load_ints};
use std::alloc::Global;

// The place of the variable in a header.
fn named_place(file: &NcFile, var: &str) -> Result<u32, DataRefusal>
    requires { IsSound file.now }
    ensures found { IfOk result (λ place. field_var file.now var.now ≡ Ok place) }
    ensures place { IfOk result (IsFieldPlace file.now) }
    ensures whole { IfOk result (λ place. IsSomeAnd (slice_get file.now.vars place)
        (λ v. is_int v.kind ≡ true)) }
    ensures refusal { IfErr result (IsOwn (HasNameFault file.now var.now)) }
{
    match find_field(file, var.as_bytes()) {
        Ok(place) => Ok(place),
        Err(fault) => Err(of_names(fault)),
    }
}

// The variable of a file whose head was loaded. It is looked up before any value is read.
fn data_by_head<F: Files>(
    alloc: Global,
    files: &mut F,
    name: &str,
    head: Head,
    var: &str,
) -> Result<DataVar, DataRefusal>
    requires head { IsHead head }
    requires of_file { OnFile (F.seen files.old).folder name.now (IsHeadOfBytes head) }
    ensures variable { IfOk result (λ found. OnFile (F.seen files.old).folder name.now
        (λ bytes. HasContent (data_kind var.now) bytes found)) }
    ensures sound { IfOk result IsDataVar }
    ensures refusal { IfErr result
        (IsFileRefusal (data_kind var.now) (F.seen files.old) (F.seen files.new) name.now) }
    ensures reads { ReadsAtMost (F.seen files.old) (F.seen files.new)
        ((data_kind var.now).needed head.file) }
    ensures values_last { IfErr result (λ refusal. IsOfHead refusal
        → (F.seen files.new).taken ≡ (F.seen files.old).taken) }
{
    let place = named_place(&head.file, var)?;
    let values = load_ints(alloc, files, name, &head, place)?;
    let fill = fill_value(&head.file, place);
    Ok(DataVar {
        file: head.file,
        var: place,
        values,
        fill,
    })
}

// The variable of a file, by what is proved on the way.
fn load<F: Files>(
    alloc: Global,
    files: &mut F,
    name: &str,
    var: &str,
) -> Result<DataVar, DataRefusal>
    ensures variable { IfOk result (λ found. OnFile (F.seen files.old).folder name.now
        (λ bytes. HasContent (data_kind var.now) bytes found)) }
    ensures sound { IfOk result IsDataVar }
    ensures refusal { IfErr result
        (IsFileRefusal (data_kind var.now) (F.seen files.old) (F.seen files.new) name.now) }
    ensures reads { OnlyReads (F.seen files.old) (F.seen files.new) }
    ensures values_last { IfErr result (λ refusal. IsOfHead refusal
        → IfSome (F.seen files.old).folder (λ m.
        (F.seen files.new).taken ≤ (F.seen files.old).taken + head_cost m name.now)) }
    ensures asked { OnOk result (IfSome (F.seen files.old).folder (λ m. (F.seen files.new).taken
        ≤ (F.seen files.old).taken + data_cost m name.now var.now)) }
{
    let head = load_header(alloc, files, name)?;
    data_by_head(alloc, files, name, head, var)
}

/// The variable of the name `var` that the named file holds, with all its values: a field for some
/// map.
///
/// A refusal is the first of these: there is no such file; it has more than 2,147,483,647 bytes; the
/// first fault of its header; the first fault of the variable, as `find_field` answers it. A failed
/// read and want of memory may come in place of any answer. The variable is tested before its values
/// are read. A variable with records lies in several pieces of the file, one a record.
pub fn load_data<F: Files>(
    alloc: Global,
    files: &mut F,
    name: &str,
    var: &str,
) -> Result<DataVar, DataRefusal>
    // What is answered stands in the file, where the folder is told. A miss and a failed read are
    // counted. What `sound` says holds in every folder.
    ensures variable { IfOk result (λ found. OnFile (F.seen files.old).folder name.now
        (λ bytes. HasContent (data_kind var.now) bytes found)) }
    ensures sound { IfOk result IsDataVar }
    ensures refusal { IfErr result
        (IsFileRefusal (data_kind var.now) (F.seen files.old) (F.seen files.new) name.now) }

    // What stands in a told folder is answered, unless a read fails or memory runs out.
    ensures found { (m : Folder) (wanted : Data) → (F.seen files.old).folder ≡ Some m
        → IsDataFile m name.now var.now wanted
        → IsOkAnd result (λ loaded. loaded ≡ wanted) ⊎ IsCutOff result }
    ensures refused { (m : Folder) (refusal : Refusal NameFault)
        → (F.seen files.old).folder ≡ Some m → IsRefusedData m name.now var.now refusal
        → (result ≡ Err refusal) ⊎ IsCutOff result }

    // No file changes, and no count falls. No value is read before the variable is found good; then
    // only its values are.
    ensures reads { OnlyReads (F.seen files.old) (F.seen files.new) }
    ensures values_last { IfErr result (λ refusal. IsOfHead refusal
        → IfSome (F.seen files.old).folder (λ m.
        (F.seen files.new).taken ≤ (F.seen files.old).taken + head_cost m name.now)) }
    ensures asked { OnOk result (IfSome (F.seen files.old).folder (λ m. (F.seen files.new).taken
        ≤ (F.seen files.old).taken + data_cost m name.now var.now)) }
{
    load(alloc, files, name, var)
}
