// A map by the name of its file.
ghost use Rattle.std.specs.Prelude.{◌≡◌, ◌⊎◌, ◌≤◌, ◌+◌, List, ℕ, length, Ok, Err, Some, IfOk, IfErr, IfSome, OnOk, IsOkAnd};
ghost use Rattle.map_rows.specs.Maps.{MapParts};
ghost use Rattle.remap_io.specs.Folder.{Folder, OnFile};
ghost use Rattle.remap_io.specs.Outside.{OnlyReads};
ghost use Rattle.nc_format.specs.Sound.{IsSound};
ghost use Rattle.exodus_mesh.specs.declared.faults.FileFault.{FileFault};
ghost use Rattle.map_files.specs.MapNames.{map_vars_in};
ghost use Rattle.remap_load.specs.declared.refusal.FileRefusal.{FileRefusal as Refusal};
ghost use Rattle.remap_load.specs.Heads.{IsHead, IsHeadOfBytes};
ghost use Rattle.remap_load.specs.Loading.{ReadsAtMost};
ghost use Rattle.remap_load.specs.Kinds.{HasContent, IsFileRefusal, IsCutOff, head_cost};
ghost use Rattle.map_load.specs.MapFile.{map_kind, IsMapFile, IsRefusedMap, IsOfHead, map_cost};
ghost use Rattle.map_load.specs.Numbers.{AreAsLong, map_of_numbers};
ghost use Rattle.map_load.specs.Refusals.{HasHeadFault, HasRowFault, IsOwn};

use crate::MapRefusal;
use crate::refusal::{of_names, of_rows};
use crate::values::{MapNumbers, load_values};
use map_files::{MapVars, find_map, map_from};
use map_rows::Map;
use nc_format::NcFile;
use remap_io::Files;
use remap_load::{Head, load_header};
use std::alloc::Global;

// The counts and the variables of a map in a header.
fn named_vars(alloc: Global, file: &NcFile) -> Result<MapVars, MapRefusal>
    requires { IsSound file.now }
    ensures found { IfOk result (λ vars. map_vars_in file.now ≡ Ok vars) }
    ensures refusal { IfErr result (IsOwn (HasHeadFault file.now)) }
{
    match find_map(alloc, file) {
        Ok(vars) => Ok(vars),
        Err(fault) => Err(of_names(fault)),
    }
}

// The map of the numbers of its variables.
fn from_rows(
    alloc: Global,
    file: &NcFile,
    vars: &MapVars,
    numbers: &MapNumbers,
) -> Result<Map, MapRefusal>
    requires found { map_vars_in file.now ≡ Ok vars.now }
    requires lens { AreAsLong vars.now numbers.now }
    ensures map { IfOk result (λ map. map_of_numbers vars.now numbers.now ≡ Ok map) }
    ensures refusal { IfErr result (IsOwn (HasRowFault vars.now numbers.now)) }
{
    match map_from(
        alloc,
        vars,
        &numbers.col.items,
        &numbers.row.items,
        &numbers.s.items,
        &numbers.area_a.items,
        &numbers.area_b.items,
    ) {
        Ok(map) => Ok(map),
        Err(fault) => Err(of_rows(fault)),
    }
}

// The map of a file whose head was loaded. The names are tested before any value is read.
fn map_by_head<F: Files>(
    alloc: Global,
    files: &mut F,
    name: &str,
    head: &Head,
) -> Result<Map, MapRefusal>
    requires head { IsHead head.now }
    requires of_file { OnFile (F.seen files.old).folder name.now (IsHeadOfBytes head.now) }
    ensures map { IfOk result (λ map. OnFile (F.seen files.old).folder name.now
        (λ bytes. HasContent map_kind bytes map)) }
    ensures refusal { IfErr result
        (IsFileRefusal map_kind (F.seen files.old) (F.seen files.new) name.now) }
    ensures reads { ReadsAtMost (F.seen files.old) (F.seen files.new)
        (map_kind.needed head.now.file) }
    ensures values_last { IfErr result (λ refusal. IsOfHead refusal
        → (F.seen files.new).taken ≡ (F.seen files.old).taken) }
{
    let vars = named_vars(alloc, &head.file)?;
    let numbers = load_values(alloc, files, name, head, &vars)?;
    from_rows(alloc, &head.file, &vars, &numbers)
}

// The map of a file, by what is proved on the way.
fn load<F: Files>(alloc: Global, files: &mut F, name: &str) -> Result<Map, MapRefusal>
    ensures map { IfOk result (λ map. OnFile (F.seen files.old).folder name.now
        (λ bytes. HasContent map_kind bytes map)) }
    ensures refusal { IfErr result
        (IsFileRefusal map_kind (F.seen files.old) (F.seen files.new) name.now) }
    ensures reads { OnlyReads (F.seen files.old) (F.seen files.new) }
    ensures values_last { IfErr result (λ refusal. IsOfHead refusal
        → IfSome (F.seen files.old).folder (λ m.
        (F.seen files.new).taken ≤ (F.seen files.old).taken + head_cost m name.now)) }
    ensures asked { OnOk result (IfSome (F.seen files.old).folder (λ m.
        (F.seen files.new).taken ≤ (F.seen files.old).taken + map_cost m name.now)) }
{
    let head = load_header(alloc, files, name)?;
    map_by_head(alloc, files, name, &head)
}

/// The map that the named file holds.
///
/// A refusal is the first of these: there is no such file; it has more than 2,147,483,647 bytes; the
/// first fault of its header; the first fault of the names there; the first row at fault; the first
/// source and then the first target whose area is at fault. A failed read and want of memory may
/// come in place of any answer. The names are tested before a value is read. Whether the rows are
/// true of two meshes isn't tested.
pub fn load_map<F: Files>(alloc: Global, files: &mut F, name: &str) -> Result<Map, MapRefusal>
    // What is answered stands in the file, where the folder is told. A miss and a failed read are
    // counted. What is said of a `Map` by its type holds in every folder.
    ensures map { IfOk result (λ map. OnFile (F.seen files.old).folder name.now
        (λ bytes. HasContent map_kind bytes map)) }
    ensures refusal { IfErr result
        (IsFileRefusal map_kind (F.seen files.old) (F.seen files.new) name.now) }

    // What stands in a told folder is answered, unless a read fails or memory runs out.
    ensures found { (m : Folder) (parts : MapParts) → (F.seen files.old).folder ≡ Some m
        → IsMapFile m name.now parts
        → IsOkAnd result (λ map. map ≡ parts) ⊎ IsCutOff result }
    ensures refused { (m : Folder) (refusal : Refusal FileFault)
        → (F.seen files.old).folder ≡ Some m → IsRefusedMap m name.now refusal
        → (result ≡ Err refusal) ⊎ IsCutOff result }

    // No file changes, and no count falls. No value is read before the names are found good; then
    // only the variables of the map are.
    ensures reads { OnlyReads (F.seen files.old) (F.seen files.new) }
    ensures values_last { IfErr result (λ refusal. IsOfHead refusal
        → IfSome (F.seen files.old).folder (λ m.
        (F.seen files.new).taken ≤ (F.seen files.old).taken + head_cost m name.now)) }
    ensures asked { OnOk result (IfSome (F.seen files.old).folder (λ m.
        (F.seen files.new).taken ≤ (F.seen files.old).taken + map_cost m name.now)) }
{
    load(alloc, files, name)
}
