// The numbers of the variables of a map.
ghost use Rattle.std.specs.Prelude.{◌≡◌, ◌<◌, true, length, slice_get, slice_index, Ok, IfOk, IfErr, IsSomeAnd};
ghost use Rattle.remap_io.specs.Folder.{OnFile};
ghost use Rattle.map_files.specs.MapNames.{map_vars_in};
ghost use Rattle.remap_load.specs.Heads.{IsHead, IsHeadOfBytes};
ghost use Rattle.remap_load.specs.Loading.{IsReadFault, ReadsAtMost};
ghost use Rattle.remap_load.specs.Pieces.{numbers_at, count_at, bytes_at};
ghost use Rattle.map_load.specs.MapFile.{map_bytes};
ghost use Rattle.map_load.specs.Numbers.{numbers_in, AreAsLong};

use map_files::MapVars;
use remap_io::Files;
use remap_load::{Head, LoadFault, Numbers, load_numbers};
use std::alloc::Global;
use vec_exact::{Ints, Longs};

/// The numbers of the variables `col`, `row`, `S`, `area_a` and `area_b`.
#[derive(Drop)]
pub struct MapNumbers {
    pub col: Ints,
    pub row: Ints,
    pub s: Longs,
    pub area_a: Longs,
    pub area_b: Longs,
}

// The numbers of variable k of a map, from 0.
fn load_variable<N: Numbers, F: Files>(
    alloc: Global,
    files: &mut F,
    name: &str,
    head: &Head,
    vars: &MapVars,
    k: usize,
) -> Result<N, LoadFault>
    requires head { IsHead head.now }
    requires of_file { OnFile (F.seen files.old).folder name.now (IsHeadOfBytes head.now) }
    requires within { k < length vars.now.vars }
    requires kind { IsSomeAnd (slice_get head.now.file.vars (slice_index vars.now.vars k))
        (λ v. N.keeps v.kind ≡ true) }
    ensures values { IfOk result (λ list. OnFile (F.seen files.old).folder name.now
        (λ bytes. N.numbers list
        ≡ numbers_at head.now.file bytes (slice_index vars.now.vars k))) }
    ensures len { IfOk result (λ list. length (N.numbers list)
        ≡ count_at head.now.file (slice_index vars.now.vars k)) }
    ensures fault { IfErr result (IsReadFault (F.seen files.old) (F.seen files.new)) }
    ensures reads { ReadsAtMost (F.seen files.old) (F.seen files.new)
        (bytes_at head.now.file (slice_index vars.now.vars k)) }
{
    load_numbers(alloc, files, name, head, vars.vars.items[k])
}

/// The numbers of the variables that the header has.
pub fn load_values<F: Files>(
    alloc: Global,
    files: &mut F,
    name: &str,
    head: &Head,
    vars: &MapVars,
) -> Result<MapNumbers, LoadFault>
    requires head { IsHead head.now }
    requires of_file { OnFile (F.seen files.old).folder name.now (IsHeadOfBytes head.now) }
    requires found { map_vars_in head.now.file ≡ Ok vars.now }
    ensures values { IfOk result (λ numbers. OnFile (F.seen files.old).folder name.now
        (λ bytes. numbers ≡ numbers_in head.now.file bytes vars.now)) }
    ensures lens { IfOk result (AreAsLong vars.now) }
    ensures fault { IfErr result (IsReadFault (F.seen files.old) (F.seen files.new)) }
    ensures reads { ReadsAtMost (F.seen files.old) (F.seen files.new)
        (map_bytes head.now.file vars.now) }
{
    let col: Ints = load_variable(alloc, files, name, head, vars, 0)?;
    let row: Ints = load_variable(alloc, files, name, head, vars, 1)?;
    let s: Longs = load_variable(alloc, files, name, head, vars, 2)?;
    let area_a: Longs = load_variable(alloc, files, name, head, vars, 3)?;
    let area_b: Longs = load_variable(alloc, files, name, head, vars, 4)?;
    Ok(MapNumbers {
        col,
        row,
        s,
        area_a,
        area_b,
    })
}
