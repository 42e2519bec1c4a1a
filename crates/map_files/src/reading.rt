// The map of a whole file.
ghost use Rattle.std.specs.Prelude.{◌≡◌, ◌<◌, length, slice_index, IfOk, IfErr, Ok};
ghost use Rattle.nc_format.specs.Header.{IsHeader};
ghost use Rattle.nc_format.specs.Answers.{IsFaultOf};
ghost use Rattle.exodus_mesh.specs.declared.faults.FileFault.TheVariants.{NoMemory};
ghost use Rattle.exodus_mesh.specs.Answers.{SaysMemoryAlone};
ghost use Rattle.map_files.specs.MapNames.{map_vars_in};
ghost use Rattle.map_files.specs.MapIn.{map_list_in, map_in};

use crate::{MapVars, find_map, map_from};
use exodus_mesh::{FileFault, file_fault, read_ints, read_longs};
use map_rows::Map;
use nc_format::{NcFile, law_first_fault};
use std::alloc::Global;
use vec_exact::{Ints, Longs};

// The place of variable k of a map, from 0.
fn place(vars: &MapVars, k: usize) -> u32
    requires { k < length vars.now.vars }
    ensures { result ≡ slice_index vars.now.vars k }
{
    vars.vars.items[k]
}

// The numbers of the variables `col`, `row` and `S`.
#[derive(Drop)]
struct RowNumbers {
    col: Ints,
    row: Ints,
    s: Longs,
}

fn read_rows(
    alloc: Global,
    file: &NcFile,
    bytes: &[u8],
    vars: &MapVars,
) -> Result<RowNumbers, vec_exact::NoMemory>
    requires header { IsHeader bytes.now (length bytes.now) file.now }
    requires found { map_vars_in file.now ≡ Ok vars.now }
    ensures col { IfOk result (λ rows. rows.col ≡ map_list_in file.now bytes.now vars.now 0) }
    ensures row { IfOk result (λ rows. rows.row ≡ map_list_in file.now bytes.now vars.now 1) }
    ensures s { IfOk result (λ rows. rows.s ≡ map_list_in file.now bytes.now vars.now 2) }
{
    Ok(RowNumbers {
        col: read_ints(alloc, file, bytes, place(vars, 0))?,
        row: read_ints(alloc, file, bytes, place(vars, 1))?,
        s: read_longs(alloc, file, bytes, place(vars, 2))?,
    })
}

// The map of the variables that the header has.
fn from_values(alloc: Global, file: &NcFile, bytes: &[u8], vars: &MapVars) -> Result<Map, FileFault>
    requires header { IsHeader bytes.now (length bytes.now) file.now }
    requires found { map_vars_in file.now ≡ Ok vars.now }
    ensures map { IfOk result (λ map. map_in file.now bytes.now ≡ Ok map) }
    ensures fault { IfErr result (IsFaultOf NoMemory (map_in file.now bytes.now)) }
    ensures memory { IfErr result SaysMemoryAlone }
{
    let rows = read_rows(alloc, file, bytes, vars)?;
    let area_a = read_longs(alloc, file, bytes, place(vars, 3))?;
    let area_b = read_longs(alloc, file, bytes, place(vars, 4))?;
    map_from(
        alloc,
        vars,
        &rows.col.items,
        &rows.row.items,
        &rows.s.items,
        &area_a.items,
        &area_b.items,
    )
}

/// The map in the file with the bytes `bytes` and the header `file`.
///
/// A fault is the first one: `Name` for those of `find_map`, and behind them those of `map_from`.
pub fn read_map(alloc: Global, file: &NcFile, bytes: &[u8]) -> Result<Map, FileFault>
    requires header { IsHeader bytes.now (length bytes.now) file.now }
    ensures map { IfOk result (λ map. map_in file.now bytes.now ≡ Ok map) }
    // A fault that is answered is the first one, unless memory ran out.
    ensures fault { IfErr result (IsFaultOf NoMemory (map_in file.now bytes.now)) }
    ensures memory { IfErr result SaysMemoryAlone }
{
    // Every header is sound.
    law_first_fault();
    let vars = match find_map(alloc, file) {
        Ok(vars) => vars,
        Err(fault) => return Err(file_fault(fault)),
    };
    from_values(alloc, file, bytes, &vars)
}
