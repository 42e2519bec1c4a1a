// The counts and the variables of a map, looked up by their names.
ghost use Rattle.std.specs.Prelude.{◌≡◌, [], IfOk, IfErr, Ok};
ghost use Rattle.nc_format.specs.Sound.{IsSound};
ghost use Rattle.nc_format.specs.Answers.{IsFaultOf};
ghost use Rattle.exodus_mesh.specs.declared.ids.NameFault.TheVariants.{NoMemory};
ghost use Rattle.exodus_mesh.specs.Names.{name_of};
ghost use Rattle.map_files.specs.MapNames.{list_in, map_vars_in};

use crate::MapVars;
use exodus_mesh::{NameFault, NameId, NumberKind, find_column, find_named, var_len};
use nc_format::NcFile;
use nc_write::DimIds;
use std::alloc::Global;
use vec_exact::{MAX_FACES, MAX_PIECES};

// The place and the length of a variable of one dimension, which has at most so many numbers.
#[tactic(auto, unfolding(crate::specs::MapNames::list_in))]
fn find_list(
    file: &NcFile,
    kind: NumberKind,
    most: u32,
    id: NameId,
    name: &[u8],
) -> Result<(u32, u32), NameFault>
    requires sound { IsSound file.now }
    requires name { name.now ≡ name_of [] id }
    ensures { result ≡ list_in file.now kind most id }
{
    let place = find_named(file, id, name)?;
    let len = var_len(file, kind, id, place)?;
    if len > most {
        return Err(NameFault::Shape(id));
    }
    Ok((place, len))
}

/// The counts and the variables of a map in a file, by their names: `col`, `row`, `S`, `area_a` and
/// `area_b`. The whole form is our own; all else is skipped, the names of dimensions too.
///
/// A fault is the first one, in this order; one variable is tested to the end before the next.
/// `Missing(id)` says that no variable has the name. `Kind(id)` says that the type of `col` or `row`
/// is not BYTE, SHORT or INT, or that of another variable is none of these and not INT64. `Shape(id)`
/// says that a variable does not have exactly one dimension, that this is the record dimension, that
/// `row` or `S` is not as long as `col`, that `col` has more than 8,388,608 numbers, or that `area_a`
/// or `area_b` has more than 1,048,576.
#[tactic(auto, unfolding(crate::specs::MapNames::map_vars_in, exodus_mesh::specs::Names::name_of))]
pub fn find_map(alloc: Global, file: &NcFile) -> Result<MapVars, NameFault>
    requires sound { IsSound file.now }
    ensures vars { IfOk result (λ vars. map_vars_in file.now ≡ Ok vars) }
    // A fault that is answered is the first one, unless memory ran out.
    ensures fault { IfErr result (IsFaultOf NoMemory (map_vars_in file.now)) }
{
    let (col, n_s) = find_list(file, NumberKind::Int, MAX_PIECES, NameId::Col, b"col")?;
    let row = find_column(file, NumberKind::Int, n_s, NameId::Row, b"row")?;
    let s = find_column(file, NumberKind::Long, n_s, NameId::S, b"S")?;
    let (area_a, n_a) = find_list(file, NumberKind::Long, MAX_FACES, NameId::AreaA, b"area_a")?;
    let (area_b, n_b) = find_list(file, NumberKind::Long, MAX_FACES, NameId::AreaB, b"area_b")?;
    let places = [col, row, s, area_a, area_b].to_vec(alloc)?;
    Ok(MapVars {
        n_a,
        n_b,
        n_s,
        vars: DimIds { items: places },
    })
}
