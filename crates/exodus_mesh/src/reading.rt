// The mesh of a whole file.
ghost use Rattle.std.specs.Prelude.{◌≡◌, ℕ, length, map, All, IfOk, OnOk, Ok, ◌++◌, ◌∷◌, []};
ghost use Rattle.vec_exact.specs.Counts.{AreAllowedCounts};
ghost use Rattle.nc_format.specs.Header.{IsHeader};
ghost use Rattle.exodus_mesh.specs.MeshNames.{mesh_vars_in};
ghost use Rattle.exodus_mesh.specs.Found.{IsSomeIntVar, IsSomeLongVar, AreCoordVars, IsBlockVar};
ghost use Rattle.exodus_mesh.specs.MeshIn.{values_in, coord_places, block_places, coords_in, rows_in, mesh_at, mesh_in};

use crate::variables::var_at;
use crate::{BlockVar, CoordVars, MeshVars, mesh_from};
use nc_format::{NcFile, gather, int_values, long_values};
use std::alloc::{AllocError, Global};
use vec_exact::{Ints, Longs, NoMemory, RawMesh};

/// The numbers of the variable at a place, in row-major order. Its only error is want of memory.
pub fn read_ints(alloc: Global, file: &NcFile, bytes: &[u8], place: u32) -> Result<Ints, NoMemory>
    requires header { IsHeader bytes.now (length bytes.now) file.now }
    requires var { IsSomeIntVar file.now place }
    ensures { IfOk result (λ ints. ints ≡ values_in file.now bytes.now place) }
{
    let Some(var) = var_at(file, place) else {
        return Ok(Ints {
            items: Vec::new(alloc),
        });
    };
    let spelled = gather(alloc, var, bytes)?;
    let items = int_values(alloc, var.kind, &spelled)?;
    Ok(Ints { items })
}

/// The numbers of the variable at a place, in row-major order, in 64 bits, which INT64 has. Its only
/// error is want of memory.
pub fn read_longs(alloc: Global, file: &NcFile, bytes: &[u8], place: u32) -> Result<Longs, NoMemory>
    requires header { IsHeader bytes.now (length bytes.now) file.now }
    requires var { IsSomeLongVar file.now place }
    ensures { IfOk result (λ longs. longs ≡ values_in file.now bytes.now place) }
{
    let Some(var) = var_at(file, place) else {
        return Ok(Longs {
            items: Vec::new(alloc),
        });
    };
    let spelled = gather(alloc, var, bytes)?;
    let items = long_values(alloc, var.kind, &spelled)?;
    Ok(Longs { items })
}

fn push(lists: &mut Vec<Ints>, list: Ints) -> Result<(), NoMemory>
    ensures { OnOk result (lists.new.items ≡ lists.old.items ++ list ∷ []) }
{
    lists.push(list).map_err(AllocError::from)?;
    Ok(())
}

/// The numbers of the variables at some places, one list for each, in their order. Its only error is
/// want of memory.
pub fn read_lists(
    alloc: Global,
    file: &NcFile,
    bytes: &[u8],
    places: &[u32],
) -> Result<Vec<Ints>, NoMemory>
    requires header { IsHeader bytes.now (length bytes.now) file.now }
    requires vars { All (IsSomeIntVar file.now) places.now }
    ensures { IfOk result (λ lists. lists.items ≡ map (values_in file.now bytes.now) places.now) }
{
    let mut lists = Vec::new(alloc);
    for place in places {
        push(&mut lists, read_ints(alloc, file, bytes, *place)?)?;
    }
    Ok(lists)
}

/// The places of the variables of the coordinates in the list of variables, from 0: of `coord`, or of
/// `coordx`, `coordy` and `coordz`.
pub fn coord_places(alloc: Global, coord: CoordVars) -> Result<Vec<u32>, AllocError>
    ensures { IfOk result (λ places. places.items ≡ coord_places coord) }
{
    match coord {
        CoordVars::Whole(coord) => [coord].to_vec(alloc),
        CoordVars::Split(x, y, z) => [x, y, z].to_vec(alloc),
    }
}

/// The places of the variables of the blocks, in order.
pub fn block_places(alloc: Global, blocks: &[BlockVar]) -> Result<Vec<u32>, AllocError>
    ensures { IfOk result (λ places. places.items ≡ block_places blocks.now) }
{
    blocks.iter().map(|block| block.var).collect(alloc)
}

fn coords(
    alloc: Global,
    file: &NcFile,
    bytes: &[u8],
    coord: CoordVars,
) -> Result<Vec<Ints>, NoMemory>
    requires header { IsHeader bytes.now (length bytes.now) file.now }
    requires vars { (nodes : ℕ) × AreCoordVars file.now nodes coord }
    ensures { IfOk result (λ lists. lists.items ≡ coords_in file.now bytes.now coord) }
{
    let places = coord_places(alloc, coord)?;
    read_lists(alloc, file, bytes, &places)
}

fn rows(
    alloc: Global,
    file: &NcFile,
    bytes: &[u8],
    blocks: &[BlockVar],
) -> Result<Vec<Ints>, NoMemory>
    requires header { IsHeader bytes.now (length bytes.now) file.now }
    requires vars { All (IsBlockVar file.now) blocks.now }
    ensures { IfOk result (λ lists. lists.items ≡ rows_in file.now bytes.now blocks.now) }
{
    let places = block_places(alloc, blocks)?;
    read_lists(alloc, file, bytes, &places)
}

/// The mesh of the variables `vars` in the file with the bytes `bytes` and the header `file`, for
/// which `find_mesh` gives `vars`; the counts pass `check_counts`. Its nodes and faces are as
/// `mesh_from` says.
pub fn read_mesh(
    alloc: Global,
    file: &NcFile,
    vars: &MeshVars,
    bytes: &[u8],
) -> Result<RawMesh, NoMemory>
    requires found { mesh_vars_in file.now ≡ Ok vars.now }
    requires header { IsHeader bytes.now (length bytes.now) file.now }
    requires counts { AreAllowedCounts vars.now.nodes vars.now.faces }
    ensures mesh { IfOk result (λ raw. raw ≡ mesh_at file.now bytes.now vars.now) }
    ensures mesh_in { IfOk result (λ raw. mesh_in file.now bytes.now ≡ Ok raw) }
{
    let coords = coords(alloc, file, bytes, vars.coord)?;
    let rows = rows(alloc, file, bytes, &vars.blocks.items)?;
    mesh_from(alloc, vars, &coords, &rows)
}
