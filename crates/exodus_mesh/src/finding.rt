// The variables of a mesh, looked up by their names.
ghost use Rattle.std.specs.Prelude.{◌≡◌, ◌<◌, ◌^◌, length, IfOk, IfErr, Ok};
ghost use Rattle.std.specs.List.{sum_by};
ghost use Rattle.vec_exact.specs.Answers.{Answers};
ghost use Rattle.nc_format.specs.Answers.{IsFaultOf};
ghost use Rattle.nc_format.specs.Sound.{IsSound};
ghost use Rattle.exodus_mesh.specs.declared.ids.NameFault.TheVariants.{NoMemory};
ghost use Rattle.exodus_mesh.specs.Places.{ArePlaces};
ghost use Rattle.exodus_mesh.specs.MeshNames.{coord_in, whole_nodes, split_nodes, nodes_in, block_count_in, block_in, blocks_in, mesh_vars_in};
ghost use Rattle.exodus_mesh.specs.declared.vars.BlockVar.{BlockVar};

use crate::lens::{find_named, len_of, var_len, var_lens};
use crate::places::{place_of, places};
use crate::{BlockVar, BlockVars, CoordVars, MeshVars, NameFault, NameId, NumberKind};
use nc_format::{NcFile, find_dim, find_var};
use std::alloc::Global;
use std::collections::BTreeMap;

#[tactic(auto, unfolding(crate::specs::MeshNames::coord_in, crate::specs::Names::name_of))]
fn find_coord(file: &NcFile) -> Result<CoordVars, NameFault>
    requires { IsSound file.now }
    ensures { result ≡ coord_in file.now }
{
    if let Some(coord) = find_var(file, b"coord") {
        return Ok(CoordVars::Whole(coord));
    }
    // Without either name it is `coord` that is missing.
    let x = find_named(file, NameId::Coord, b"coordx")?;
    let y = find_named(file, NameId::CoordY, b"coordy")?;
    let z = find_named(file, NameId::CoordZ, b"coordz")?;
    Ok(CoordVars::Split(x, y, z))
}

#[tactic(auto, unfolding(crate::specs::MeshNames::whole_nodes))]
fn whole_nodes(file: &NcFile, coord: u32) -> Result<u32, NameFault>
    ensures { result ≡ whole_nodes file.now coord }
{
    let (axes, nodes) = var_lens(file, NumberKind::Int, NameId::Coord, coord)?;
    if axes != 3 {
        return Err(NameFault::Shape(NameId::Coord));
    }
    Ok(nodes)
}

#[tactic(auto, unfolding(crate::specs::MeshNames::split_nodes))]
fn split_nodes(file: &NcFile, x: u32, y: u32, z: u32) -> Result<u32, NameFault>
    ensures { result ≡ split_nodes file.now x y z }
{
    let nodes = var_len(file, NumberKind::Int, NameId::CoordX, x)?;
    if var_len(file, NumberKind::Int, NameId::CoordY, y)? != nodes {
        return Err(NameFault::Shape(NameId::CoordY));
    }
    if var_len(file, NumberKind::Int, NameId::CoordZ, z)? != nodes {
        return Err(NameFault::Shape(NameId::CoordZ));
    }
    Ok(nodes)
}

fn nodes_of(file: &NcFile, coord: CoordVars) -> Result<u32, NameFault>
    ensures { result ≡ nodes_in file.now coord }
{
    match coord {
        CoordVars::Whole(coord) => whole_nodes(file, coord),
        CoordVars::Split(x, y, z) => split_nodes(file, x, y, z),
    }
}

#[tactic(auto, unfolding(crate::specs::MeshNames::block_count_in, crate::specs::Names::name_of))]
fn block_count(file: &NcFile) -> Result<u32, NameFault>
    requires { IsSound file.now }
    ensures { result ≡ block_count_in file.now }
{
    let Some(place) = find_dim(file, b"num_el_blk") else {
        return Err(NameFault::Missing(NameId::NumElBlk));
    };
    let count = len_of(&file.dims.items, place);
    if count == 0 {
        return Err(NameFault::Shape(NameId::NumElBlk));
    }
    Ok(count)
}

#[tactic(auto, unfolding(crate::specs::MeshNames::block_in, crate::specs::Names::name_of))]
fn find_block(
    alloc: Global,
    file: &NcFile,
    places: &BTreeMap<&[u8], u32>,
    number: u32,
) -> Result<BlockVar, NameFault>
    requires { ArePlaces file.now.vars places.now }
    ensures { Answers NoMemory (λ block. block) result (block_in file.now number) }
{
    let id = NameId::Connect(number);
    let name = format!(in alloc; "connect{number}")?;
    let Some(var) = place_of(&file.vars.items, places, name.as_bytes()) else {
        return Err(NameFault::Missing(id));
    };
    let (faces, width) = var_lens(file, NumberKind::Int, id, var)?;
    Ok(BlockVar { var, faces, width })
}

#[tactic(auto, using(crate::proofs::Blocks::next_block))]
fn find_blocks(alloc: Global, file: &NcFile, count: u32) -> Result<Vec<BlockVar>, NameFault>
    requires { IsSound file.now }
    ensures { Answers NoMemory (λ blocks. blocks.items) result (blocks_in file.now count) }
{
    let places = places(alloc, &file.vars.items)?;
    let mut blocks = Vec::new(alloc);
    for number in 0..count {
        blocks.push(find_block(alloc, file, &places, number + 1)?)?;
    }
    Ok(blocks)
}

// How many faces all blocks have together.
fn face_count(blocks: &[BlockVar]) -> u64
    requires { length blocks.now < 2 ^ 32 }
    ensures { result ≡ sum_by (λ (b : BlockVar). b.faces) blocks.now }
{
    let mut faces = 0;
    for block in blocks {
        faces += u64::from(block.faces);
    }
    faces
}

/// The variables of a mesh in a file, by their names: those of the coordinates, `coord` or `coordx`,
/// `coordy` and `coordz`, and those of the blocks of faces, `connect1`, `connect2` and so on (names
/// of Exodus II). Of dimensions, only the name `num_el_blk` is looked at; all else is skipped.
///
/// A fault is the first one, in this order: the names of the coordinates; their types and shapes;
/// `num_el_blk`; then block by block the name, the type and the shape of its variable. `Missing(id)`
/// says that nothing has the name, `Kind(id)` that the type is not BYTE, SHORT or INT, and `Shape(id)`
/// that the dimensions are others than a mesh has; the record dimension is none of them.
#[tactic(auto, unfolding(crate::specs::MeshNames::mesh_vars_in), using(crate::proofs::Blocks::block_count_is))]
pub fn find_mesh(alloc: Global, file: &NcFile) -> Result<MeshVars, NameFault>
    requires sound { IsSound file.now }
    ensures vars { IfOk result (λ vars. mesh_vars_in file.now ≡ Ok vars) }
    // A fault that is answered is the first one, unless memory ran out.
    ensures fault { IfErr result (IsFaultOf NoMemory (mesh_vars_in file.now)) }
{
    let coord = find_coord(file)?;
    let nodes = nodes_of(file, coord)?;
    let count = block_count(file)?;
    let blocks = find_blocks(alloc, file, count)?;
    let faces = face_count(&blocks);
    Ok(MeshVars {
        coord,
        nodes,
        blocks: BlockVars { items: blocks },
        faces,
    })
}
