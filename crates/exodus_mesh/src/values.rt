// The mesh that the numbers of a file say.
ghost use Rattle.std.specs.Prelude.{◌≡◌, ◌≤◌, ◌<◌, ◌+◌, ◌*◌, ◌++◌, IfOk, OnOk, length, map};
ghost use Rattle.vec_exact.specs.Counts.{AreAllowedCounts};
ghost use Rattle.exodus_mesh.specs.MeshValues.{coord_lens, row_lens, axis, node_at, nodes_of, without_repeats, closes, opened, face_of_row, rows_of, block_faces, faces_of, mesh_of};

use crate::{BlockVar, CoordVars, MeshVars};
use std::alloc::{AllocError, Global};
use vec_exact::{Faces, Ints, NoMemory, Nodes, RawMesh};

// The row of the x, y or z of all nodes, for k from 0 to 2.
fn axis<'a>(coord: CoordVars, nodes: usize, coords: &'a [Ints], k: usize) -> &'a [i32]
    requires lens { map length coords.now ≡ coord_lens coord nodes }
    requires k { k < 3 }
    ensures row { result.now ≡ axis coord nodes coords.now k }
    ensures len { length result.now ≡ nodes }
{
    match coord {
        CoordVars::Whole(_) => {
            let all = &coords[0];
            let (_, behind) = all.items.split_at(k * nodes);
            let (row, _) = behind.split_at(nodes);
            row
        }
        CoordVars::Split(_, _, _) => {
            let row = &coords[k];
            &row.items
        }
    }
}

fn make_nodes(
    alloc: Global,
    coord: CoordVars,
    nodes: usize,
    coords: &[Ints],
) -> Result<Vec<[i32; 3]>, AllocError>
    requires lens { map length coords.now ≡ coord_lens coord nodes }
    ensures { IfOk result (λ out. out.items ≡ nodes_of coord nodes coords.now) }
{
    let x = axis(coord, nodes, coords, 0);
    let y = axis(coord, nodes, coords, 1);
    let z = axis(coord, nodes, coords, 2);
    let mut out = Vec::with_capacity(alloc, nodes)?;
    for p in 0..nodes {
        out.push([x[p], y[p], z[p]])?;
    }
    Ok(out)
}

// The numbers of a row, each that equals the one before it left out.
fn without_repeats(alloc: Global, row: &[i32]) -> Result<Vec<i32>, AllocError>
    ensures { IfOk result (λ kept. kept.items ≡ without_repeats row.now) }
{
    let mut kept = Vec::new(alloc);
    for k in 0..row.len() {
        let number = row[k];
        if k == 0 || row[k - 1] != number {
            kept.push(number)?;
        }
    }
    Ok(kept)
}

// Whether the last number equals the first and is not the only one.
fn closes(numbers: &[i32]) -> bool
    ensures { result ≡ closes numbers.now }
{
    numbers.len() > 1 && numbers[0] == numbers[numbers.len() - 1]
}

#[tactic(auto, unfolding(crate::specs::MeshValues::face_of_row))]
fn make_face(alloc: Global, row: &[i32]) -> Result<Ints, AllocError>
    ensures { IfOk result (λ face. face ≡ face_of_row row.now) }
{
    let mut kept = without_repeats(alloc, row)?;
    if closes(&kept) {
        kept.pop();
    }
    Ok(Ints { items: kept })
}

// The faces of a block, one from each row.
fn put_block(
    alloc: Global,
    out: &mut Vec<Ints>,
    block: &BlockVar,
    numbers: &[i32],
) -> Result<(), AllocError>
    requires { length numbers.now ≡ block.now.faces * block.now.width }
    ensures { OnOk result (out.new.items ≡ out.old.items ++ block_faces block.now numbers.now) }
{
    let mut rest = numbers;
    for number in 0..block.faces {
        let (row, behind) = rest.split_at(block.width as usize);
        out.push(make_face(alloc, row)?)?;
        rest = behind;
    }
    Ok(())
}

fn make_faces(
    alloc: Global,
    blocks: &[BlockVar],
    count: usize,
    rows: &[Ints],
) -> Result<Vec<Ints>, AllocError>
    requires { map length rows.now ≡ row_lens blocks.now }
    ensures { IfOk result (λ out. out.items ≡ faces_of blocks.now rows.now) }
{
    let mut out = Vec::with_capacity(alloc, count)?;
    for k in 0..blocks.len() {
        let numbers = &rows[k];
        put_block(alloc, &mut out, &blocks[k], &numbers.items)?;
    }
    Ok(out)
}

/// The mesh of the variables `vars`, by their numbers.
///
/// With `Whole`, `coords` has one list of three times `nodes` numbers; with `Split`, three lists of
/// `nodes` numbers each. `rows` has one list for each block, in order, of faces times width numbers;
/// the counts pass `check_counts`. Node p has the p-th number of each row of coordinates. A face is a
/// row of a block, where a number that is repeated by its neighbour, cyclically, counts once.
#[tactic(auto, unfolding(crate::specs::MeshValues::mesh_of))]
pub fn mesh_from(
    alloc: Global,
    vars: &MeshVars,
    coords: &[Ints],
    rows: &[Ints],
) -> Result<RawMesh, NoMemory>
    requires coords { map length coords.now ≡ coord_lens vars.now.coord vars.now.nodes }
    requires rows { map length rows.now ≡ row_lens vars.now.blocks }
    requires counts { AreAllowedCounts vars.now.nodes vars.now.faces }
    ensures mesh { IfOk result (λ raw. raw ≡ mesh_of vars.now coords.now rows.now) }
{
    let nodes = make_nodes(alloc, vars.coord, vars.nodes as usize, coords)?;
    let faces = make_faces(alloc, &vars.blocks.items, vars.faces as usize, rows)?;
    Ok(RawMesh {
        nodes: Nodes { items: nodes },
        faces: Faces { items: faces },
    })
}
