// Which faces hold a node.
ghost use Rattle.std.specs.Prelude.{ℕ, ◌≡◌, ◌≤◌, ◌<◌, ◌+◌, ◌-◌, ◌++◌, pos, All, IfOk, OnOk, [], ◌∷◌, length, replicate, slice_index_or, unsigned_abs};
ghost use Rattle.gen_ico.specs.Holding.{hit, hits, IsNumberTo, IsTableBelow, IsTriangle};

use std::alloc::{AllocError, Global};
use std::marker::Model;
use vec_exact::Ints;

// Numbers of faces, from 0, seen as a list.
#[derive(Drop)]
pub struct Holders {
    pub faces: Vec<u32>,
}

impl Model for Holders {
    ghost use Rattle.std.specs.Prelude.{List, ℕ};

    ghost Value = { List ℕ };

    ghost view = { λ s. s.faces.items };
}

// Lists with room for the six faces that most nodes have.
fn empty_lists(alloc: Global, count: usize) -> Result<Vec<Holders>, AllocError>
    ensures { IfOk result (λ lists. lists.items ≡ replicate count []) }
{
    let mut lists = Vec::with_capacity(alloc, count)?;
    for _ in 0..count {
        let faces = Vec::with_capacity(alloc, 6)?;
        lists.push(Holders { faces })?;
    }
    Ok(lists)
}

// Puts face `t` into the list of one node.
#[tactic(auto, using(crate::proofs::Tables::hit_list))]
fn put(lists: &mut Vec<Holders>, number: i32, t: u32) -> Result<(), AllocError>
    requires number { IsNumberTo (length lists.old.items) number }
    ensures count { OnOk result (length lists.new.items ≡ length lists.old.items) }
    ensures lists { OnOk result ((q : ℕ) → q < length lists.old.items
        → slice_index_or lists.new.items q []
        ≡ slice_index_or lists.old.items q [] ++ hit (pos (q + 1)) t number) }
{
    let holders = &mut lists[number as usize - 1];
    holders.faces.push(t)?;
    Ok(())
}

// Puts face `t` into the lists of its nodes.
fn put_face(lists: &mut Vec<Holders>, face: &[i32], t: u32) -> Result<(), AllocError>
    requires numbers { All (IsNumberTo (length lists.old.items)) face.now }
    ensures count { OnOk result (length lists.new.items ≡ length lists.old.items) }
    ensures lists { OnOk result ((q : ℕ) → q < length lists.old.items
        → slice_index_or lists.new.items q []
        ≡ slice_index_or lists.old.items q [] ++ hits (pos (q + 1)) t face.now) }
{
    for number in face {
        put(lists, *number, t)?;
    }
    Ok(())
}

// The numbers of the nodes of face `t`, from 0.
pub fn numbers(faces: &[Ints], t: usize) -> &[i32]
    requires { t < length faces.now }
    ensures { result.now ≡ slice_index_or faces.now t [] }
{
    let face = &faces[t];
    &face.items
}

// The faces that hold node `q`, from 0.
pub fn held_by(lists: &[Holders], q: usize) -> &[u32]
    requires { q < length lists.now }
    ensures { result.now ≡ slice_index_or lists.now q [] }
{
    let holders = &lists[q];
    &holders.faces
}

// For each of `count` nodes the faces that hold it, ascending.
pub fn all_holders(alloc: Global, count: usize, faces: &[Ints]) -> Result<Vec<Holders>, AllocError>
    requires triangles { All (IsTriangle count) faces.now }
    requires faces { length faces.now ≤ 1048576 }
    ensures count { IfOk result (λ lists. length lists.items ≡ count) }
    ensures lists { IfOk result (λ lists. IsTableBelow faces.now (length faces.now) lists.items) }
{
    let mut lists = empty_lists(alloc, count)?;
    for t in 0..faces.len() {
        put_face(&mut lists, numbers(faces, t), t as u32)?;
    }
    Ok(lists)
}
