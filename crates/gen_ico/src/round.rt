// The faces round a node.
ghost use Rattle.std.specs.Prelude.{◌≡◌, ◌≤◌, ◌<◌, ◌+◌, ◌++◌, nat_lt, pos, All, IfOk, OnOk, [], length, slice_index_or};
ghost use Rattle.std.specs.Ordering.{int_eq};
ghost use Rattle.std.specs.List.{position_or_len};
ghost use Rattle.gen_ico.specs.Dual.{behind, dual_face, faces_from, has_at, is_followed, place_followed, place_of};
ghost use Rattle.gen_ico.specs.Holding.{holding, IsTriple};

use crate::holders::numbers;
use std::alloc::{AllocError, Global};
use vec_exact::Ints;

// The node `k` places behind place `s` of a face, cyclically.
fn behind(face: &[i32], s: usize, k: usize) -> i32
    requires place { s < length face.now }
    requires size { length face.now ≤ 3 }
    requires few { k ≤ 2 }
    ensures { result ≡ behind face.now s k }
{
    face[(s + k) % face.len()]
}

// Whether the face has `p` at place `s`, followed by `h`.
fn has_at(face: &[i32], s: usize, p: i32, h: i32) -> bool
    requires place { s < length face.now }
    requires size { length face.now ≤ 3 }
    ensures { result ≡ has_at p h face.now s }
{
    behind(face, s, 0) == p && behind(face, s, 1) == h
}

// The first place at which `p` is followed by `h`, or the count of places where there is none.
fn place_followed(face: &[i32], p: i32, h: i32) -> usize
    requires { length face.now ≤ 3 }
    ensures value { result ≡ place_followed p h face.now }
    ensures within { result ≤ length face.now }
{
    for s in 0..face.len() {
        if has_at(face, s, p, h) {
            return s;
        }
    }
    face.len()
}

fn is_followed(face: &[i32], p: i32, h: i32) -> bool
    requires { length face.now ≤ 3 }
    ensures { result ≡ is_followed p h face.now }
{
    place_followed(face, p, h) < face.len()
}

fn stands_at(face: &[i32], s: usize, p: i32) -> bool
    requires { s < length face.now }
    ensures { result ≡ int_eq (slice_index_or face.now s (pos 0)) p }
{
    face[s] == p
}

// The first place at which `p` stands, or the count of places where there is none.
fn place_of(face: &[i32], p: i32) -> usize
    ensures value { result ≡ place_of p face.now }
    ensures within { result ≤ length face.now }
{
    for s in 0..face.len() {
        if stands_at(face, s, p) {
            return s;
        }
    }
    face.len()
}

// The three numbers of face `t`, from 0.
fn corners(faces: &[Ints], t: usize) -> &[i32]
    requires face { t < length faces.now }
    requires triangles { All IsTriple faces.now }
    ensures numbers { result.now ≡ slice_index_or faces.now t [] }
    ensures count { length result.now ≡ 3 }
{
    numbers(faces, t)
}

// The least face in which `p` is followed by `h`, or the count of faces where there is none. It is
// among those that hold `p`.
fn least_followed(faces: &[Ints], holders: &[u32], p: i32, h: i32) -> usize
    requires holders { holders.now ≡ holding faces.now p }
    requires triangles { All IsTriple faces.now }
    ensures value { result ≡ position_or_len (is_followed p h) faces.now }
    ensures within { result ≤ length faces.now }
{
    for t in holders {
        if is_followed(corners(faces, *t as usize), p, h) {
            return *t as usize;
        }
    }
    faces.len()
}

// Puts the faces round node `p`, of which the last one put has `p` followed by a node and that by `h`.
fn put_others(
    out: &mut Vec<i32>,
    faces: &[Ints],
    holders: &[u32],
    p: i32,
    first: usize,
    mut h: i32,
) -> Result<(), AllocError>
    requires holders { holders.now ≡ holding faces.now p }
    requires triangles { All IsTriple faces.now }
    requires count { length faces.now ≤ 1048576 }
    ensures { OnOk result (out.new.items ≡ out.old.items ++ faces_from faces.now p first h 16) }
{
    for step in 0..16_usize {
        let t = least_followed(faces, holders, p, h);
        if t == faces.len() || t == first {
            return Ok(());
        }
        out.push(t as i32 + 1)?;
        let face = corners(faces, t);
        h = behind(face, place_followed(face, p, h), 2);
    }
    Ok(())
}

// The dual face of node `p`, which these faces hold.
pub fn dual_face(
    alloc: Global,
    faces: &[Ints],
    holders: &[u32],
    p: i32,
) -> Result<Vec<i32>, AllocError>
    requires holders { holders.now ≡ holding faces.now p }
    requires triangles { All IsTriple faces.now }
    requires count { length faces.now ≤ 1048576 }
    ensures { IfOk result (λ face. face.items ≡ dual_face faces.now p) }
{
    let mut out = Vec::with_capacity(alloc, 6)?;
    let Some(first) = holders.first() else {
        return Ok(out);
    };
    let first = *first as usize;
    out.push(first as i32 + 1)?;
    let face = corners(faces, first);
    let h = behind(face, place_of(face, p), 2);
    put_others(&mut out, faces, holders, p, first, h)?;
    Ok(out)
}
