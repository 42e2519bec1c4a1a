// The pieces that the numbers of a file say, row by row.
ghost use Rattle.std.specs.Prelude.{◌≡◌, ◌≤◌, ◌<◌, ◌+◌, ◌*◌, ℤ, List, [], ◌∷◌, All, length, map, None, Ok, IfOk, IfErr, slice_index_or, unsigned_abs};
ghost use Rattle.std.specs.List.{list_all, range_with_len};
ghost use Rattle.exodus_mesh.specs.MeshValues.{rows_of};
ghost use Rattle.clip.specs.Overlaps.{IsFaceCount};
ghost use Rattle.remap_files.specs.Rows.{HasRowLens, IsGoodRing, with_corners, piece_with};
ghost use Rattle.nc_format.specs.Answers.{IsFaultOf};
ghost use Rattle.exodus_mesh.specs.declared.faults.FileFault.TheVariants.{NoMemory};
ghost use Rattle.exodus_mesh.specs.Answers.{IsOfRows};
ghost use Rattle.exodus_mesh.specs.Pairs.{is_within, exceeds, has_good_faces};
ghost use Rattle.remap_files.specs.OverlapRows.{columns_of, ring_begin, ring_len, has_good_ring, is_good_row, piece_at, row_fault, overlap_of, overlap_lens};

use crate::OverlapVars;
use arrayvec::ArrayVec;
use clip::{Corners, Overlap, Piece, Pieces, Ring};
use exodus_mesh::{FileFault, has_good_faces, is_within};
use smallvec::SmallVec;
use std::alloc::{AllocError, Global};
use std::marker::Model;
use vec_exact::Ints;

/// The numbers of the four variables that tell the rows of an overlap without their corners.
#[derive(Drop)]
pub struct OverlapRows<'a> {
    source: &'a [i32],
    target: &'a [i32],
    ring_size: &'a [i32],
    ring_plane: &'a [i32],
}

impl<'a> Model for OverlapRows<'a> {
    ghost use Rattle.std.specs.Prelude.{[]};
    ghost use Rattle.remap_files.specs.OverlapRows.{Columns};

    ghost Value = { Columns };

    ghost view = { λ r. record {
      source = r.source.now;
      target = r.target.now;
      ring_size = r.ring_size.now;
      ring_plane = r.ring_plane.now;
      corner = [];
    } };
}

// The numbers of variable k, from 0.
fn numbers<'a>(values: &'a [Ints], k: usize) -> &'a [i32]
    requires { k < length values.now }
    ensures { result.now ≡ slice_index_or values.now k [] }
{
    let list = &values[k];
    &list.items
}

/// The rows that the first four lists tell: those of `source`, `target`, `ring_size` and `ring_plane`.
pub fn rows_of<'a>(values: &'a [Ints]) -> OverlapRows<'a>
    requires { 4 ≤ length values.now }
    ensures { result ≡ with_corners (columns_of values.now) [] }
{
    OverlapRows {
        source: numbers(values, 0),
        target: numbers(values, 1),
        ring_size: numbers(values, 2),
        ring_plane: numbers(values, 3),
    }
}

fn are_plane_numbers(ring: &[i32]) -> bool
    ensures { result ≡ list_all (is_within 1 32) ring.now }
{
    ring.iter().all(|number| is_within(1, 32, *number))
}

// Whether the ring of row r, which begins at a place, is there whole and has good numbers.
#[tactic(auto, unfolding(crate::specs::OverlapRows::has_good_ring))]
fn has_good_ring(ring_size: &[i32], ring_plane: &[i32], r: usize, begin: usize) -> bool
    requires row { r < length ring_size.now }
    requires begin { begin ≡ ring_begin ring_size.now r }
    requires inside { begin ≤ length ring_plane.now }
    ensures { result ≡ has_good_ring ring_size.now ring_plane.now r }
{
    let size = ring_size[r];
    if !is_within(3, 32, size) {
        return false;
    }
    let (_, behind) = ring_plane.split_at(begin);
    let len = size.unsigned_abs() as usize;
    if behind.len() < len {
        return false;
    }
    let (ring, _) = behind.split_at(len);
    are_plane_numbers(ring)
}

fn make_ring(numbers: &[i32]) -> Ring
    requires few { length numbers.now ≤ 32 }
    requires small { All (λ z. unsigned_abs z ≤ 32) numbers.now }
    ensures { result.items ≡ map unsigned_abs numbers.now }
{
    let mut ring = ArrayVec::new();
    for number in numbers {
        ring.push(number.unsigned_abs() as u8);
    }
    ring
}

// So many corners, of three numbers each.
fn make_corners(alloc: Global, count: usize, numbers: &[i32]) -> Result<Corners, AllocError>
    requires { 3 * count ≤ length numbers.now }
    ensures { IfOk result (λ corners. corners ≡ rows_of count 3 numbers.now) }
{
    let mut items = SmallVec::with_capacity(alloc, count)?;
    let mut rest = numbers;
    for _ in 0..count {
        let (corner, behind) = rest.split_at(3);
        items.push([corner[0], corner[1], corner[2]])?;
        rest = behind;
    }
    Ok(Corners { items })
}

// Whether row r, from 0, whose ring begins at a place, is at no fault.
fn is_good_row(vars: &OverlapVars, rows: &OverlapRows, r: usize, begin: usize) -> bool
    requires lens { HasRowLens vars.now rows.now }
    requires row { r < vars.now.pieces }
    requires begin { begin ≡ ring_begin rows.now.ring_size r }
    requires inside { begin ≤ length rows.now.ring_plane }
    ensures { result ≡ is_good_row vars.now.faces_a vars.now.faces_b rows.now r }
{
    has_good_faces(vars.faces_a, vars.faces_b, rows.source, rows.target, r)
        && has_good_ring(rows.ring_size, rows.ring_plane, r, begin)
}

// The size of row r in the column of ring sizes.
fn size_at(ring_size: &[i32], r: usize) -> usize
    requires { r < length ring_size.now }
    ensures { result ≡ ring_len ring_size.now r }
{
    ring_size[r].unsigned_abs() as usize
}

/// The length of the ring of row r, from 0.
pub fn ring_len(rows: &OverlapRows, r: usize) -> usize
    requires { r < length rows.now.ring_size }
    ensures { result ≡ ring_len rows.now.ring_size r }
{
    size_at(rows.ring_size, r)
}

// How many numbers all rings have together.
fn plane_count(rows: &OverlapRows) -> usize
    ensures { result ≡ length rows.now.ring_plane }
{
    rows.ring_plane.len()
}

/// The number of the first row at fault, from 1, or none, whatever the corners are: what `overlap_from`
/// names by `Row`.
pub fn check_rows(vars: &OverlapVars, rows: &OverlapRows) -> Option<u32>
    requires lens { HasRowLens vars.now rows.now }
    requires count { vars.now.pieces ≤ 8388608 }
    ensures { (corner : List ℤ) → result ≡ row_fault vars.now (with_corners rows.now corner) }
{
    let mut begin = 0;
    for number in 0..vars.pieces {
        let r = number as usize;
        if !is_good_row(vars, rows, r, begin) {
            return Some(number + 1);
        }
        begin += ring_len(rows, r);
    }
    let planes = plane_count(rows);
    if begin < planes {
        return Some(vars.pieces);
    }
    None
}

/// The piece of row r, from 0, whose ring begins at a place of `ring_plane`. Its corners are the first
/// of `corners`, three numbers for each.
pub fn piece_of_row(
    alloc: Global,
    rows: &OverlapRows,
    r: usize,
    begin: usize,
    corners: &[i32],
) -> Result<Piece, AllocError>
    requires source { r < length rows.now.source }
    requires target { r < length rows.now.target }
    requires ring_size { r < length rows.now.ring_size }
    requires begin { begin ≡ ring_begin rows.now.ring_size r }
    requires ring { IsGoodRing rows.now.ring_size rows.now.ring_plane r }
    requires corners { 3 * ring_len rows.now.ring_size r ≤ length corners.now }
    ensures { IfOk result (λ p. p ≡ piece_with rows.now r corners.now) }
{
    let len = ring_len(rows, r);
    let (_, planes) = rows.ring_plane.split_at(begin);
    let (ring, _) = planes.split_at(len);
    Ok(Piece {
        a: rows.source[r].unsigned_abs(),
        b: rows.target[r].unsigned_abs(),
        ring: make_ring(ring),
        corners: make_corners(alloc, len, corners)?,
    })
}

// The pieces of all rows, none of which is at fault.
fn make_pieces(
    alloc: Global,
    vars: &OverlapVars,
    rows: &OverlapRows,
    corners: &[i32],
) -> Result<Vec<Piece>, AllocError>
    requires lens { HasRowLens vars.now rows.now }
    requires corners { length corners.now ≡ 3 * vars.now.corners }
    requires count { vars.now.pieces ≤ 8388608 }
    requires good { row_fault vars.now rows.now ≡ None }
    ensures { IfOk result (λ pieces. pieces.items
        ≡ map (piece_at (with_corners rows.now corners.now)) (range_with_len 0 vars.now.pieces)) }
{
    let mut pieces = Vec::with_capacity(alloc, vars.pieces as usize)?;
    let mut begin = 0;
    for number in 0..vars.pieces {
        let r = number as usize;
        let (_, behind) = corners.split_at(3 * begin);
        pieces.push(piece_of_row(alloc, rows, r, begin, behind)?)?;
        begin += ring_len(rows, r);
    }
    Ok(pieces)
}

/// The overlap with the counts of `vars` and the numbers of its five variables, in the order
/// `source`, `target`, `ring_size`, `ring_plane` and `corner`.
///
/// There are 1 to 1,048,576 faces of each mesh and at most 8,388,608 pieces. With pieces, `values` has
/// a list for each variable: three with a number for each piece, one with `corners` numbers, and one
/// with three times as many; without a piece it has none.
///
/// `Row(r)` names the first row, from 1, whose source or target is no face of its mesh, whose pair of
/// faces does not exceed that of the row before, whose ring does not have 3 to 32 numbers or goes
/// beyond the end of `ring_plane`, or has a number outside 1 to 32. Where there is none it names the
/// last row, if `ring_plane` goes on behind its ring. There is no other error but want of memory.
pub fn overlap_from(
    alloc: Global,
    vars: &OverlapVars,
    values: &[Ints],
) -> Result<Overlap, FileFault>
    requires source_faces { IsFaceCount vars.now.faces_a }
    requires target_faces { IsFaceCount vars.now.faces_b }
    requires pieces { vars.now.pieces ≤ 8388608 }
    requires lists { map length values.now ≡ overlap_lens vars.now }
    ensures overlap { IfOk result (λ overlap. overlap_of vars.now values.now ≡ Ok overlap) }
    // A fault that is answered is the first one, unless memory ran out.
    ensures fault { IfErr result (IsFaultOf NoMemory (overlap_of vars.now values.now)) }
    ensures of_rows { IfErr result IsOfRows }
{
    if vars.pieces == 0 {
        return Ok(Overlap {
            faces_a: vars.faces_a,
            faces_b: vars.faces_b,
            pieces: Pieces {
                items: Vec::new(alloc),
            },
        });
    }
    let rows = rows_of(values);
    if let Some(row) = check_rows(vars, &rows) {
        return Err(FileFault::Row(row));
    }
    let pieces = make_pieces(alloc, vars, &rows, numbers(values, 4))?;
    Ok(Overlap {
        faces_a: vars.faces_a,
        faces_b: vars.faces_b,
        pieces: Pieces { items: pieces },
    })
}
