// The numbers of the variables of an overlap, one list for each variable.
ghost use Rattle.std.specs.Prelude.{◌≡◌, ◌<◌, ◌*◌, ◌^◌, ◌++◌, IfOk, OnOk, All, map, flat_map, pos};
ghost use Rattle.clip.specs.Overlaps.{IsRingNumber, HasSmallNumbers};
ghost use Rattle.clip.specs.Columns.{source_column, target_column, ring_size_column, ring_numbers, ring_plane_column, triple_of, corner_numbers, corner_column};
ghost use Rattle.remap_files.specs.OverlapDocument.{IsCorner};
ghost use Rattle.clip.specs.declared.pieces.Piece.{Piece};

use clip::Piece;
use std::alloc::{AllocError, Global};

fn sources(alloc: Global, pieces: &[Piece]) -> Result<Vec<i32>, AllocError>
    requires { All HasSmallNumbers pieces.now }
    ensures { IfOk result (λ values. values.items ≡ source_column pieces.now) }
{
    let mut values = Vec::with_capacity(alloc, pieces.len())?;
    for piece in pieces {
        values.push(piece.a as i32)?;
    }
    Ok(values)
}

fn targets(alloc: Global, pieces: &[Piece]) -> Result<Vec<i32>, AllocError>
    requires { All HasSmallNumbers pieces.now }
    ensures { IfOk result (λ values. values.items ≡ target_column pieces.now) }
{
    let mut values = Vec::with_capacity(alloc, pieces.len())?;
    for piece in pieces {
        values.push(piece.b as i32)?;
    }
    Ok(values)
}

fn ring_sizes(alloc: Global, pieces: &[Piece]) -> Result<Vec<i8>, AllocError>
    ensures { IfOk result (λ values. values.items ≡ ring_size_column pieces.now) }
{
    let mut values = Vec::with_capacity(alloc, pieces.len())?;
    for piece in pieces {
        values.push(piece.ring.len() as i8)?;
    }
    Ok(values)
}

fn put_ring(values: &mut Vec<i8>, ring: &[u8]) -> Result<(), AllocError>
    requires { All IsRingNumber ring.now }
    ensures { OnOk result (values.new.items ≡ values.old.items ++ map (λ n. pos n) ring.now) }
{
    for number in ring {
        values.push(*number as i8)?;
    }
    Ok(())
}

fn ring_planes(alloc: Global, pieces: &[Piece], count: usize) -> Result<Vec<i8>, AllocError>
    requires { All HasSmallNumbers pieces.now }
    ensures { IfOk result (λ values. values.items ≡ ring_plane_column pieces.now) }
{
    let mut values = Vec::with_capacity(alloc, count)?;
    for piece in pieces {
        put_ring(&mut values, piece.ring.as_slice())?;
    }
    Ok(values)
}

fn put_corner(values: &mut Vec<i32>, corner: &[i32; 3]) -> Result<(), AllocError>
    ensures values { OnOk result (values.new.items ≡ values.old.items ++ triple_of corner.now) }
    ensures typed { OnOk result (IsCorner corner.now) }
{
    values.extend_from_slice(&[corner[0], corner[1], corner[2]])?;
    Ok(())
}

fn put_corners(values: &mut Vec<i32>, corners: &[[i32; 3]]) -> Result<(), AllocError>
    ensures values { OnOk result
        (values.new.items ≡ values.old.items ++ flat_map triple_of corners.now) }
    // Each corner is three numbers of 32 bits, as its type says.
    ensures typed { OnOk result (All IsCorner corners.now) }
{
    for corner in corners {
        put_corner(values, corner)?;
    }
    Ok(())
}

fn put_piece(values: &mut Vec<i32>, piece: &Piece) -> Result<(), AllocError>
    ensures values { OnOk result (values.new.items ≡ values.old.items ++ corner_numbers piece.now) }
    ensures typed { OnOk result (All IsCorner piece.now.corners) }
{
    put_corners(values, piece.corners.items.as_slice())
}

fn corners(alloc: Global, pieces: &[Piece], count: usize) -> Result<Vec<i32>, AllocError>
    requires { 3 * count < 2 ^ 63 }
    ensures values { IfOk result (λ values. values.items ≡ corner_column pieces.now) }
    ensures typed { OnOk result (All (λ (p : Piece). All IsCorner p.corners) pieces.now) }
{
    let mut values = Vec::with_capacity(alloc, 3 * count)?;
    for piece in pieces {
        put_piece(&mut values, piece)?;
    }
    Ok(values)
}

/// The columns with a number for each piece.
pub fn piece_columns(
    alloc: Global,
    pieces: &[Piece],
) -> Result<(Vec<i32>, Vec<i32>, Vec<i8>), AllocError>
    requires { All HasSmallNumbers pieces.now }
    ensures source { IfOk result (λ p. p.0.items ≡ source_column pieces.now) }
    ensures target { IfOk result (λ p. p.1.items ≡ target_column pieces.now) }
    ensures ring_size { IfOk result (λ p. p.2.items ≡ ring_size_column pieces.now) }
{
    let sources = sources(alloc, pieces)?;
    let targets = targets(alloc, pieces)?;
    let ring_sizes = ring_sizes(alloc, pieces)?;
    Ok((sources, targets, ring_sizes))
}

/// The columns with numbers for each of so many corners.
pub fn ring_columns(
    alloc: Global,
    pieces: &[Piece],
    count: usize,
) -> Result<(Vec<i8>, Vec<i32>), AllocError>
    requires small { All HasSmallNumbers pieces.now }
    requires count { 3 * count < 2 ^ 63 }
    ensures planes { IfOk result (λ p. p.0.items ≡ ring_plane_column pieces.now) }
    ensures corners { IfOk result (λ p. p.1.items ≡ corner_column pieces.now) }
    ensures typed { OnOk result (All (λ (p : Piece). All IsCorner p.corners) pieces.now) }
{
    let ring_planes = ring_planes(alloc, pieces, count)?;
    let corners = corners(alloc, pieces, count)?;
    Ok((ring_planes, corners))
}
