// Pieces as columns of numbers, as an overlap file has them.
ghost use Rattle.std.specs.Prelude.{◌≡◌, ◌≤◌, ◌++◌, ◌∷◌, [], ℕ, List, IfOk, OnOk, All, map, flat_map, pos, length, slice_range};
ghost use Rattle.clip.specs.declared.pieces.Piece.{Piece as OnePiece};
ghost use Rattle.clip.specs.declared.columns.Place.{Place as OnePlace};
ghost use Rattle.clip.specs.Overlaps.{IsRingNumber, HasSmallNumbers};
ghost use Rattle.clip.specs.Columns.{AreColumnsOf, ring_numbers, triple_of, corner_numbers};

use crate::lists::Ring;
use crate::pieces::{Corners, Piece, Pieces};
use smallvec::SmallVec;
use std::alloc::Global;
use vec_exact::NoMemory;

/// A place in a list of pieces, where a piece begins or ends, by what stands before it. A list that
/// keeps whole pieces counts these alone, and the other two numbers are 0.
#[derive(Clone, Copy, Debug, Default, PartialEq, Eq)]
pub struct Place {
    /// How many pieces.
    pub pieces: usize,
    /// How many numbers of rings.
    pub ring_numbers: usize,
    /// How many components of corners.
    pub corner_components: usize,
}

/// A list of pieces, in whatever form it keeps them. Pieces join at its end.
pub trait PieceList: Sized + Drop {
    /// It holds these pieces, in this order, and no other.
    ghost holds: { Self → List OnePiece → Type 0 };

    /// The place stands behind these pieces, in each list that begins with them.
    ghost is_behind: { List OnePiece → OnePlace → Type 0 };

    /// The list without a piece.
    fn none(alloc: Global) -> Self
        ensures { holds result [] };

    /// Puts a piece at the end. Its face numbers are below 2^31. After an error the list is of no
    /// further use: part of the piece may be in it. So it is with the other calls that put pieces.
    fn push(&mut self, piece: Piece) -> Result<(), NoMemory>
        requires { HasSmallNumbers piece }
        ensures { (pieces : List OnePiece) → holds self.old pieces
            → OnOk result (holds self.new (pieces ++ piece ∷ [])) };

    /// Puts the pieces of another list at the end.
    fn append(&mut self, other: Self) -> Result<(), NoMemory>
        ensures { (pieces others : List OnePiece) → holds self.old pieces → holds other others
            → OnOk result (holds self.new (pieces ++ others)) };

    /// The place behind the last piece.
    fn end(&self) -> Place
        ensures { (pieces : List OnePiece) → holds self.now pieces → is_behind pieces result };

    /// Puts the pieces between two places of another list at the end. `NoMemory` where memory ran
    /// out.
    fn append_between(
        &mut self,
        alloc: Global,
        other: &Self,
        from: Place,
        to: Place,
    ) -> Result<(), NoMemory>
        ensures { (pieces before between after : List OnePiece) → holds self.old pieces
            → holds other.now (before ++ (between ++ after))
            → is_behind before from → is_behind (before ++ between) to
            → OnOk result (holds self.new (pieces ++ between)) };
}

// The elements from place `from` up to place `to`, or none where there is no such part.
fn part<T>(elements: &[T], from: usize, to: usize) -> &[T]
    ensures within { from ≤ to → to ≤ length elements.now
        → result.now ≡ slice_range elements.now from to }
    ensures outside { ¬ ((from ≤ to) × (to ≤ length elements.now)) → result.now ≡ [] }
{
    elements.get(from..to).unwrap_or(&[])
}

fn copy_of(alloc: Global, piece: &Piece) -> Result<Piece, NoMemory>
    ensures { IfOk result (λ copied. copied ≡ piece.now) }
{
    Ok(Piece {
        a: piece.a,
        b: piece.b,
        ring: piece.ring.clone()?,
        corners: Corners {
            items: SmallVec::from_slice(alloc, piece.corners.items.as_slice())?,
        },
    })
}

fn push_copies(list: &mut Vec<Piece>, alloc: Global, pieces: &[Piece]) -> Result<(), NoMemory>
    ensures { OnOk result (list.new.items ≡ list.old.items ++ pieces.now) }
{
    for piece in pieces {
        list.push(copy_of(alloc, piece)?)?;
    }
    Ok(())
}

impl PieceList for Pieces {
    ghost use Rattle.std.specs.Prelude.{◌≡◌, List, length};
    ghost use Rattle.clip.specs.declared.pieces.Piece.{Piece as OnePiece};

    ghost holds = { λ list pieces. list ≡ pieces };

    ghost is_behind = { λ pieces place. place.pieces ≡ length pieces };

    fn none(alloc: Global) -> Self {
        Pieces {
            items: Vec::new(alloc),
        }
    }

    fn push(&mut self, piece: Piece) -> Result<(), NoMemory> {
        self.items.push(piece)?;
        Ok(())
    }

    fn append(&mut self, other: Self) -> Result<(), NoMemory> {
        let mut items = other.items;
        self.items.append(&mut items)?;
        Ok(())
    }

    fn end(&self) -> Place {
        Place {
            pieces: self.items.len(),
            ring_numbers: 0,
            corner_components: 0,
        }
    }

    fn append_between(
        &mut self,
        alloc: Global,
        other: &Self,
        from: Place,
        to: Place,
    ) -> Result<(), NoMemory> {
        push_copies(
            &mut self.items,
            alloc,
            part(&other.items, from.pieces, to.pieces),
        )
    }
}

/// The numbers of pieces in columns, each column in the order of the pieces.
#[derive(Drop)]
pub struct Columns {
    /// The source face of each piece, from 1.
    pub sources: Vec<i32>,
    /// The target face of each piece, from 1.
    pub targets: Vec<i32>,
    /// The length of each ring, from 3 to 32.
    pub ring_sizes: Vec<i8>,
    /// The numbers of all rings, each from 1 to 32.
    pub ring_planes: Vec<i8>,
    /// The three components of each corner.
    pub corners: Vec<i32>,
}

fn put_ring(numbers: &mut Vec<i8>, ring: &Ring) -> Result<(), NoMemory>
    requires { All IsRingNumber ring.now.items }
    ensures { OnOk result (numbers.new.items
        ≡ numbers.old.items ++ map (λ n. pos n) ring.now.items) }
{
    for number in ring.as_slice() {
        numbers.push(*number as i8)?;
    }
    Ok(())
}

fn put_corner(numbers: &mut Vec<i32>, corner: &[i32; 3]) -> Result<(), NoMemory>
    ensures { OnOk result (numbers.new.items ≡ numbers.old.items ++ triple_of corner.now) }
{
    numbers.extend_from_slice(&[corner[0], corner[1], corner[2]])?;
    Ok(())
}

fn put_corners(numbers: &mut Vec<i32>, corners: &Corners) -> Result<(), NoMemory>
    ensures { OnOk result (numbers.new.items
        ≡ numbers.old.items ++ flat_map triple_of corners.now) }
{
    for corner in corners.items.as_slice() {
        put_corner(numbers, corner)?;
    }
    Ok(())
}

impl PieceList for Columns {
    ghost use Rattle.clip.specs.Columns.{AreColumnsOf, IsBehind};

    ghost holds = { λ columns pieces. AreColumnsOf pieces columns };

    ghost is_behind = { λ pieces place. IsBehind pieces place };

    fn none(alloc: Global) -> Self {
        Columns {
            sources: Vec::new(alloc),
            targets: Vec::new(alloc),
            ring_sizes: Vec::new(alloc),
            ring_planes: Vec::new(alloc),
            corners: Vec::new(alloc),
        }
    }

    fn push(&mut self, piece: Piece) -> Result<(), NoMemory> {
        self.sources.push(piece.a as i32)?;
        self.targets.push(piece.b as i32)?;
        self.ring_sizes.push(piece.ring.len() as i8)?;
        put_ring(&mut self.ring_planes, &piece.ring)?;
        put_corners(&mut self.corners, &piece.corners)
    }

    fn append(&mut self, other: Self) -> Result<(), NoMemory> {
        self.sources.extend_from_slice(&other.sources)?;
        self.targets.extend_from_slice(&other.targets)?;
        self.ring_sizes.extend_from_slice(&other.ring_sizes)?;
        self.ring_planes.extend_from_slice(&other.ring_planes)?;
        self.corners.extend_from_slice(&other.corners)?;
        Ok(())
    }

    fn end(&self) -> Place {
        Place {
            pieces: self.sources.len(),
            ring_numbers: self.ring_planes.len(),
            corner_components: self.corners.len(),
        }
    }

    fn append_between(
        &mut self,
        _alloc: Global,
        other: &Self,
        from: Place,
        to: Place,
    ) -> Result<(), NoMemory> {
        self.sources
            .extend_from_slice(part(&other.sources, from.pieces, to.pieces))?;
        self.targets
            .extend_from_slice(part(&other.targets, from.pieces, to.pieces))?;
        self.ring_sizes
            .extend_from_slice(part(&other.ring_sizes, from.pieces, to.pieces))?;
        self.ring_planes.extend_from_slice(part(
            &other.ring_planes,
            from.ring_numbers,
            to.ring_numbers,
        ))?;
        self.corners.extend_from_slice(part(
            &other.corners,
            from.corner_components,
            to.corner_components,
        ))?;
        Ok(())
    }
}
