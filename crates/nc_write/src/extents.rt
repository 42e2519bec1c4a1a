//! How many bytes the values of variables take, by the lengths of the dimensions (netCDF classic
//! format specification). A product or a sum of lengths has no bound, so each stops at 2^63, which
//! is past every file and a multiple of 4.
ghost use Rattle.std.specs.Prelude.{◌≡◌, ◌≤◌, ◌*◌, ◌+◌, ◌^◌, min, slice_index};
ghost use Rattle.nc_write.specs.Extents.{rounded, lens_of, product_of, has_records, piece_len, share_of};

use crate::kinds::size_of;
use crate::{DocDim, NcKind};

/// Where products and sums stop: 2^63.
const STOP: u64 = 9_223_372_036_854_775_808;

/// A product, or 2^63 where it is greater.
pub fn times(a: u64, b: u64) -> u64
    ensures { result ≡ min (a * b) (2 ^ 63) }
{
    a.saturating_mul(b).min(STOP)
}

/// A sum, or 2^63 where it is greater.
pub fn plus(a: u64, b: u64) -> u64
    ensures { result ≡ min (a + b) (2 ^ 63) }
{
    a.saturating_add(b).min(STOP)
}

/// Up to the next multiple of 4.
pub fn rounded(n: u64) -> u64
    requires { n ≤ 2 ^ 63 }
    ensures { result ≡ rounded n }
{
    n + (4 - n % 4) % 4
}

// The length of the dimension at a place, from 0; 0 where there is none.
#[tactic(auto, using(crate::proofs::Lens::len_here, crate::proofs::Lens::len_past))]
fn len_at(dims: &[DocDim], id: u32) -> u32
    ensures { result ≡ slice_index (lens_of dims.now) id }
{
    match dims.get(id as usize) {
        Some(dim) => dim.len,
        None => 0,
    }
}

// The product of the lengths, times a first factor.
fn product(dims: &[DocDim], ids: &[u32], first: u64) -> u64
    requires { first ≤ 8 }
    ensures { result ≡ min (first * product_of (lens_of dims.now) ids.now) (2 ^ 63) }
{
    let mut product = first;
    for id in ids {
        product = times(product, u64::from(len_at(dims, *id)));
    }
    product
}

/// Whether a variable over these dimensions is a record variable: its first dimension is the record
/// dimension.
#[tactic(auto, unfolding(crate::specs::Extents::has_records))]
pub fn has_records(dims: &[DocDim], ids: &[u32]) -> bool
    ensures { result ≡ has_records (lens_of dims.now) ids.now }
{
    match ids {
        [] => false,
        [id, ..] => len_at(dims, *id) == 0,
    }
}

/// The bytes of one piece of values of a type over these dimensions: of all values, or of those of
/// one record; 2^63 where they are more.
#[tactic(auto, unfolding(crate::specs::Extents::piece_len, crate::specs::Extents::piece_count))]
pub fn piece_len(dims: &[DocDim], kind: NcKind, ids: &[u32]) -> u64
    ensures { result ≡ min (piece_len (lens_of dims.now) kind ids.now) (2 ^ 63) }
{
    let size = size_of(kind);
    match ids {
        [] => size,
        [id, inner @ ..] => {
            if len_at(dims, *id) == 0 {
                product(dims, inner, size)
            } else {
                product(dims, ids, size)
            }
        }
    }
}

/// What a variable adds to the step from one record to the next: nothing, or the bytes of one of its
/// records, rounded where there are several record variables; 2^63 where they are more.
pub fn record_share(dims: &[DocDim], several: bool, kind: NcKind, ids: &[u32]) -> u64
    ensures { result ≡ min
        (share_of several (has_records (lens_of dims.now) ids.now)
        (piece_len (lens_of dims.now) kind ids.now))
        (2 ^ 63) }
{
    if !has_records(dims, ids) {
        return 0;
    }
    let piece = piece_len(dims, kind, ids);
    if several { rounded(piece) } else { piece }
}
