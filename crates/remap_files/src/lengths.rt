// How long the file of an overlap is.
ghost use Rattle.std.specs.Prelude.{◌≡◌, ◌≤◌, ◌*◌, ◌^◌, All, length};
ghost use Rattle.clip.specs.Overlaps.{OverlapParts, IsSoundOverlap};
ghost use Rattle.nc_write.specs.File.{file_of};
ghost use Rattle.nc_write.specs.Extents.{rounded};
ghost use Rattle.remap_files.specs.OverlapDocument.{HasRingSize, corner_count_of, overlap_document, overlap_file_len};

use clip::{Overlap, Piece};

// Up to the next multiple of 4.
fn rounded(n: u64) -> u64
    requires { n ≤ 2 ^ 62 }
    ensures { result ≡ rounded n }
{
    n + (4 - n % 4) % 4
}

/// The length, in bytes, of the file of an overlap with so many pieces and so many corners: at most
/// 8,388,608 pieces with at most 32 corners each. It is known before the document is made.
#[tactic(auto, using(crate::proofs::OverlapLength::length_overlap_file))]
pub fn overlap_length(pieces: u64, corners: u64) -> u64
    requires pieces { pieces ≤ 8388608 }
    requires corners { corners ≤ 32 * pieces }
    ensures formula { result ≡ overlap_file_len pieces corners }
    // It is the length of the one file of the document of each such overlap.
    ensures file_length { (o : OverlapParts) → IsSoundOverlap o → length o.pieces ≡ pieces
        → corner_count_of o.pieces ≡ corners → length (file_of (overlap_document o)) ≡ result }
{
    if pieces == 0 {
        return 104;
    }
    392 + 4 * pieces + 4 * pieces + rounded(pieces) + rounded(corners) + 12 * corners
}

fn count_corners(pieces: &[Piece]) -> u64
    requires few { length pieces.now ≤ 8388608 }
    requires sizes { All HasRingSize pieces.now }
    ensures count { result ≡ corner_count_of pieces.now }
    ensures least { 3 * length pieces.now ≤ result }
    ensures greatest { result ≤ 32 * length pieces.now }
{
    let mut count = 0;
    for piece in pieces {
        count += piece.ring.len() as u64;
    }
    count
}

/// How many corners all pieces have together, which is the sum of the lengths of their rings.
pub fn corner_count(overlap: &Overlap) -> u64
    ensures count { result ≡ corner_count_of overlap.now.pieces }
    ensures least { 3 * length overlap.now.pieces ≤ result }
    ensures greatest { result ≤ 32 * length overlap.now.pieces }
{
    count_corners(&overlap.pieces.items)
}
