// Rows of a file that each name a face of two meshes.
ghost use Rattle.std.specs.Prelude.{◌≡◌, ◌<◌, length};
ghost use Rattle.exodus_mesh.specs.Pairs.{is_within, exceeds, has_good_faces};

/// Whether a number is from low to high.
pub fn is_within(low: u32, high: u32, number: i32) -> bool
    ensures { result ≡ is_within low high number }
{
    let number = i64::from(number);
    i64::from(low) <= number && number <= i64::from(high)
}

fn exceeds(before: (i32, i32), pair: (i32, i32)) -> bool
    ensures { result ≡ exceeds before.0 before.1 pair.0 pair.1 }
{
    before.0 < pair.0 || (before.0 == pair.0 && before.1 < pair.1)
}

/// Whether the faces of row r, from 0, are faces of the meshes and come after those of the row before.
#[tactic(auto, unfolding(crate::specs::Pairs::has_good_faces))]
pub fn has_good_faces(faces_a: u32, faces_b: u32, source: &[i32], target: &[i32], r: usize) -> bool
    requires source { r < length source.now }
    requires target { r < length target.now }
    ensures { result ≡ has_good_faces faces_a faces_b source.now target.now r }
{
    is_within(1, faces_a, source[r])
        && is_within(1, faces_b, target[r])
        && (r == 0 || exceeds((source[r - 1], target[r - 1]), (source[r], target[r])))
}
