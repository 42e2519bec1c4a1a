// Slices of a field that are carried over side by side.
ghost use Rattle.std.specs.Prelude.{◌≡◌, ◌<◌, ◌≤◌};

// So many slices at most: the rows of a target are looked at once for them.
const SIDE_BY_SIDE: u32 = 8;

/// Slices side by side: those from `from` up to `to`.
#[derive(Clone, Copy)]
pub struct Block {
    pub from: u32,
    pub to: u32,
}

/// The block of slices that begins at slice `from` of so many.
pub fn block_from(from: u32, slices: u32) -> Block
    requires { from < slices }
    ensures from { result.from ≡ from }
    ensures some { from < result.to }
    ensures within { result.to ≤ slices }
{
    Block {
        from,
        to: from + SIDE_BY_SIDE.min(slices - from),
    }
}
