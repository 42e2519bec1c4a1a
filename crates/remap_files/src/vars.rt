// The variables of an overlap in a file.
use nc_write::DimIds;

/// The counts of an overlap, and where its numbers stand: how many faces the source mesh and the
/// target mesh have, how many pieces there are, how long `ring_plane` is (0 without a piece), and the
/// places, from 0, of the variables `source`, `target`, `ring_size`, `ring_plane` and `corner` in the
/// list of variables (none without a piece).
#[derive(Drop)]
pub struct OverlapVars {
    pub faces_a: u32,
    pub faces_b: u32,
    pub pieces: u32,
    pub corners: u32,
    pub vars: DimIds,
}
