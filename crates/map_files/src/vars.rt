// The variables of a map in a file.
use nc_write::DimIds;

/// The counts of a map, and where its numbers stand: how many faces the source mesh and the target
/// mesh have, how many rows there are, and the places, from 0, of the variables `col`, `row`, `S`,
/// `area_a` and `area_b` in the list of variables.
#[derive(Drop)]
pub struct MapVars {
    pub n_a: u32,
    pub n_b: u32,
    pub n_s: u32,
    pub vars: DimIds,
}
