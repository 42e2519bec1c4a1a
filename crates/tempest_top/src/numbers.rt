// The numbers of a field, made while its document is written.
ghost use Rattle.std.specs.Prelude.{◌≡◌, ◌*◌, length};

use apply_map::{Targets, put_rests, put_wholes};
use nc_write::MadeNumbers;

// So many slices are made at once. For each part of a file the rows of the map are read once, and a
// part of more slices takes more memory.
const SLICES: usize = 8;

/// The whole parts and the rests of the field that a map makes of values. They never stand in memory
/// whole: each part is made when it is written.
#[derive(Drop)]
pub struct FieldNumbers<'a> {
    pub targets: &'a Targets<'a>,
    pub slices: u32,
    pub values: &'a [i32],
    ghost counts: { length values.now ≡ slices * targets.now.n_a },
}

impl MadeNumbers for FieldNumbers<'_> {
    ghost use Rattle.nc_write.specs.Made.{of_lists};
    ghost use Rattle.map_rows.specs.Application.{application_of, wholes_of, rests_of};

    // Whatever the lists of the document have, which is nothing.
    ghost numbers = { λ r. of_lists
        (wholes_of (application_of r.targets.now r.slices r.values.now))
        (rests_of (application_of r.targets.now r.slices r.values.now)) };

    fn at_once(&self) -> usize {
        let map = self.targets.map();
        SLICES * map.n_b as usize
    }

    fn count_ints(&self, _ints: &[i32]) -> usize {
        let map = self.targets.map();
        self.slices as usize * map.n_b as usize
    }

    fn put_ints(&self, _ints: &[i32], from: usize, into: &mut [i32]) {
        put_wholes(self.targets, self.slices, self.values, from, into);
    }

    fn count_longs(&self, _longs: &[i64]) -> usize {
        let map = self.targets.map();
        self.slices as usize * map.n_b as usize
    }

    fn put_longs(&self, _longs: &[i64], from: usize, into: &mut [i64]) {
        put_rests(self.targets, self.slices, self.values, from, into);
    }
}
