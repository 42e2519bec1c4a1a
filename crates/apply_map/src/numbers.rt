// The numbers of a field, made part by part.
ghost use Rattle.std.specs.Prelude.{◌≡◌, ◌+◌, ◌*◌, ◌<◌, ◌≤◌, length, slice_range};
ghost use Rattle.map_rows.specs.Application.{application_of, wholes_of, rests_of};
ghost use Rattle.apply_map.specs.Parts.{IsFirstSlice};

use crate::Targets;

// The first slice in which the target at a place, of so many, stands at the place `from` of a field
// or behind it.
pub(crate) fn first_slice(from: usize, target: usize, count: usize) -> usize
    requires { target < count }
    ensures { IsFirstSlice count from target result }
{
    let slice = from / count;
    if from % count <= target {
        slice
    } else {
        slice + 1
    }
}

/// Puts the whole parts of the field that a map makes of values, as `apply` does, from a place on,
/// as many as `into` has. They stand slice by slice, and in each by target. The rows of each target
/// are read once for all of `into`.
pub fn put_wholes(targets: &Targets, slices: u32, values: &[i32], from: usize, into: &mut [i32])
    requires counts { length values.now ≡ slices * targets.now.n_a }
    requires within { from + length into.old ≤ slices * targets.now.n_b }
    ensures { into.new ≡ slice_range (wholes_of (application_of targets.now slices values.now))
        from (from + length into.old) }
{
    let map = targets.map();
    for j in 0..map.n_b {
        targets.put_target_wholes(j as usize, slices, values, from, into);
    }
}

/// Puts the rests of that field, from a place on, as many as `into` has.
pub fn put_rests(targets: &Targets, slices: u32, values: &[i32], from: usize, into: &mut [i64])
    requires counts { length values.now ≡ slices * targets.now.n_a }
    requires within { from + length into.old ≤ slices * targets.now.n_b }
    ensures { into.new ≡ slice_range (rests_of (application_of targets.now slices values.now))
        from (from + length into.old) }
{
    let map = targets.map();
    for j in 0..map.n_b {
        targets.put_target_rests(j as usize, slices, values, from, into);
    }
}
