// The masses of fields in which values may be absent.
ghost use Rattle.std.specs.Prelude.{◌≡◌, ℕ, ◌+◌, ◌*◌, ◌≤◌, ◌^◌, pos, ◌+ℤ◌, ◌*ℤ◌, ◌≤ℤ◌, ◌<ℤ◌, unsigned_abs, All, length, slice_range};
ghost use Rattle.map_rows.specs.Maps.{total};
ghost use Rattle.field_mask.specs.Masked.{present_product as present_product_of, present_mass_of, part_mass_of};
ghost use Rattle.field_mask.specs.Present.{present_slice_mass_of};
ghost use Rattle.field_mask.specs.Laws.{IsMaskedFieldOf};

use crate::MaskedField;
use crate::shares::is_absent;
use apply_map::mass_of_slice;
use map_rows::{Map, product};

// Area times value, where the value is present.
fn present_product(fill: Option<i32>, area: i64, value: i32) -> i128
    requires { pos 0 ≤ℤ area }
    ensures value { result ≡ present_product_of fill area value }
    ensures size { unsigned_abs result ≤ 2 ^ 94 }
{
    if is_absent(fill, value) {
        return 0;
    }
    product(area, value)
}

// The sum of area times value over the faces of one slice whose value is present.
fn slice_mass(areas: &[i64], slice: u32, values: &[i32], fill: Option<i32>) -> i128
    requires counts { (slice + 1) * length areas.now ≤ length values.now }
    requires areas { All (λ area. pos 0 ≤ℤ area) areas.now }
    requires fit { total areas.now <ℤ pos (2 ^ 63) }
    ensures value { result ≡ present_slice_mass_of fill areas.now values.now slice }
    ensures size { unsigned_abs result ≤ 2 ^ 94 }
{
    let first = slice as usize * areas.len();
    let mut mass = 0i128;
    for (i, area) in areas.iter().enumerate() {
        mass += present_product(fill, *area, values[first + i]);
    }
    mass
}

/// The sum of area times value over all source faces of all slices whose value is present, which is
/// below 2^127 in size. A value that equals `fill` is absent; without a fill value none is.
pub fn present_mass(map: &Map, slices: u32, values: &[i32], fill: Option<i32>) -> i128
    requires { length values.now ≡ slices * map.now.n_a }
    ensures { result ≡ present_mass_of map.now slices fill values.now }
{
    let areas: &[i64] = &map.area_a.items;
    let mut mass = 0i128;
    for slice in 0..slices {
        mass += slice_mass(areas, slice, values, fill);
    }
    mass
}

// The parts of the targets of one slice, which begin at place `first`.
fn parts_of_slice(parts: &[i64], first: usize, count: usize) -> &[i64]
    requires { first + count ≤ length parts.now }
    ensures { result.now ≡ slice_range parts.now first (first + count) }
{
    &parts[first..first + count]
}

/// The sum of part times whole part plus rest over all targets of all slices, which is below 2^127
/// in size.
pub fn part_mass(map: &Map, slices: u32, field: &MaskedField) -> i128
    requires { IsMaskedFieldOf map.now slices field.now }
    ensures { result ≡ part_mass_of map.now slices field.now }
{
    let count = map.n_b as usize;
    let whole: &[i32] = &field.whole.items;
    let rest: &[i64] = &field.rest.items;
    let part: &[i64] = &field.part.items;
    let mut mass = 0i128;
    for slice in 0..slices {
        let parts = parts_of_slice(part, slice as usize * count, count);
        mass += mass_of_slice(parts, slice, whole, rest);
    }
    mass
}
