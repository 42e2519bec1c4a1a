// The masses of fields.
ghost use Rattle.std.specs.Prelude.{◌≡◌, ℕ, ◌+◌, ◌*◌, ◌≤◌, ◌^◌, pos, ◌+ℤ◌, ◌*ℤ◌, ◌≤ℤ◌, ◌<ℤ◌, unsigned_abs, All, length};
ghost use Rattle.map_rows.specs.Maps.{total};
ghost use Rattle.map_rows.specs.Application.{source_mass_of, target_mass_of};
ghost use Rattle.map_rows.specs.Laws.{IsFieldOf};
ghost use Rattle.apply_map.specs.Values.{HasRestsWithin, slice_mass_of, field_slice_mass_of};

use crate::Field;
use map_rows::{Map, product};

// The sum of area times value over the faces of one slice.
fn slice_mass(areas: &[i64], slice: u32, values: &[i32]) -> i128
    requires counts { (slice + 1) * length areas.now ≤ length values.now }
    requires areas { All (λ area. pos 0 ≤ℤ area) areas.now }
    requires fit { total areas.now <ℤ pos (2 ^ 63) }
    ensures value { result ≡ slice_mass_of areas.now values.now slice }
    ensures size { unsigned_abs result ≤ 2 ^ 94 }
{
    let first = slice as usize * areas.len();
    let mut mass = 0i128;
    for (i, area) in areas.iter().enumerate() {
        mass += product(*area, values[first + i]);
    }
    mass
}

/// The sum of area times value over all source faces of all slices.
pub fn source_mass(map: &Map, slices: u32, values: &[i32]) -> i128
    requires { length values.now ≡ slices * map.now.n_a }
    ensures { result ≡ source_mass_of map.now slices values.now }
{
    let areas: &[i64] = &map.area_a.items;
    let mut mass = 0i128;
    for slice in 0..slices {
        mass += slice_mass(areas, slice, values);
    }
    mass
}

// What a target adds to a mass: area times whole part, plus rest.
fn target_part(area: i64, whole: i32, rest: i64) -> i128
    requires least { pos 0 ≤ℤ rest }
    requires below { rest ≤ℤ area }
    ensures value { result ≡ (area *ℤ whole) +ℤ rest }
    ensures size { unsigned_abs result ≤ 19807040628566084398385987584 }
{
    product(area, whole) + i128::from(rest)
}

/// The sum of area times whole part plus rest over the targets of one slice, which counts from 0.
/// It is at most 2^94 in size.
pub fn mass_of_slice(areas: &[i64], slice: u32, whole: &[i32], rest: &[i64]) -> i128
    requires whole { (slice + 1) * length areas.now ≤ length whole.now }
    requires rest { (slice + 1) * length areas.now ≤ length rest.now }
    requires areas { All (λ area. pos 0 ≤ℤ area) areas.now }
    requires fit { total areas.now <ℤ pos (2 ^ 63) }
    requires rests { HasRestsWithin areas.now slice rest.now }
    ensures value { result ≡ field_slice_mass_of areas.now whole.now rest.now slice }
    ensures size { unsigned_abs result ≤ 2 ^ 94 }
{
    let first = slice as usize * areas.len();
    let mut mass = 0i128;
    for (j, area) in areas.iter().enumerate() {
        mass += target_part(*area, whole[first + j], rest[first + j]);
    }
    mass
}

/// The sum of area times whole part plus rest over all targets of all slices.
pub fn target_mass(map: &Map, slices: u32, field: &Field) -> i128
    requires { IsFieldOf map.now slices field.now.whole field.now.rest }
    ensures { result ≡ target_mass_of map.now slices field.now.whole field.now.rest }
{
    let areas: &[i64] = &map.area_b.items;
    let whole: &[i32] = &field.whole.items;
    let rest: &[i64] = &field.rest.items;
    let mut mass = 0i128;
    for slice in 0..slices {
        mass += mass_of_slice(areas, slice, whole, rest);
    }
    mass
}
