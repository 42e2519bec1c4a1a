// The nodes, ring by ring.
ghost use Rattle.std.specs.Prelude.{◌≡◌, ◌≤◌, ◌<◌, ◌*◌, ◌+◌, ◌^◌, ◌++◌, pos, ◌-ℤ◌, ◌*ℤ◌, ◌<ℤ◌, unsigned_abs, map, IfOk, OnOk};
ghost use Rattle.vec_exact.specs.Rounding.{rounded};
ghost use Rattle.gen_rll.specs.Trigonometry.{trig_of};
ghost use Rattle.gen_rll.specs.LatitudeLongitude.{latitude_at, longitude_at, longitudes_of, nodes_of, point, ring_nodes};

use crate::trig;
use std::alloc::{AllocError, Global};

const RADIUS: i32 = 1 << 17;

// `x / d` rounded to the nearest whole number, halves away from zero, where 64 bits suffice.
fn component(x: i64, d: u64) -> i32
    requires least { 1 ≤ d }
    requires greatest { d ≤ 2 ^ 43 }
    requires size { unsigned_abs x ≤ 524288 * d }
    ensures { result ≡ rounded x d }
{
    let whole = ((2 * x.unsigned_abs() + d) / (2 * d)) as i32;
    if x < 0 { -whole } else { whole }
}

// The product of two numbers.
fn times(a: i32, b: i32) -> i64
    ensures value { result ≡ a *ℤ b }
    ensures size { unsigned_abs result ≤ 2 ^ 62 }
{
    i64::from(a) * i64::from(b)
}

// The product of two cosines or sines, in units of 2^-17.
fn product(a: i32, b: i32) -> i32
    ensures { result ≡ rounded (a *ℤ b) (2 ^ 43) }
{
    component(times(a, b), 1 << 43)
}

// A cosine or a sine, in units of 2^-17.
fn height(a: i32) -> i32
    ensures { result ≡ rounded a (2 ^ 13) }
{
    component(i64::from(a), 1 << 13)
}

#[tactic(auto, unfolding(crate::specs::LatitudeLongitude::point))]
fn point(latitude: (i32, i32), longitude: (i32, i32)) -> [i32; 3]
    ensures { result ≡ point latitude longitude }
{
    [
        product(latitude.0, longitude.0),
        product(latitude.0, longitude.1),
        height(latitude.1),
    ]
}

// The cosine and the sine of a part of a full turn, in 32 bits.
fn narrow_trig(k: i64, m: i64) -> (i32, i32)
    requires least { pos 0 <ℤ m }
    requires greatest { unsigned_abs m ≤ 1440 }
    requires part { unsigned_abs k ≤ 1440 }
    ensures { result ≡ trig_of k (unsigned_abs m) }
{
    let pair = trig(k, m);
    (pair.0 as i32, pair.1 as i32)
}

// The cosine and the sine of longitude k, from 0.
fn longitude_at(lon: u32, k: u32) -> (i32, i32)
    requires least { 3 ≤ lon }
    requires greatest { lon ≤ 720 }
    requires place { k < lon }
    ensures { result ≡ longitude_at lon k }
{
    narrow_trig(i64::from(k), i64::from(lon))
}

// The same of a ring's latitude.
fn latitude_at(lat: u32, j: u32) -> (i32, i32)
    requires greatest { lat ≤ 360 }
    requires ring { (1 ≤ j) × (j < lat) }
    ensures { result ≡ latitude_at lat j }
{
    narrow_trig(2 * i64::from(j) - i64::from(lat), 4 * i64::from(lat))
}

fn put_longitudes(out: &mut Vec<(i32, i32)>, lon: u32) -> Result<(), AllocError>
    requires least { 3 ≤ lon }
    requires greatest { lon ≤ 720 }
    ensures { OnOk result (out.new.items ≡ out.old.items ++ longitudes_of lon) }
{
    for k in 0..lon {
        out.push(longitude_at(lon, k))?;
    }
    Ok(())
}

// All longitudes, which each ring has.
fn all_longitudes(alloc: Global, lon: u32) -> Result<Vec<(i32, i32)>, AllocError>
    requires least { 3 ≤ lon }
    requires greatest { lon ≤ 720 }
    ensures { IfOk result (λ longitudes. longitudes.items ≡ longitudes_of lon) }
{
    let mut longitudes = Vec::with_capacity(alloc, lon as usize)?;
    put_longitudes(&mut longitudes, lon)?;
    Ok(longitudes)
}

// The points of one latitude at these longitudes.
fn put_points(
    out: &mut Vec<[i32; 3]>,
    latitude: (i32, i32),
    longitudes: &[(i32, i32)],
) -> Result<(), AllocError>
    ensures { OnOk result (out.new.items ≡ out.old.items ++ map (point latitude) longitudes.now) }
{
    for longitude in longitudes {
        out.push(point(latitude, *longitude))?;
    }
    Ok(())
}

#[tactic(auto, using(crate::proofs::Rings::ring_behind))]
fn put_ring(
    out: &mut Vec<[i32; 3]>,
    longitudes: &[(i32, i32)],
    lon: u32,
    lat: u32,
    j: u32,
) -> Result<(), AllocError>
    requires longitudes { longitudes.now ≡ longitudes_of lon }
    requires lat_greatest { lat ≤ 360 }
    requires ring { (1 ≤ j) × (j < lat) }
    ensures { OnOk result (out.new.items ≡ out.old.items ++ ring_nodes lon lat j) }
{
    put_points(out, latitude_at(lat, j), longitudes)
}

#[tactic(auto, unfolding(crate::specs::LatitudeLongitude::nodes_of))]
pub fn all_nodes(alloc: Global, lon: u32, lat: u32) -> Result<Vec<[i32; 3]>, AllocError>
    requires lon_least { 3 ≤ lon }
    requires lon_greatest { lon ≤ 720 }
    requires lat_least { 2 ≤ lat }
    requires lat_greatest { lat ≤ 360 }
    ensures { IfOk result (λ nodes. nodes.items ≡ nodes_of lon lat) }
{
    let count = (lat as usize - 1) * lon as usize + 2;
    let mut out = Vec::with_capacity(alloc, count)?;
    let longitudes = all_longitudes(alloc, lon)?;
    out.push([0, 0, -RADIUS])?;
    for j in 1..lat {
        put_ring(&mut out, &longitudes, lon, lat, j)?;
    }
    out.push([0, 0, RADIUS])?;
    Ok(out)
}
