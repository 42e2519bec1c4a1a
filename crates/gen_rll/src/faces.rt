// The faces, band by band.
ghost use Rattle.std.specs.Prelude.{◌≡◌, ◌≤◌, ◌<◌, ◌+◌, ◌-◌, ◌++◌, IfOk, OnOk};
ghost use Rattle.gen_rll.specs.LatitudeLongitude.{band_faces, face_at, faces_of, last_number, ring_number};

use std::alloc::{AllocError, Global};
use vec_exact::Ints;

fn ring_number(lon: u32, j: u32, k: u32) -> i32
    requires lon_least { 3 ≤ lon }
    requires lon_greatest { lon ≤ 720 }
    requires ring { (1 ≤ j) × (j ≤ 360) }
    ensures { result ≡ ring_number lon j k }
{
    (2 + (j - 1) * lon + k % lon) as i32
}

fn last_number(lon: u32, lat: u32) -> i32
    requires lon_greatest { lon ≤ 720 }
    requires lat_least { 2 ≤ lat }
    requires lat_greatest { lat ≤ 360 }
    ensures { result ≡ last_number lon lat }
{
    (2 + (lat - 1) * lon) as i32
}

#[tactic(auto, unfolding(crate::specs::LatitudeLongitude::face_at))]
fn make_face(alloc: Global, lon: u32, lat: u32, j: u32, k: u32) -> Result<Ints, AllocError>
    requires lon_least { 3 ≤ lon }
    requires lon_greatest { lon ≤ 720 }
    requires lat_least { 2 ≤ lat }
    requires lat_greatest { lat ≤ 360 }
    requires band { j < lat }
    requires place { k < lon }
    ensures { IfOk result (λ face. face ≡ face_at lon lat j k) }
{
    let mut items = Vec::with_capacity(alloc, 4)?;
    if j == 0 {
        items.push(1)?;
        items.push(ring_number(lon, 1, k + 1))?;
        items.push(ring_number(lon, 1, k))?;
    } else {
        items.push(ring_number(lon, j, k))?;
        items.push(ring_number(lon, j, k + 1))?;
        if j == lat - 1 {
            items.push(last_number(lon, lat))?;
        } else {
            items.push(ring_number(lon, j + 1, k + 1))?;
            items.push(ring_number(lon, j + 1, k))?;
        }
    }
    Ok(Ints { items })
}

fn put_band(
    alloc: Global,
    out: &mut Vec<Ints>,
    lon: u32,
    lat: u32,
    j: u32,
) -> Result<(), AllocError>
    requires lon_least { 3 ≤ lon }
    requires lon_greatest { lon ≤ 720 }
    requires lat_least { 2 ≤ lat }
    requires lat_greatest { lat ≤ 360 }
    requires band { j < lat }
    ensures { OnOk result (out.new.items ≡ out.old.items ++ band_faces lon lat j) }
{
    for k in 0..lon {
        out.push(make_face(alloc, lon, lat, j, k)?)?;
    }
    Ok(())
}

#[tactic(auto, unfolding(crate::specs::LatitudeLongitude::faces_of))]
pub fn all_faces(alloc: Global, lon: u32, lat: u32) -> Result<Vec<Ints>, AllocError>
    requires lon_least { 3 ≤ lon }
    requires lon_greatest { lon ≤ 720 }
    requires lat_least { 2 ≤ lat }
    requires lat_greatest { lat ≤ 360 }
    ensures { IfOk result (λ faces. faces.items ≡ faces_of lon lat) }
{
    let mut out = Vec::with_capacity(alloc, lat as usize * lon as usize)?;
    for j in 0..lat {
        put_band(alloc, &mut out, lon, lat, j)?;
    }
    Ok(out)
}
