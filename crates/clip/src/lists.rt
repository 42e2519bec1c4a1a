// Lists of planes, lists of their numbers, and the corners where listed planes meet.
ghost use Rattle.std.specs.Prelude.{◌≡◌, ◌<◌, ◌≤◌, ◌-◌, length};
ghost use Rattle.vec_exact.specs.Size.{Is37, Is75};
ghost use Rattle.vec_exact.specs.Cycle.{after, corner as corner_of};
ghost use Rattle.cone_laws.specs.Ring.{plane, listed};
ghost use Rattle.clip.specs.Planes.{EachIs37, AreNumbers};
ghost use Rattle.clip.specs.Usable.{IsUsable};

use arrayvec::ArrayVec;
use vec_exact::{Vec3, cross, next_place};

/// The edge planes of two faces, at most 32. Their numbers count from 1.
pub type PlaneList = ArrayVec<Vec3, 32>;

/// Numbers of planes, in the order in which the planes follow each other round their directions.
pub type Ring = ArrayVec<u8, 32>;

// The plane with number i.
pub fn plane_at(planes: &PlaneList, i: u8) -> Vec3
    requires least { 1 ≤ i }
    requires greatest { i ≤ length planes.now.items }
    ensures { result ≡ plane planes.now.items i }
{
    planes.as_slice()[i as usize - 1]
}

// The corner at place t, from 0.
pub fn corner_at(planes: &PlaneList, ring: &Ring, t: usize) -> Vec3
    requires usable { IsUsable planes.now.items ring.now.items }
    requires place { t < length ring.now.items }
    ensures value { result ≡ corner_of (length ring.now.items)
        (listed planes.now.items ring.now.items) t }
    ensures size { Is75 result }
{
    let numbers = ring.as_slice();
    let following = next_place(numbers.len(), t);
    cross(
        plane_at(planes, numbers[t]),
        plane_at(planes, numbers[following]),
    )
}

/// The corner of the listed plane with number `t`, from 1, and the next listed one, cyclically:
/// their cross product. Its components are below 2^75 in size.
pub fn corner(planes: &PlaneList, ring: &Ring, t: u32) -> Vec3
    requires place { (1 ≤ t) × (t ≤ length ring.now.items) }
    requires numbers { AreNumbers planes.now.items ring.now.items }
    requires size { EachIs37 planes.now.items (length planes.now.items) }
    ensures value { result ≡ corner_of (length ring.now.items)
        (listed planes.now.items ring.now.items) (t - 1) }
    ensures size { Is75 result }
{
    corner_at(planes, ring, t as usize - 1)
}
