// Whether the areas cover the target mesh.
ghost use Rattle.std.specs.Prelude.{◌≤◌, pos, ◌≤ℤ◌, All, IfErr, OnOk, length};
ghost use Rattle.offline_map.specs.MapFaults.{IsFaultOfAreas};

use crate::MapFault;

// Whether each target face has an area, or the first that has none.
pub fn check_covered(areas: &[i64]) -> Result<(), MapFault>
    requires { length areas.now ≤ 1048576 }
    ensures covered { OnOk result (All (λ area. pos 1 ≤ℤ area) areas.now) }
    ensures fault { IfErr result (IsFaultOfAreas areas.now) }
{
    for (j, area) in areas.iter().enumerate() {
        if *area < 1 {
            return Err(MapFault::Uncovered(j as u32 + 1));
        }
    }
    Ok(())
}
