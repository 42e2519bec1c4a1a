// Whether the faces of a mesh cover the sphere.
ghost use Rattle.std.specs.Prelude.{◌≡◌, ◌↔◌, IfOk, IsTrue};
ghost use Rattle.mesh_partition.specs.Sphere.{CoversSphere};
ghost use Rattle.gen_cs.specs.CubedSphere.{cubed_sphere};

use cover_check::coverage;
use mesh_check::{Mesh, MeshFault, check};
use std::alloc::Global;
use vec_exact::NoMemory;

// The six faces of the smallest cubed sphere.
fn six_faces(alloc: Global) -> Result<Mesh, NoMemory>
    ensures { IfOk result (λ cube. cube ≡ cubed_sphere 1) }
{
    let raw = gen_cs::make(alloc, 1)?;
    match check(alloc, raw) {
        Ok(cube) => Ok(cube),
        Err(MeshFault::NoMemory) => Err(NoMemory),
        Err(_) => unreachable!(),
    }
}

// Whether every direction but zero is in the closure of some face.
pub fn covers_sphere(alloc: Global, mesh: &Mesh) -> Result<bool, NoMemory>
    ensures { IfOk result (λ covered. IsTrue covered ↔ CoversSphere mesh.now) }
{
    let cube = six_faces(alloc)?;
    let count = coverage(alloc, mesh, &cube)?;
    Ok(count.first == 0)
}
