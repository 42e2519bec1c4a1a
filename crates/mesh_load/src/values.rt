// The raw mesh of a file whose header has the variables of one.
ghost use Rattle.std.specs.Prelude.{◌≡◌, length, Ok, IfOk, IfErr};
ghost use Rattle.vec_exact.specs.Counts.{AreAllowedCounts};
ghost use Rattle.remap_io.specs.Folder.{OnFile};
ghost use Rattle.exodus_mesh.specs.MeshNames.{mesh_vars_in};
ghost use Rattle.exodus_mesh.specs.MeshIn.{mesh_at};
ghost use Rattle.remap_load.specs.Heads.{IsHead, IsHeadOfBytes};
ghost use Rattle.remap_load.specs.Loading.{IsReadFault, ReadsAtMost};
ghost use Rattle.mesh_load.specs.MeshFile.{mesh_bytes};

use exodus_mesh::{MeshVars, block_places, coord_places, mesh_from};
use remap_io::Files;
use remap_load::{Head, LoadFault, load_lists};
use std::alloc::Global;
use vec_exact::{Ints, RawMesh};

/// The raw mesh of the variables that the header has.
pub fn load_raw<F: Files>(
    alloc: Global,
    files: &mut F,
    name: &str,
    head: &Head,
    vars: &MeshVars,
) -> Result<RawMesh, LoadFault>
    requires head { IsHead head.now }
    requires of_file { OnFile (F.seen files.old).folder name.now (IsHeadOfBytes head.now) }
    requires found { mesh_vars_in head.now.file ≡ Ok vars.now }
    requires counts { AreAllowedCounts vars.now.nodes vars.now.faces }
    ensures mesh { IfOk result (λ raw. OnFile (F.seen files.old).folder name.now
        (λ bytes. raw ≡ mesh_at head.now.file bytes vars.now)) }
    ensures nodes { IfOk result (λ raw. length raw.nodes ≡ vars.now.nodes) }
    ensures faces { IfOk result (λ raw. length raw.faces ≡ vars.now.faces) }
    ensures fault { IfErr result (IsReadFault (F.seen files.old) (F.seen files.new)) }
    ensures reads { ReadsAtMost (F.seen files.old) (F.seen files.new)
        (mesh_bytes head.now.file vars.now) }
{
    let places = coord_places(alloc, vars.coord)?;
    let coords: Vec<Ints> = load_lists(alloc, files, name, head, &places)?;
    let places = block_places(alloc, &vars.blocks.items)?;
    let rows: Vec<Ints> = load_lists(alloc, files, name, head, &places)?;
    Ok(mesh_from(alloc, vars, &coords, &rows)?)
}
