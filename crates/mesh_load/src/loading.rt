// A mesh by the name of its file.
ghost use Rattle.std.specs.Prelude.{◌≡◌, ◌⊎◌, ◌≤◌, ◌+◌, List, ℕ, length, Ok, Err, Some, IfOk, IfErr, IfSome, OnOk, IsOkAnd};
ghost use Rattle.vec_exact.specs.declared.RawMesh.{RawMesh};
ghost use Rattle.vec_exact.specs.Counts.{AreAllowedCounts};
ghost use Rattle.remap_io.specs.Folder.{Folder, OnFile};
ghost use Rattle.remap_io.specs.Outside.{OnlyReads};
ghost use Rattle.nc_format.specs.Sound.{IsSound};
ghost use Rattle.mesh_check.specs.Mesh.{IsAcceptedMesh};
ghost use Rattle.exodus_mesh.specs.MeshNames.{mesh_vars_in};
ghost use Rattle.remap_load.specs.declared.refusal.FileRefusal.{FileRefusal as Refusal};
ghost use Rattle.remap_load.specs.Heads.{IsHead, IsHeadOfBytes};
ghost use Rattle.remap_load.specs.Loading.{ReadsAtMost};
ghost use Rattle.remap_load.specs.Kinds.{HasContent, IsFileRefusal, IsCutOff, head_cost};
ghost use Rattle.mesh_load.specs.declared.MeshFileFault.{MeshFileFault};
ghost use Rattle.mesh_load.specs.MeshFile.{mesh_kind, IsMeshFile, IsRefusedMesh, IsOfHead, mesh_cost};
ghost use Rattle.mesh_load.specs.Refusals.{HasHeadFault, HasRawFault, IsOwn};

use crate::MeshRefusal;
use crate::refusal::{of_mesh, of_names};
use crate::values::load_raw;
use exodus_mesh::{MeshVars, find_mesh};
use mesh_check::{Mesh, check, check_counts};
use nc_format::NcFile;
use remap_io::Files;
use remap_load::{Head, load_header};
use std::alloc::Global;
use vec_exact::RawMesh;

// The variables of a mesh in a header, with counts within their limits. A sum of faces that passes
// 32 bits is told as the greatest number of 32 bits.
fn counted_vars(alloc: Global, file: &NcFile) -> Result<MeshVars, MeshRefusal>
    requires { IsSound file.now }
    ensures found { IfOk result (λ vars. mesh_vars_in file.now ≡ Ok vars) }
    ensures counts { IfOk result (λ vars. AreAllowedCounts vars.nodes vars.faces) }
    ensures refusal { IfErr result (IsOwn (HasHeadFault file.now)) }
{
    let vars = match find_mesh(alloc, file) {
        Ok(vars) => vars,
        Err(fault) => return Err(of_names(fault)),
    };
    let faces = vars.faces.min(u64::from(u32::MAX)) as u32;
    match check_counts(vars.nodes, faces) {
        Ok(()) => Ok(vars),
        Err(fault) => Err(of_mesh(fault)),
    }
}

fn checked(alloc: Global, raw: RawMesh) -> Result<Mesh, MeshRefusal>
    requires some_face { 1 ≤ length raw.faces }
    requires counts { AreAllowedCounts (length raw.nodes) (length raw.faces) }
    ensures same { IfOk result (λ mesh. mesh ≡ raw) }
    ensures accepted { OnOk result (IsAcceptedMesh raw) }
    ensures refusal { IfErr result (IsOwn (HasRawFault raw)) }
{
    match check(alloc, raw) {
        Ok(mesh) => Ok(mesh),
        Err(fault) => Err(of_mesh(fault)),
    }
}

// The mesh of a file whose head was loaded. The counts are tested before any value is read.
fn mesh_of<F: Files>(
    alloc: Global,
    files: &mut F,
    name: &str,
    head: &Head,
) -> Result<Mesh, MeshRefusal>
    requires head { IsHead head.now }
    requires of_file { OnFile (F.seen files.old).folder name.now (IsHeadOfBytes head.now) }
    ensures mesh { IfOk result (λ mesh. OnFile (F.seen files.old).folder name.now
        (λ bytes. HasContent mesh_kind bytes mesh)) }
    ensures accepted { IfOk result IsAcceptedMesh }
    ensures refusal { IfErr result
        (IsFileRefusal mesh_kind (F.seen files.old) (F.seen files.new) name.now) }
    ensures reads { ReadsAtMost (F.seen files.old) (F.seen files.new)
        (mesh_kind.needed head.now.file) }
    ensures values_last { IfErr result (λ refusal. IsOfHead refusal
        → (F.seen files.new).taken ≡ (F.seen files.old).taken) }
{
    let vars = counted_vars(alloc, &head.file)?;
    let raw = load_raw(alloc, files, name, head, &vars)?;
    checked(alloc, raw)
}

// The mesh of a file, by what is proved on the way.
fn load<F: Files>(alloc: Global, files: &mut F, name: &str) -> Result<Mesh, MeshRefusal>
    ensures mesh { IfOk result (λ mesh. OnFile (F.seen files.old).folder name.now
        (λ bytes. HasContent mesh_kind bytes mesh)) }
    ensures accepted { IfOk result IsAcceptedMesh }
    ensures refusal { IfErr result
        (IsFileRefusal mesh_kind (F.seen files.old) (F.seen files.new) name.now) }
    ensures reads { OnlyReads (F.seen files.old) (F.seen files.new) }
    ensures values_last { IfErr result (λ refusal. IsOfHead refusal
        → IfSome (F.seen files.old).folder (λ m.
        (F.seen files.new).taken ≤ (F.seen files.old).taken + head_cost m name.now)) }
    ensures asked { OnOk result (IfSome (F.seen files.old).folder (λ m.
        (F.seen files.new).taken ≤ (F.seen files.old).taken + mesh_cost m name.now)) }
{
    let head = load_header(alloc, files, name)?;
    mesh_of(alloc, files, name, &head)
}

/// The mesh that the named file holds.
///
/// A refusal is the first of these: there is no such file; it has more than 2,147,483,647 bytes; the
/// first fault of its header; the first fault of the names there; a count past its limit, where a sum
/// of faces past 4,294,967,295 counts as that number; the first fault of the mesh. A failed read and
/// want of memory may come in place of any answer. The counts are tested before a value is read.
pub fn load_mesh<F: Files>(alloc: Global, files: &mut F, name: &str) -> Result<Mesh, MeshRefusal>
    // What is answered stands in the file, where the folder is told. A miss and a failed read are
    // counted.
    ensures mesh { IfOk result (λ mesh. OnFile (F.seen files.old).folder name.now
        (λ bytes. HasContent mesh_kind bytes mesh)) }
    ensures accepted { IfOk result IsAcceptedMesh }
    ensures refusal { IfErr result
        (IsFileRefusal mesh_kind (F.seen files.old) (F.seen files.new) name.now) }

    // What stands in a told folder is answered, unless a read fails or memory runs out.
    ensures found { (m : Folder) (raw : RawMesh) → (F.seen files.old).folder ≡ Some m
        → IsMeshFile m name.now raw → IsOkAnd result (λ mesh. mesh ≡ raw) ⊎ IsCutOff result }
    ensures refused { (m : Folder) (refusal : Refusal MeshFileFault)
        → (F.seen files.old).folder ≡ Some m → IsRefusedMesh m name.now refusal
        → (result ≡ Err refusal) ⊎ IsCutOff result }

    // No file changes, and no count falls. No value is read before names and counts are found good;
    // then only the variables of the mesh are.
    ensures reads { OnlyReads (F.seen files.old) (F.seen files.new) }
    ensures values_last { IfErr result (λ refusal. IsOfHead refusal
        → IfSome (F.seen files.old).folder (λ m.
        (F.seen files.new).taken ≤ (F.seen files.old).taken + head_cost m name.now)) }
    ensures asked { OnOk result (IfSome (F.seen files.old).folder (λ m.
        (F.seen files.new).taken ≤ (F.seen files.old).taken + mesh_cost m name.now)) }
{
    load(alloc, files, name)
}
