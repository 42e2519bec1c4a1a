// The commands that make a mesh.
ghost use Rattle.std.specs.Prelude.{◌≡◌, ◌≤◌, All, IfOk, Some, length, string_bytes};
ghost use Rattle.vec_exact.specs.Counts.{AreAllowedCounts};
ghost use Rattle.nc_write.specs.Form.{IsWellFormed};
ghost use Rattle.mesh_check.specs.Mesh.{IsAcceptedMesh};
ghost use Rattle.mesh_check.specs.FirstFault.{HasFaceSize};
ghost use Rattle.gen_cs.specs.CubedSphere.{cubed_sphere};
ghost use Rattle.exodus_mesh.specs.MeshDocument.{mesh_document};
ghost use Rattle.command_line.specs.declared.choices.Chosen.TheVariants.{Cs, Rll, Ico};
ghost use Rattle.tempest_top.specs.Scene.{scene};
ghost use Rattle.tempest_top.specs.Texts.{mesh_text};
ghost use Rattle.tempest_top.specs.Outcome.{mesh_output, mesh_written};
ghost use Rattle.tempest_top.specs.Ends.{Ends};
ghost use Rattle.tempest_top.specs.Promises.{Keeps};

use crate::finish::write_then_text;
use command_line::Text;
use exodus_mesh::mesh_doc;
use fault_lines::{Status, refuse_made, refuse_memory};
use mesh_check::Mesh;
use nc_write::NcDoc;
use remap_io::{Files, Sink};
use std::alloc::Global;
use vec_exact::{NoMemory, RawMesh};

// The document of a mesh, and the text that tells its size.
#[tactic(auto, using(crate::proofs::AcceptedMesh::none_empty, crate::proofs::AcceptedMesh::narrow))]
fn mesh_file(alloc: Global, raw: &RawMesh) -> Result<(NcDoc, String), NoMemory>
    requires nodes { 1 ≤ length raw.now.nodes }
    requires faces { 1 ≤ length raw.now.faces }
    requires counts { AreAllowedCounts (length raw.now.nodes) (length raw.now.faces) }
    requires sizes { All HasFaceSize raw.now.faces }
    ensures document { IfOk result (λ p. p.0 ≡ mesh_document raw.now) }
    ensures well_formed { IfOk result (λ p. IsWellFormed p.0) }
    ensures text { IfOk result (λ p. string_bytes p.1 ≡ mesh_text raw.now) }
{
    let faces = raw.faces.items.len();
    let nodes = raw.nodes.items.len();
    let text = format!(in alloc; "faces {faces} nodes {nodes}\n")?;
    let doc = mesh_doc(alloc, raw)?;
    Ok((doc, text))
}

// The same of the cubed sphere. The mesh itself is let go here.
fn sphere_file(alloc: Global, n: u32) -> Result<(NcDoc, String), NoMemory>
    requires least { 1 ≤ n }
    requires greatest { n ≤ 400 }
    ensures document { IfOk result (λ p. p.0 ≡ mesh_document (cubed_sphere n)) }
    ensures well_formed { IfOk result (λ p. IsWellFormed p.0) }
    ensures text { IfOk result (λ p. string_bytes p.1 ≡ mesh_text (cubed_sphere n)) }
{
    let raw = gen_cs::make(alloc, n)?;
    mesh_file(alloc, &raw)
}

// The same of an accepted mesh.
#[tactic(auto, using(crate::proofs::AcceptedMesh::some_node, crate::proofs::AcceptedMesh::face_sizes))]
fn accepted_file(alloc: Global, mesh: &Mesh) -> Result<(NcDoc, String), NoMemory>
    requires { IsAcceptedMesh mesh.now }
    ensures document { IfOk result (λ p. p.0 ≡ mesh_document mesh.now) }
    ensures well_formed { IfOk result (λ p. IsWellFormed p.0) }
    ensures text { IfOk result (λ p. string_bytes p.1 ≡ mesh_text mesh.now) }
{
    let raw = mesh_check::raw(alloc, mesh)?;
    mesh_file(alloc, &raw)
}

// Writes an accepted mesh to `file`, and puts its size.
#[tactic(auto, unfolding(crate::specs::Outcome::mesh_output))]
fn write_mesh<F: Files, O: Sink, E: Sink>(
    alloc: Global,
    mesh: &Mesh,
    file: &Text,
    files: &mut F,
    out: &mut O,
    err: &mut E,
) -> Status
    requires { IsAcceptedMesh mesh.now }
    ensures ends { Ends (mesh_written mesh.now file.now (F.seen files.old).folder)
        (scene (F.seen files.old) (O.seen out.old) (E.seen err.old))
        (scene (F.seen files.new) (O.seen out.new) (E.seen err.new)) result }
    ensures no_line { result ≡ Status.Done → err.new ≡ err.old }
    ensures no_reads { (F.seen files.new).taken ≡ (F.seen files.old).taken }
{
    let Ok((doc, text)) = accepted_file(alloc, mesh) else {
        return refuse_memory(err);
    };
    write_then_text(
        alloc,
        files,
        out,
        err,
        file.text.as_str(),
        &doc,
        text.as_bytes(),
    )
}

// The same of the cubed sphere.
#[tactic(auto, unfolding(crate::specs::Outcome::mesh_output))]
fn write_sphere<F: Files, O: Sink, E: Sink>(
    alloc: Global,
    res: u32,
    file: &Text,
    files: &mut F,
    out: &mut O,
    err: &mut E,
) -> Status
    requires least { 1 ≤ res }
    requires greatest { res ≤ 400 }
    ensures ends { Ends (mesh_written (cubed_sphere res) file.now (F.seen files.old).folder)
        (scene (F.seen files.old) (O.seen out.old) (E.seen err.old))
        (scene (F.seen files.new) (O.seen out.new) (E.seen err.new)) result }
    ensures no_line { result ≡ Status.Done → err.new ≡ err.old }
    ensures no_reads { (F.seen files.new).taken ≡ (F.seen files.old).taken }
{
    let Ok((doc, text)) = sphere_file(alloc, res) else {
        return refuse_memory(err);
    };
    write_then_text(
        alloc,
        files,
        out,
        err,
        file.text.as_str(),
        &doc,
        text.as_bytes(),
    )
}

/// `GenerateCSMesh`: writes the cubed sphere of resolution `res` to `file`, and puts its size.
pub fn generate_cs<F: Files, O: Sink, E: Sink>(
    alloc: Global,
    res: u32,
    file: &Text,
    files: &mut F,
    out: &mut O,
    err: &mut E,
) -> Status
    requires least { 1 ≤ res }
    requires greatest { res ≤ 400 }
    ensures kept { Keeps (Some (Cs res file.now))
        (scene (F.seen files.old) (O.seen out.old) (E.seen err.old))
        (scene (F.seen files.new) (O.seen out.new) (E.seen err.new)) result }
    ensures no_line { result ≡ Status.Done → err.new ≡ err.old }
{
    write_sphere(alloc, res, file, files, out, err)
}

/// `GenerateRLLMesh`: writes the latitude-longitude mesh of `lon` by `lat` to `file`, and puts its
/// size, or refuses its first fault.
pub fn generate_rll<F: Files, O: Sink, E: Sink>(
    alloc: Global,
    lon: u32,
    lat: u32,
    file: &Text,
    files: &mut F,
    out: &mut O,
    err: &mut E,
) -> Status
    requires lon { (3 ≤ lon) × (lon ≤ 720) }
    requires lat { (2 ≤ lat) × (lat ≤ 360) }
    ensures kept { Keeps (Some (Rll lon lat file.now))
        (scene (F.seen files.old) (O.seen out.old) (E.seen err.old))
        (scene (F.seen files.new) (O.seen out.new) (E.seen err.new)) result }
    ensures no_line { result ≡ Status.Done → err.new ≡ err.old }
{
    match gen_rll::make(alloc, lon, lat) {
        Ok(mesh) => write_mesh(alloc, &mesh, file, files, out, err),
        Err(fault) => refuse_made(err, fault),
    }
}

/// `GenerateICOMesh`: writes the icosahedral mesh of resolution `res`, or with `dual` its dual, to
/// `file`, and puts its size, or refuses its first fault.
pub fn generate_ico<F: Files, O: Sink, E: Sink>(
    alloc: Global,
    res: u32,
    dual: bool,
    file: &Text,
    files: &mut F,
    out: &mut O,
    err: &mut E,
) -> Status
    requires least { 1 ≤ res }
    requires greatest { res ≤ 200 }
    ensures kept { Keeps (Some (Ico res dual file.now))
        (scene (F.seen files.old) (O.seen out.old) (E.seen err.old))
        (scene (F.seen files.new) (O.seen out.new) (E.seen err.new)) result }
    ensures no_line { result ≡ Status.Done → err.new ≡ err.old }
{
    match gen_ico::make(alloc, res, dual) {
        Ok(mesh) => write_mesh(alloc, &mesh, file, files, out, err),
        Err(fault) => refuse_made(err, fault),
    }
}
