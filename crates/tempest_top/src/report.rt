// The command that tells whether a mesh tiles the sphere.
ghost use Rattle.std.specs.Prelude.{◌≡◌, ◌≤◌, [], IfOk, None, Some, length, string_bytes};
ghost use Rattle.remap_io.specs.Outside.{FilesSeen};
ghost use Rattle.command_line.specs.declared.choices.Chosen.TheVariants.{Check as CheckOf};
ghost use Rattle.tempest_top.specs.Scene.{scene};
ghost use Rattle.tempest_top.specs.Texts.{yes_or_no, faces_text, edges_text, covered_text, report_text};
ghost use Rattle.tempest_top.specs.Outcome.{IsOutcomeOfReport};
ghost use Rattle.tempest_top.specs.Ends.{Comes};
ghost use Rattle.tempest_top.specs.Promises.{IsPiecesText, Keeps};

use crate::finish::put_text_alone;
use crate::inputs::{mesh_of, refuse_mesh};
use command_line::Text;
use fault_lines::{Status, refuse_memory, refuse_run};
use mesh_check::{Mesh, face_count};
use mesh_partition::{MeshReport, report};
use remap_io::{Files, Sink};
use std::alloc::Global;
use std::thread::Threads;
use vec_exact::NoMemory;

fn yes_or_no(holds: bool) -> &'static str
    ensures { result.now ≡ yes_or_no holds }
{
    if holds { "yes" } else { "no" }
}

// How many faces there are, and how many pairs of them overlap.
fn faces_text(alloc: Global, faces: u32, told: MeshReport) -> Result<String, NoMemory>
    ensures { IfOk result (λ text. string_bytes text ≡ faces_text faces told) }
{
    let overlaps = told.overlaps;
    let text = format!(in alloc; "faces {faces} overlaps {overlaps}")?;
    Ok(text)
}

// How many directed edges stand alone, and how many twice.
fn edges_text(alloc: Global, told: MeshReport) -> Result<String, NoMemory>
    ensures { IfOk result (λ text. string_bytes text ≡ edges_text told) }
{
    let unpaired = told.unpaired;
    let doubled = told.doubled;
    let text = format!(in alloc; " open {unpaired} doubled {doubled}")?;
    Ok(text)
}

// Whether all is covered.
fn covered_text(alloc: Global, told: MeshReport) -> Result<String, NoMemory>
    ensures { IfOk result (λ text. string_bytes text ≡ covered_text told) }
{
    let word = yes_or_no(told.covered);
    let text = format!(in alloc; " covered {word}\n")?;
    Ok(text)
}

// The text that tells of a mesh.
fn report_line(alloc: Global, mesh: &Mesh, told: MeshReport) -> Result<String, NoMemory>
    ensures { IfOk result (λ text. string_bytes text ≡ report_text (length mesh.now.faces) told) }
{
    let faces = faces_text(alloc, face_count(mesh), told)?;
    let edges = edges_text(alloc, told)?;
    let covered = covered_text(alloc, told)?;
    let text = format!(in alloc; "{faces}{edges}{covered}")?;
    Ok(text)
}

// Puts the report on a mesh.
fn tell_report<R: Threads, O: Sink, E: Sink>(
    rt: &R,
    alloc: Global,
    mesh: &Mesh,
    workers: u32,
    out: &mut O,
    err: &mut E,
) -> Status
    requires { (1 ≤ workers) × (workers ≤ 64) }
    ensures comes { (files : FilesSeen) → Comes [] IsPiecesText None (IsOutcomeOfReport mesh.now)
        (scene files (O.seen out.old) (E.seen err.old))
        (scene files (O.seen out.new) (E.seen err.new)) result }
    ensures no_line { result ≡ Status.Done → err.new ≡ err.old }
{
    let told = match report(rt, alloc, mesh, workers) {
        Ok(told) => told,
        Err(fault) => return refuse_run(err, fault),
    };
    let Ok(text) = report_line(alloc, mesh, told) else {
        return refuse_memory(err);
    };
    put_text_alone(out, err, text.as_bytes())
}

/// `CheckMesh`: puts how many faces the mesh in `file` has, how many pairs of them overlap, how many
/// directed edges stand alone or twice, and whether its faces cover the sphere. It works with 1 to 64
/// workers.
pub fn check_mesh<R: Threads, F: Files, O: Sink, E: Sink>(
    rt: &R,
    alloc: Global,
    file: &Text,
    workers: u32,
    files: &mut F,
    out: &mut O,
    err: &mut E,
) -> Status
    requires { (1 ≤ workers) × (workers ≤ 64) }
    ensures kept { Keeps (Some (CheckOf file.now workers))
        (scene (F.seen files.old) (O.seen out.old) (E.seen err.old))
        (scene (F.seen files.new) (O.seen out.new) (E.seen err.new)) result }
    ensures no_line { result ≡ Status.Done → err.new ≡ err.old }
{
    let mesh = match mesh_of(alloc, files, file) {
        Ok(mesh) => mesh,
        Err(why) => return refuse_mesh(err, file, why),
    };
    let status = tell_report(rt, alloc, &mesh, workers, out, err);
    drop(mesh);
    status
}
