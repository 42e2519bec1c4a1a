// The command that tells which targets are covered.
ghost use Rattle.std.specs.Prelude.{◌≡◌, [], IfOk, None, Some, length, string_bytes};
ghost use Rattle.remap_io.specs.Outside.{FilesSeen};
ghost use Rattle.cover_check.specs.declared.counting.CoverCount.{CoverCount as Count};
ghost use Rattle.cover_check.specs.CoveredTargets.{IsCoverCount};
ghost use Rattle.command_line.specs.declared.choices.Chosen.TheVariants.{Coverage as CoverageOf};
ghost use Rattle.tempest_top.specs.Scene.{scene};
ghost use Rattle.tempest_top.specs.Texts.{coverage_text};
ghost use Rattle.tempest_top.specs.Outcome.{IsOutcomeOfCoverage};
ghost use Rattle.tempest_top.specs.Ends.{Comes};
ghost use Rattle.tempest_top.specs.Promises.{NoText, Keeps};

use crate::finish::put_text_alone;
use crate::inputs::{mesh_of, refuse_mesh};
use command_line::Text;
use cover_check::coverage;
use fault_lines::{Status, refuse_memory};
use mesh_check::{Mesh, face_count};
use remap_io::{Files, Sink};
use std::alloc::Global;
use vec_exact::NoMemory;

// The text that tells how many targets are covered, and the first one that isn't.
fn covered_text(alloc: Global, a: &Mesh, b: &Mesh) -> Result<String, NoMemory>
    ensures { IfOk result (λ text. (count : Count) × IsCoverCount a.now b.now count
        × (string_bytes text ≡ coverage_text (length b.now.faces) count)) }
{
    let count = coverage(alloc, a, b)?;
    let targets = face_count(b);
    let covered = count.covered;
    let first = count.first;
    let text = format!(in alloc; "targets {targets} covered {covered} first {first}\n")?;
    Ok(text)
}

// Puts what the source mesh covers of the target mesh.
fn tell_coverage<O: Sink, E: Sink>(
    alloc: Global,
    a: &Mesh,
    b: &Mesh,
    out: &mut O,
    err: &mut E,
) -> Status
    ensures comes { (files : FilesSeen) → Comes [] NoText None (IsOutcomeOfCoverage a.now b.now)
        (scene files (O.seen out.old) (E.seen err.old))
        (scene files (O.seen out.new) (E.seen err.new)) result }
    ensures no_line { result ≡ Status.Done → err.new ≡ err.old }
{
    let Ok(text) = covered_text(alloc, a, b) else {
        return refuse_memory(err);
    };
    put_text_alone(out, err, text.as_bytes())
}

/// `CheckCoverage`: puts how many faces of the target mesh in `b` the faces of the source mesh in `a`
/// cover, and the first one that they don't.
pub fn check_coverage<F: Files, O: Sink, E: Sink>(
    alloc: Global,
    a: &Text,
    b: &Text,
    files: &mut F,
    out: &mut O,
    err: &mut E,
) -> Status
    ensures kept { Keeps (Some (CoverageOf a.now b.now))
        (scene (F.seen files.old) (O.seen out.old) (E.seen err.old))
        (scene (F.seen files.new) (O.seen out.new) (E.seen err.new)) result }
    ensures no_line { result ≡ Status.Done → err.new ≡ err.old }
{
    let source = match mesh_of(alloc, files, a) {
        Ok(mesh) => mesh,
        Err(why) => return refuse_mesh(err, a, why),
    };
    let target = match mesh_of(alloc, files, b) {
        Ok(mesh) => mesh,
        Err(why) => {
            // This is cheaper to prove than what a way out lets go by itself.
            drop(source);
            return refuse_mesh(err, b, why);
        }
    };
    let status = tell_coverage(alloc, &source, &target, out, err);
    drop(source);
    drop(target);
    status
}
