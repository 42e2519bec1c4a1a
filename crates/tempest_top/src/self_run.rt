// The command that runs the whole chain in memory.
ghost use Rattle.std.specs.Prelude.{◌≡◌, ◌≤◌, ◌*◌, [], IfOk, None, Some, length, string_bytes};
ghost use Rattle.remap_io.specs.Outside.{FilesSeen};
ghost use Rattle.gen_cs.specs.CubedSphere.{cubed_sphere};
ghost use Rattle.map_rows.specs.Application.{source_mass_of, target_mass_of};
ghost use Rattle.map_rows.specs.Laws.{IsFieldOf};
ghost use Rattle.command_line.specs.declared.choices.Chosen.TheVariants.{SelfRun as SelfRunOf};
ghost use Rattle.tempest_top.specs.Scene.{scene};
ghost use Rattle.fault_lines.specs.Lines.{PutsText};
ghost use Rattle.tempest_top.specs.SelfRuns.{value_of_face, values_of_faces, number_line, mass_line, face_lines, meeting_lines, mass_lines, chain_text, status_of_chain, chain_fault_text, IsSelfRunFault};
ghost use Rattle.tempest_top.specs.Outcome.{IsOutcomeOfChain};
ghost use Rattle.tempest_top.specs.Ends.{Comes};
ghost use Rattle.tempest_top.specs.Promises.{IsSelfRunText, Keeps};

use crate::finish::put_text_alone;
use apply_map::{Field, source_mass, target_mass};
use fault_lines::{Status, refuse_made, refuse_memory, refuse_run, refuse_uncovered};
use map_rows::Map;
use mesh_check::{Mesh, MeshFault, check, face_count};
use overlap_run::{OpenGate, RunFault};
use remap_chain::{ChainFault, ChainOut, chain};
use remap_io::Sink;
use std::alloc::Global;
use std::thread::Threads;
use vec_exact::NoMemory;

// The value at a source face.
fn value_of(face: u32) -> i32
    requires { face ≤ 60000 }
    ensures { result ≡ value_of_face face }
{
    (7919 * face % 2001) as i32 - 1000
}

// The values at so many source faces.
fn values_of(alloc: Global, count: u32) -> Result<Vec<i32>, NoMemory>
    requires { count ≤ 60000 }
    ensures { IfOk result (λ values. values.items ≡ values_of_faces count) }
{
    let mut values = Vec::with_capacity(alloc, count as usize)?;
    for face in 1..count + 1 {
        values.push(value_of(face))?;
    }
    Ok(values)
}

// The cubed sphere of resolution `n`, which is always accepted.
fn sphere(alloc: Global, n: u32) -> Result<Mesh, NoMemory>
    requires least { 1 ≤ n }
    requires greatest { n ≤ 100 }
    ensures mesh { IfOk result (λ mesh. mesh ≡ cubed_sphere n) }
    ensures few { IfOk result (λ mesh. length mesh.faces ≤ 60000) }
{
    let raw = gen_cs::make(alloc, n)?;
    match check(alloc, raw) {
        Ok(mesh) => Ok(mesh),
        Err(MeshFault::NoMemory) => Err(NoMemory),
        Err(_) => unreachable!(),
    }
}

// The line that tells of a number by its name.
fn number_line(alloc: Global, name: &str, number: u32) -> Result<String, NoMemory>
    ensures { IfOk result (λ text. string_bytes text ≡ number_line name.now number) }
{
    let text = format!(in alloc; "{name} {number}\n")?;
    Ok(text)
}

fn mass_line(alloc: Global, name: &str, mass: i128) -> Result<String, NoMemory>
    ensures { IfOk result (λ text. string_bytes text ≡ mass_line name.now mass) }
{
    let text = format!(in alloc; "{name} {mass}\n")?;
    Ok(text)
}

// How many faces the meshes have.
fn faces_of(alloc: Global, sources: u32, targets: u32) -> Result<String, NoMemory>
    ensures { IfOk result (λ text. string_bytes text ≡ face_lines sources targets) }
{
    let source = number_line(alloc, "source_faces", sources)?;
    let target = number_line(alloc, "target_faces", targets)?;
    let text = format!(in alloc; "{source}{target}")?;
    Ok(text)
}

// The same, and how many pairs of them meet.
fn meetings_of(alloc: Global, sources: u32, targets: u32, pieces: u32) -> Result<String, NoMemory>
    ensures { IfOk result (λ text. string_bytes text ≡ meeting_lines sources targets pieces) }
{
    let faces = faces_of(alloc, sources, targets)?;
    let meetings = number_line(alloc, "pieces", pieces)?;
    let text = format!(in alloc; "{faces}{meetings}")?;
    Ok(text)
}

// The masses of the values and of the field that the map makes of them.
fn masses_of(alloc: Global, map: &Map, values: &[i32], field: &Field) -> Result<String, NoMemory>
    requires values { length values.now ≡ map.now.n_a }
    requires field { IsFieldOf map.now 1 field.now.whole field.now.rest }
    ensures { IfOk result (λ text. string_bytes text ≡ mass_lines
        (source_mass_of map.now 1 values.now)
        (target_mass_of map.now 1 field.now.whole field.now.rest)) }
{
    let source = mass_line(alloc, "source_mass", source_mass(map, 1, values))?;
    let target = mass_line(alloc, "target_mass", target_mass(map, 1, field))?;
    let text = format!(in alloc; "{source}{target}")?;
    Ok(text)
}

// The text of a run.
fn chain_line(
    alloc: Global,
    source: &Mesh,
    target: &Mesh,
    values: &[i32],
    told: &ChainOut,
) -> Result<String, NoMemory>
    requires values { length values.now ≡ told.now.map.n_a }
    requires field { IsFieldOf told.now.map 1 told.now.field.whole told.now.field.rest }
    ensures { IfOk result (λ text. string_bytes text
        ≡ chain_text source.now target.now values.now told.now) }
{
    let meetings = meetings_of(alloc, face_count(source), face_count(target), told.pieces)?;
    let masses = masses_of(alloc, &told.map, values, &told.field)?;
    let text = format!(in alloc; "{meetings}{masses}")?;
    Ok(text)
}

// Refuses two meshes that have no chain.
fn refuse_chain<E: Sink>(err: &mut E, fault: ChainFault) -> Status
    requires { IsSelfRunFault fault }
    ensures status { result ≡ status_of_chain fault }
    ensures line { PutsText (E.seen err.old) (E.seen err.new) (chain_fault_text fault) }
{
    match fault {
        ChainFault::TooManyPieces(pairs) => refuse_run(err, RunFault::TooManyPieces(pairs)),
        ChainFault::Uncovered(face) => refuse_uncovered(err, face),
        ChainFault::Length { .. } => unreachable!(),
        ChainFault::NoMemory => refuse_memory(err),
    }
}

// Puts what the chain gives of two meshes and the values at the source faces.
fn tell_chain<R: Threads, O: Sink, E: Sink>(
    rt: &R,
    alloc: Global,
    source: &Mesh,
    target: &Mesh,
    workers: u32,
    values: &[i32],
    out: &mut O,
    err: &mut E,
) -> Status
    requires workers { (1 ≤ workers) × (workers ≤ 64) }
    requires values { length values.now ≡ length source.now.faces }
    ensures comes { (files : FilesSeen) → Comes [] IsSelfRunText None
        (IsOutcomeOfChain source.now target.now values.now)
        (scene files (O.seen out.old) (E.seen err.old))
        (scene files (O.seen out.new) (E.seen err.new)) result }
    ensures no_line { result ≡ Status.Done → err.new ≡ err.old }
{
    let told = match chain(rt, alloc, source, target, workers, &OpenGate, values) {
        Ok(told) => told,
        Err(fault) => return refuse_chain(err, fault),
    };
    let line = chain_line(alloc, source, target, values, &told);
    drop(told);
    let Ok(text) = line else {
        return refuse_memory(err);
    };
    put_text_alone(out, err, text.as_bytes())
}

// Runs the chain over the values that belong to the source faces.
fn run_chain<R: Threads, O: Sink, E: Sink>(
    rt: &R,
    alloc: Global,
    source: &Mesh,
    target: &Mesh,
    workers: u32,
    out: &mut O,
    err: &mut E,
) -> Status
    requires workers { (1 ≤ workers) × (workers ≤ 64) }
    requires few { length source.now.faces ≤ 60000 }
    ensures comes { (files : FilesSeen) → Comes [] IsSelfRunText None
        (IsOutcomeOfChain source.now target.now
        (values_of_faces (length source.now.faces)))
        (scene files (O.seen out.old) (E.seen err.old))
        (scene files (O.seen out.new) (E.seen err.new)) result }
    ensures no_line { result ≡ Status.Done → err.new ≡ err.old }
{
    let Ok(values) = values_of(alloc, face_count(source)) else {
        return refuse_memory(err);
    };
    tell_chain(rt, alloc, source, target, workers, &values, out, err)
}

/// `SelfRun`: runs the whole chain in memory on the cubed sphere of resolution `n`, 1 to 100, as
/// source and the latitude-longitude mesh of 4 `n` columns and 2 `n` rows as target, with 1 to 64
/// workers, and puts how many faces they have, how many pairs of them meet, and the masses of a field
/// before and after. It touches no file.
pub fn self_run<R: Threads, O: Sink, E: Sink>(
    rt: &R,
    alloc: Global,
    n: u32,
    workers: u32,
    out: &mut O,
    err: &mut E,
) -> Status
    requires n { (1 ≤ n) × (n ≤ 100) }
    requires workers { (1 ≤ workers) × (workers ≤ 64) }
    ensures kept { (files : FilesSeen) → Keeps (Some (SelfRunOf n workers))
        (scene files (O.seen out.old) (E.seen err.old))
        (scene files (O.seen out.new) (E.seen err.new)) result }
    ensures no_line { result ≡ Status.Done → err.new ≡ err.old }
{
    let Ok(source) = sphere(alloc, n) else {
        return refuse_memory(err);
    };
    let target = match gen_rll::make(alloc, 4 * n, 2 * n) {
        Ok(mesh) => mesh,
        Err(fault) => {
            // This is cheaper to prove than what a way out lets go by itself.
            drop(source);
            return refuse_made(err, fault);
        }
    };
    let status = run_chain(rt, alloc, &source, &target, workers, out, err);
    drop(source);
    drop(target);
    status
}
