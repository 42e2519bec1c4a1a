// The command that finds the pieces of two meshes.
ghost use Rattle.std.specs.Prelude.{◌≡◌, ◌≤◌, ◌<◌, ◌+◌, [], IfOk, IfErr, IfSome, OnOk, Some, length, string_bytes};
ghost use Rattle.remap_io.specs.Folder.{OnFile};
ghost use Rattle.remap_io.specs.Outside.{OnlyReads};
ghost use Rattle.nc_write.specs.Form.{IsWellFormed};
ghost use Rattle.clip.specs.Overlaps.{OverlapParts};
ghost use Rattle.clip.specs.Columns.{AreColumnsOf};
ghost use Rattle.overlap_run.specs.Whole.{HoldsOverlap, IsRefusalOf};
ghost use Rattle.remap_load.specs.Kinds.{HasContent, IsFileRefusal, file_cost};
ghost use Rattle.remap_files.specs.OverlapDocument.{overlap_document};
ghost use Rattle.remap_files.specs.InColumns.{IsInColumns};
ghost use Rattle.command_line.specs.declared.choices.Chosen.TheVariants.{Overlap as OverlapOf};
ghost use Rattle.tempest_top.specs.Scene.{scene};
ghost use Rattle.fault_lines.specs.Lines.{PutsText};
ghost use Rattle.tempest_top.specs.Texts.{pieces_text};
ghost use Rattle.fault_lines.specs.Faults.{mesh_words, status_of, text_of};
ghost use Rattle.tempest_top.specs.Outcome.{IsOutcomeOfDocument, IsOutcomeOfPair};
ghost use Rattle.tempest_top.specs.Ends.{Comes};
ghost use Rattle.tempest_top.specs.Promises.{IsOverlapText, Keeps};

use crate::finish::write_then_text;
use crate::inputs::{mesh_of, refuse_mesh};
use clip::Columns;
use command_line::Text;
use fault_lines::{Status, refuse_length, refuse_memory, refuse_run};
use mesh_check::{Mesh, face_count};
use nc_write::NcDoc;
use overlap_run::{OpenGate, RunFault, overlap_list};
use remap_files::{columns_doc, columns_length};
use remap_io::{Files, Sink};
use std::alloc::Global;
use std::marker::Brand;
use std::sync::ledger::{Blank, Ledger};
use std::thread::Threads;
use vec_exact::{MAX_FILE_LEN, NoMemory, Steps};

// The pieces of the overlap in columns, with a counter of its own.
fn counted<R: Threads, L: Ledger>(
    rt: &R,
    alloc: Global,
    a: &Mesh,
    b: &Mesh,
    workers: u32,
    blank: Blank,
) -> Result<Columns, RunFault>
    requires name { blank.name ≡ L.name }
    requires parts { blank.parts ≡ L.parts }
    requires some { 0 < blank.parts }
    requires workers { (1 ≤ workers) × (workers ≤ 64) }
    ensures overlap { IfOk result
        (HoldsOverlap (λ columns pieces. AreColumnsOf pieces columns) a.now b.now) }
    ensures refusal { IfErr result (IsRefusalOf a.now b.now) }
{
    let mut steps = Steps::<L>::new(blank);
    overlap_list(rt, alloc, a, b, workers, &OpenGate, &mut steps)
}

// The pieces of the overlap of two meshes, in columns.
fn meet<R: Threads>(
    rt: &R,
    alloc: Global,
    a: &Mesh,
    b: &Mesh,
    workers: u32,
) -> Result<Columns, RunFault>
    requires { (1 ≤ workers) × (workers ≤ 64) }
    ensures overlap { IfOk result
        (HoldsOverlap (λ columns pieces. AreColumnsOf pieces columns) a.now b.now) }
    ensures refusal { IfErr result (IsRefusalOf a.now b.now) }
{
    counted::<R, Brand>(rt, alloc, a, b, workers, Blank::new(1))
}

// The document of an overlap, and the text that tells how many pieces it has.
fn overlap_file(
    alloc: Global,
    faces_a: u32,
    faces_b: u32,
    columns: Columns,
) -> Result<(NcDoc, String), NoMemory>
    requires held { (o : OverlapParts) × IsInColumns o faces_a faces_b columns }
    ensures document { (o : OverlapParts) → IsInColumns o faces_a faces_b columns
        → IfOk result (λ p. p.0 ≡ overlap_document o) }
    ensures well_formed { IfOk result (λ p. IsWellFormed p.0) }
    ensures text { (o : OverlapParts) → IsInColumns o faces_a faces_b columns
        → IfOk result (λ p. string_bytes p.1 ≡ pieces_text (length o.pieces)) }
{
    let pieces = columns.sources.len();
    let text = format!(in alloc; "pieces {pieces}\n")?;
    let doc = columns_doc(alloc, faces_a, faces_b, columns)?;
    Ok((doc, text))
}

// Writes an overlap to `file`, and puts how many pieces it has. A file that would be too long is
// refused before its document is made.
fn write_overlap<F: Files, O: Sink, E: Sink>(
    alloc: Global,
    faces_a: u32,
    faces_b: u32,
    columns: Columns,
    file: &Text,
    files: &mut F,
    out: &mut O,
    err: &mut E,
) -> Status
    requires held { (o : OverlapParts) × IsInColumns o faces_a faces_b columns }
    ensures comes { (o : OverlapParts) → IsInColumns o faces_a faces_b columns
        → Comes [] (IsOverlapText file.now) (Some file.now)
        (IsOutcomeOfDocument (overlap_document o) (pieces_text (length o.pieces)) file.now)
        (scene (F.seen files.old) (O.seen out.old) (E.seen err.old))
        (scene (F.seen files.new) (O.seen out.new) (E.seen err.new)) result }
    ensures no_line { result ≡ Status.Done → err.new ≡ err.old }
{
    let length = columns_length(faces_a, faces_b, &columns);
    if length > MAX_FILE_LEN {
        return refuse_length(err, file.text.as_str(), length);
    }
    let Ok((doc, text)) = overlap_file(alloc, faces_a, faces_b, columns) else {
        return refuse_memory(err);
    };
    write_then_text(
        alloc,
        files,
        out,
        err,
        file.text.as_str(),
        &doc,
        text.as_bytes(),
    )
}

// Writes the overlap of two meshes, which are let go when it is found.
fn write_pair<R: Threads, F: Files, O: Sink, E: Sink>(
    rt: &R,
    alloc: Global,
    a: Mesh,
    b: Mesh,
    workers: u32,
    file: &Text,
    files: &mut F,
    out: &mut O,
    err: &mut E,
) -> Status
    requires { (1 ≤ workers) × (workers ≤ 64) }
    ensures comes { Comes [] (IsOverlapText file.now) (Some file.now) (IsOutcomeOfPair a b file.now)
        (scene (F.seen files.old) (O.seen out.old) (E.seen err.old))
        (scene (F.seen files.new) (O.seen out.new) (E.seen err.new)) result }
    ensures no_line { result ≡ Status.Done → err.new ≡ err.old }
{
    let columns = match meet(rt, alloc, &a, &b, workers) {
        Ok(columns) => columns,
        Err(fault) => return refuse_run(err, fault),
    };
    let faces_a = face_count(&a);
    let faces_b = face_count(&b);
    drop(a);
    drop(b);
    write_overlap(alloc, faces_a, faces_b, columns, file, files, out, err)
}

/// `GenerateOverlapMesh`: finds all pieces that the source mesh in `a` and the target mesh in `b`
/// share, with 1 to 64 workers, writes them to `file`, and puts how many there are.
pub fn generate_overlap<R: Threads, F: Files, O: Sink, E: Sink>(
    rt: &R,
    alloc: Global,
    a: &Text,
    b: &Text,
    file: &Text,
    workers: u32,
    files: &mut F,
    out: &mut O,
    err: &mut E,
) -> Status
    requires { (1 ≤ workers) × (workers ≤ 64) }
    ensures kept { Keeps (Some (OverlapOf a.now b.now file.now workers))
        (scene (F.seen files.old) (O.seen out.old) (E.seen err.old))
        (scene (F.seen files.new) (O.seen out.new) (E.seen err.new)) result }
    ensures no_line { result ≡ Status.Done → err.new ≡ err.old }
{
    let source = match mesh_of(alloc, files, a) {
        Ok(mesh) => mesh,
        Err(why) => return refuse_mesh(err, a, why),
    };
    let target = match mesh_of(alloc, files, b) {
        Ok(mesh) => mesh,
        Err(why) => {
            // This is cheaper to prove than what a way out lets go by itself.
            drop(source);
            return refuse_mesh(err, b, why);
        }
    };
    write_pair(rt, alloc, source, target, workers, file, files, out, err)
}
