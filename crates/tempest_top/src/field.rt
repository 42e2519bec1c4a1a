// The command that carries a field over with a map.
ghost use Rattle.std.specs.Prelude.{◌≡◌, ◌≤◌, ◌+◌, ℕ, List, [], IfOk, IfErr, IfSome, OnOk, Some, string_bytes};
ghost use Rattle.remap_io.specs.Folder.{OnFile};
ghost use Rattle.remap_io.specs.Outside.{OnlyReads};
ghost use Rattle.nc_write.specs.Form.{IsWellFormed, HasShortLists};
ghost use Rattle.nc_write.specs.Made.{made_doc};
ghost use Rattle.remap_load.specs.Kinds.{HasContent, IsFileRefusal, file_cost};
ghost use Rattle.data_load.specs.DataFile.{IsDataVar};
ghost use Rattle.command_line.specs.declared.choices.Chosen.TheVariants.{Apply as ApplyOf};
ghost use Rattle.tempest_top.specs.Scene.{scene};
ghost use Rattle.fault_lines.specs.Lines.{PutsText};
ghost use Rattle.fault_lines.specs.Faults.{status_of, text_of};
ghost use Rattle.tempest_top.specs.FieldFaults.{map_words, data_words};
ghost use Rattle.tempest_top.specs.Fields.{LiesOver, HasNoFill};
ghost use Rattle.tempest_top.specs.Outcome.{IsOutcomeOfDocument, IsOutcomeOfPlain, IsOutcomeOfMasked, IsOutcomeOfField};
ghost use Rattle.tempest_top.specs.Ends.{Comes};
ghost use Rattle.tempest_top.specs.Promises.{IsFieldText, Keeps};

use crate::field_docs::{first_fill, masked_field, plain_field};
use crate::field_faults::{refuse_data_file, refuse_fill, refuse_map_file, refuse_no_fit};
use crate::finish::write_made_then_text;
use crate::numbers::FieldNumbers;
use apply_map::{Targets, targets_of};
use command_line::Text;
use data_load::{DataRefusal, DataVar, load_data};
use fault_lines::{Status, refuse_length, refuse_memory};
use field_files::{FieldVar, fit_field};
use map_load::{MapRefusal, load_map};
use map_rows::Map;
use nc_write::{Listed, MadeNumbers, NcDoc, length_of_made};
use remap_io::{Files, Sink};
use std::alloc::Global;
use vec_exact::MAX_FILE_LEN;

// The map of an input file.
fn map_of<F: Files>(alloc: Global, files: &mut F, file: &Text) -> Result<Map, MapRefusal>
    ensures map { IfOk result (λ map. OnFile (F.seen files.old).folder file.now
        (λ bytes. HasContent map_words.kind bytes map)) }
    ensures refusal { IfErr result
        (IsFileRefusal map_words.kind (F.seen files.old) (F.seen files.new) file.now) }
    ensures reads { OnlyReads (F.seen files.old) (F.seen files.new) }
    ensures asked { OnOk result (IfSome (F.seen files.old).folder (λ m. (F.seen files.new).taken
        ≤ (F.seen files.old).taken + file_cost map_words.kind m file.now)) }
{
    load_map(alloc, files, file.text.as_str())
}

// Refuses an input file that holds no map.
fn refuse_map_of<E: Sink>(err: &mut E, file: &Text, why: MapRefusal) -> Status
    ensures status { result ≡ status_of map_words why }
    ensures line { PutsText (E.seen err.old) (E.seen err.new) (text_of map_words file.now why) }
{
    refuse_map_file(err, file.text.as_str(), why)
}

// The variable of an input file.
fn data_of<F: Files>(
    alloc: Global,
    files: &mut F,
    file: &Text,
    var: &Text,
) -> Result<DataVar, DataRefusal>
    ensures variable { IfOk result (λ found. OnFile (F.seen files.old).folder file.now
        (λ bytes. HasContent (data_words var.now).kind bytes found)) }
    ensures sound { IfOk result IsDataVar }
    ensures refusal { IfErr result
        (IsFileRefusal (data_words var.now).kind (F.seen files.old) (F.seen files.new) file.now) }
    ensures reads { OnlyReads (F.seen files.old) (F.seen files.new) }
    ensures asked { OnOk result (IfSome (F.seen files.old).folder (λ m. (F.seen files.new).taken
        ≤ (F.seen files.old).taken + file_cost (data_words var.now).kind m file.now)) }
{
    load_data(alloc, files, file.text.as_str(), var.text.as_str())
}

// Refuses an input file that holds no variable of this name.
fn refuse_data_of<E: Sink>(err: &mut E, file: &Text, var: &Text, why: DataRefusal) -> Status
    ensures status { result ≡ status_of (data_words var.now) why }
    ensures line { PutsText (E.seen err.old) (E.seen err.new)
        (text_of (data_words var.now) file.now why) }
{
    refuse_data_file(err, file.text.as_str(), var.text.as_str(), why)
}

// Writes what the document of a field stands for to `file`, unless that would be too long, and puts
// its text.
fn write_document<F: Files, O: Sink, E: Sink, M: MadeNumbers>(
    alloc: Global,
    doc: &NcDoc,
    made: &M,
    text: &str,
    file: &Text,
    files: &mut F,
    out: &mut O,
    err: &mut E,
) -> Status
    requires well_formed { IsWellFormed (made_doc (M.numbers made.now) doc.now) }
    requires short { HasShortLists doc.now }
    ensures comes { (in_data : List ℕ) → Comes [] (IsFieldText in_data file.now) (Some file.now)
        (IsOutcomeOfDocument (made_doc (M.numbers made.now) doc.now) text.now file.now)
        (scene (F.seen files.old) (O.seen out.old) (E.seen err.old))
        (scene (F.seen files.new) (O.seen out.new) (E.seen err.new)) result }
    ensures no_line { result ≡ Status.Done → err.new ≡ err.old }
{
    let length = length_of_made(doc);
    if length > MAX_FILE_LEN {
        return refuse_length(err, file.text.as_str(), length);
    }
    write_made_then_text(
        alloc,
        files,
        out,
        err,
        file.text.as_str(),
        doc,
        made,
        text.as_bytes(),
    )
}

// Writes the field that a map, made ready, makes of a variable none of whose values is the fill
// value. Its numbers are made while the file is written.
fn write_by_targets<F: Files, O: Sink, E: Sink>(
    alloc: Global,
    targets: &Targets,
    found: &DataVar,
    field: FieldVar,
    file: &Text,
    files: &mut F,
    out: &mut O,
    err: &mut E,
) -> Status
    requires over { LiesOver targets.now found.now field }
    requires unfilled { HasNoFill found.now }
    ensures comes { (in_data : List ℕ) → Comes [] (IsFieldText in_data file.now) (Some file.now)
        (IsOutcomeOfPlain targets.now found.now field in_data file.now)
        (scene (F.seen files.old) (O.seen out.old) (E.seen err.old))
        (scene (F.seen files.new) (O.seen out.new) (E.seen err.new)) result }
    ensures no_line { result ≡ Status.Done → err.new ≡ err.old }
{
    let Ok((doc, text)) = plain_field(alloc, targets.map(), found, field) else {
        return refuse_memory(err);
    };
    let numbers = FieldNumbers {
        targets,
        slices: field.slices,
        values: &found.values.items,
    };
    write_document(alloc, &doc, &numbers, text.as_str(), file, files, out, err)
}

// Writes the field that a map makes of a variable none of whose values is the fill value.
fn write_unfilled<F: Files, O: Sink, E: Sink>(
    alloc: Global,
    map: &Map,
    found: &DataVar,
    field: FieldVar,
    file: &Text,
    files: &mut F,
    out: &mut O,
    err: &mut E,
) -> Status
    requires over { LiesOver map.now found.now field }
    requires unfilled { HasNoFill found.now }
    ensures comes { (in_data : List ℕ) → Comes [] (IsFieldText in_data file.now) (Some file.now)
        (IsOutcomeOfPlain map.now found.now field in_data file.now)
        (scene (F.seen files.old) (O.seen out.old) (E.seen err.old))
        (scene (F.seen files.new) (O.seen out.new) (E.seen err.new)) result }
    ensures no_line { result ≡ Status.Done → err.new ≡ err.old }
{
    let Ok(targets) = targets_of(alloc, map) else {
        return refuse_memory(err);
    };
    write_by_targets(alloc, &targets, found, field, file, files, out, err)
}

// Writes the field that a map makes of a variable, unless a value is the fill value.
fn write_plain<F: Files, O: Sink, E: Sink>(
    alloc: Global,
    map: &Map,
    found: &DataVar,
    field: FieldVar,
    in_data: &Text,
    file: &Text,
    files: &mut F,
    out: &mut O,
    err: &mut E,
) -> Status
    requires { LiesOver map.now found.now field }
    ensures comes { Comes [] (IsFieldText in_data.now file.now) (Some file.now)
        (IsOutcomeOfPlain map.now found.now field in_data.now file.now)
        (scene (F.seen files.old) (O.seen out.old) (E.seen err.old))
        (scene (F.seen files.new) (O.seen out.new) (E.seen err.new)) result }
    ensures no_line { result ≡ Status.Done → err.new ≡ err.old }
{
    match first_fill(found) {
        Some(place) => refuse_fill(err, in_data, place),
        None => write_unfilled(alloc, map, found, field, file, files, out, err),
    }
}

// Writes the masked field that a map makes of a variable.
fn write_masked<F: Files, O: Sink, E: Sink>(
    alloc: Global,
    map: &Map,
    found: &DataVar,
    field: FieldVar,
    file: &Text,
    files: &mut F,
    out: &mut O,
    err: &mut E,
) -> Status
    requires { LiesOver map.now found.now field }
    ensures comes { (in_data : List ℕ) → Comes [] (IsFieldText in_data file.now) (Some file.now)
        (IsOutcomeOfMasked map.now found.now field file.now)
        (scene (F.seen files.old) (O.seen out.old) (E.seen err.old))
        (scene (F.seen files.new) (O.seen out.new) (E.seen err.new)) result }
    ensures no_line { result ≡ Status.Done → err.new ≡ err.old }
{
    let Ok((doc, text)) = masked_field(alloc, map, found, field) else {
        return refuse_memory(err);
    };
    write_document(alloc, &doc, &Listed, text.as_str(), file, files, out, err)
}

// Writes the field that a map makes of a variable, with a mask or without.
fn write_field<F: Files, O: Sink, E: Sink>(
    alloc: Global,
    map: &Map,
    found: &DataVar,
    masked: bool,
    in_data: &Text,
    file: &Text,
    files: &mut F,
    out: &mut O,
    err: &mut E,
) -> Status
    requires { IsDataVar found.now }
    ensures comes { Comes [] (IsFieldText in_data.now file.now) (Some file.now)
        (IsOutcomeOfField masked map.now found.now in_data.now file.now)
        (scene (F.seen files.old) (O.seen out.old) (E.seen err.old))
        (scene (F.seen files.new) (O.seen out.new) (E.seen err.new)) result }
    ensures no_line { result ≡ Status.Done → err.new ≡ err.old }
{
    let field = match fit_field(&found.file, found.var, map.n_a) {
        Ok(field) => field,
        Err(no_fit) => return refuse_no_fit(err, in_data, no_fit.last_len, map.n_a),
    };
    if masked {
        return write_masked(alloc, map, found, field, file, files, out, err);
    }
    write_plain(alloc, map, found, field, in_data, file, files, out, err)
}

/// `ApplyOfflineMap`: writes to `file` the field that the map in `map` makes of the variable `var` in
/// `in_data`, slice by slice, and puts how many slices there are and the masses on both sides. With
/// `masked` a value that is the fill value counts as absent; without it, it is refused.
pub fn apply_offline_map<F: Files, O: Sink, E: Sink>(
    alloc: Global,
    map: &Text,
    var: &Text,
    in_data: &Text,
    file: &Text,
    masked: bool,
    files: &mut F,
    out: &mut O,
    err: &mut E,
) -> Status
    ensures kept { Keeps (Some (ApplyOf map.now var.now in_data.now file.now masked))
        (scene (F.seen files.old) (O.seen out.old) (E.seen err.old))
        (scene (F.seen files.new) (O.seen out.new) (E.seen err.new)) result }
    ensures no_line { result ≡ Status.Done → err.new ≡ err.old }
{
    let parts = match map_of(alloc, files, map) {
        Ok(parts) => parts,
        Err(why) => return refuse_map_of(err, map, why),
    };
    let found = match data_of(alloc, files, in_data, var) {
        Ok(found) => found,
        Err(why) => return refuse_data_of(err, in_data, var, why),
    };
    let status = write_field(
        alloc, &parts, &found, masked, in_data, file, files, out, err,
    );
    drop(parts);
    drop(found);
    status
}
