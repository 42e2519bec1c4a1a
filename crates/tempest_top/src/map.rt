// The command that makes the map of an overlap.
ghost use Rattle.std.specs.Prelude.{◌≡◌, ◌≤◌, ◌+◌, ℕ, List, [], IfOk, IfErr, IfSome, OnOk, Some, length, string_bytes};
ghost use Rattle.vec_exact.specs.declared.RawMesh.{RawMesh};
ghost use Rattle.clip.specs.Overlaps.{OverlapParts};
ghost use Rattle.offline_map.specs.Maps.{map_of};
ghost use Rattle.offline_map.specs.MapFaults.{IsMappable};
ghost use Rattle.overlap_load.specs.Windows.{IsRead, rest_bytes};
ghost use Rattle.tempest_top.specs.MapReading.{IsMaking, IsWhole, IsPut, IsMapOfFile, IsNoMap, UnlessRefused, status_of_no_map, no_map_text};
ghost use Rattle.vec_exact.specs.declared.limits.TheConstants.{MAX_FILE_LEN};
ghost use Rattle.remap_io.specs.Outside.{OnlyReads};
ghost use Rattle.nc_write.specs.File.{file_of};
ghost use Rattle.nc_write.specs.Form.{IsWellFormed};
ghost use Rattle.remap_load.specs.Kinds.{file_cost};
ghost use Rattle.map_files.specs.MapDocument.{map_document};
ghost use Rattle.command_line.specs.declared.choices.Chosen.TheVariants.{OfflineMap as OfflineMapOf};
ghost use Rattle.tempest_top.specs.Scene.{scene};
ghost use Rattle.fault_lines.specs.Lines.{PutsText};
ghost use Rattle.tempest_top.specs.Texts.{map_text};
ghost use Rattle.fault_lines.specs.RowFaults.{IsMapText};
ghost use Rattle.tempest_top.specs.MapFaults.{overlap_words};
ghost use Rattle.tempest_top.specs.Outcome.{IsOutcomeOfMap};
ghost use Rattle.tempest_top.specs.Ends.{Comes};
ghost use Rattle.tempest_top.specs.Promises.{Keeps};

use crate::finish::write_then_text;
use crate::inputs::{mesh_of, refuse_mesh};
use crate::map_faults::refuse_overlap_file;
use command_line::Text;
use fault_lines::{Status, refuse_map, refuse_memory};
use map_files::map_doc;
use map_rows::Map;
use mesh_check::Mesh;
use nc_write::NcDoc;
use offline_map::{MapFault, MapMaker};
use overlap_load::{OverlapReader, OverlapRefusal, open_overlap};
use remap_io::{Files, Sink};
use remap_load::FileRefusal;
use std::alloc::Global;
use vec_exact::NoMemory;

/// Why no map was made of the overlap of a file.
#[derive(Drop)]
pub enum NoMap {
    /// The file is refused.
    File(OverlapRefusal),
    /// The overlap has a fault as one of the two meshes.
    Fault(MapFault),
}

// Puts the next piece of an overlap file to a map, and tells whether there was one.
fn put_next<F: Files>(
    alloc: Global,
    files: &mut F,
    name: &str,
    reader: &mut OverlapReader,
    maker: &mut MapMaker,
) -> Result<bool, NoMap>
    requires making { (a : RawMesh) × (b : RawMesh)
        × IsMaking (F.seen files.old).folder name.now a b reader.old maker.old }
    ensures put { (a b : RawMesh)
        → IsMaking (F.seen files.old).folder name.now a b reader.old maker.old
        → IfOk result
        (IsPut (F.seen files.old).folder name.now a b reader.old reader.new maker.new) }
    ensures why { (a b : RawMesh)
        → IsMaking (F.seen files.old).folder name.now a b reader.old maker.old
        → IfErr result (IsNoMap (F.seen files.old) (F.seen files.new) name.now a b) }
    ensures reads { OnlyReads (F.seen files.old) (F.seen files.new) }
    ensures asked { UnlessRefused result ((F.seen files.new).taken + rest_bytes reader.new
        ≤ (F.seen files.old).taken + rest_bytes reader.old) }
{
    let next = match reader.next(alloc, files, name) {
        Ok(next) => next,
        Err(fault) => return Err(NoMap::File(FileRefusal::Load(fault))),
    };
    let Some(piece) = next else {
        return Ok(false);
    };
    match maker.put(&piece) {
        Ok(()) => Ok(true),
        Err(fault) => Err(NoMap::Fault(fault)),
    }
}

// Puts all pieces of an overlap file to a map, one after another.
fn put_pieces<F: Files>(
    alloc: Global,
    files: &mut F,
    name: &str,
    reader: &mut OverlapReader,
    maker: &mut MapMaker,
) -> Result<(), NoMap>
    requires making { (a : RawMesh) × (b : RawMesh)
        × IsMaking (F.seen files.old).folder name.now a b reader.old maker.old }
    ensures whole { (a b : RawMesh)
        → IsMaking (F.seen files.old).folder name.now a b reader.old maker.old
        → OnOk result (IsWhole (F.seen files.old).folder name.now a b maker.new) }
    ensures why { (a b : RawMesh)
        → IsMaking (F.seen files.old).folder name.now a b reader.old maker.old
        → IfErr result (IsNoMap (F.seen files.old) (F.seen files.new) name.now a b) }
    ensures reads { OnlyReads (F.seen files.old) (F.seen files.new) }
    ensures asked { UnlessRefused result
        ((F.seen files.new).taken ≤ (F.seen files.old).taken + rest_bytes reader.old) }
{
    'pieces: loop {
        match put_next(alloc, files, name, reader, maker) {
            Ok(true) => {}
            Ok(false) => return Ok(()),
            Err(why) => return Err(why),
        }
    }
}

// The map of the pieces that a reader gives, which was opened just now.
fn map_of_pieces<F: Files>(
    alloc: Global,
    files: &mut F,
    a: &Mesh,
    b: &Mesh,
    name: &str,
    reader: OverlapReader,
) -> Result<Map, NoMap>
    requires read { IsRead (F.seen files.old).folder name.now reader [] }
    ensures map { IfOk result (IsMapOfFile (F.seen files.old).folder name.now a.now b.now) }
    ensures why { IfErr result
        (IsNoMap (F.seen files.old) (F.seen files.new) name.now a.now b.now) }
    ensures reads { OnlyReads (F.seen files.old) (F.seen files.new) }
    ensures asked { UnlessRefused result
        ((F.seen files.new).taken ≤ (F.seen files.old).taken + rest_bytes reader) }
{
    let mut reader = reader;
    let faces_a = reader.source_faces();
    let faces_b = reader.target_faces();
    let count = reader.piece_count();
    let mut maker = match MapMaker::begin(alloc, a, b, faces_a, faces_b, count) {
        Ok(maker) => maker,
        Err(fault) => {
            // This is cheaper to prove than what a way out lets go by itself; so below.
            drop(reader);
            return Err(NoMap::Fault(fault));
        }
    };
    let put = put_pieces(alloc, files, name, &mut reader, &mut maker);
    drop(reader);
    match put {
        Ok(()) => {}
        Err(why) => {
            drop(maker);
            return Err(why);
        }
    }
    match maker.finish(alloc) {
        Ok(map) => Ok(map),
        Err(fault) => Err(NoMap::Fault(fault)),
    }
}

// The map of the overlap of an input file. Of its pieces one stands in memory at a time.
fn map_of_file<F: Files>(
    alloc: Global,
    files: &mut F,
    a: &Mesh,
    b: &Mesh,
    name: &str,
) -> Result<Map, NoMap>
    ensures map { IfOk result (IsMapOfFile (F.seen files.old).folder name.now a.now b.now) }
    ensures why { IfErr result
        (IsNoMap (F.seen files.old) (F.seen files.new) name.now a.now b.now) }
    ensures reads { OnlyReads (F.seen files.old) (F.seen files.new) }
    ensures asked { UnlessRefused result (IfSome (F.seen files.old).folder (λ m.
        (F.seen files.new).taken
        ≤ (F.seen files.old).taken + file_cost overlap_words.kind m name.now)) }
{
    let reader = match open_overlap(alloc, files, name) {
        Ok(reader) => reader,
        Err(why) => return Err(NoMap::File(why)),
    };
    map_of_pieces(alloc, files, a, b, name, reader)
}

// Refuses an input file of whose overlap no map was made.
fn refuse_no_map<E: Sink>(err: &mut E, file: &Text, why: NoMap) -> Status
    ensures status { result ≡ status_of_no_map why }
    ensures line { PutsText (E.seen err.old) (E.seen err.new) (no_map_text file.now why) }
{
    match why {
        NoMap::File(refusal) => refuse_overlap_file(err, file.text.as_str(), refusal),
        NoMap::Fault(fault) => refuse_map(err, file.text.as_str(), fault),
    }
}

// The text that tells how many rows a map has, and how many faces the two meshes.
fn counts_of(alloc: Global, map: &Map) -> Result<String, NoMemory>
    ensures { IfOk result (λ text. string_bytes text ≡ map_text map.now) }
{
    let rows = map.rows.items.len();
    let sources = map.n_a;
    let targets = map.n_b;
    let text = format!(in alloc; "rows {rows} sources {sources} targets {targets}\n")?;
    Ok(text)
}

// The document of a map, and its text. Its file has at most 150,995,360 bytes, so that none is too
// long. The map is let go here.
fn map_file(alloc: Global, map: Map) -> Result<(NcDoc, String), NoMemory>
    ensures document { IfOk result (λ p. p.0 ≡ map_document map) }
    ensures well_formed { IfOk result (λ p. IsWellFormed p.0) }
    ensures short { OnOk result (length (file_of (map_document map)) ≤ MAX_FILE_LEN) }
    ensures text { IfOk result (λ p. string_bytes p.1 ≡ map_text map) }
{
    let text = counts_of(alloc, &map)?;
    let doc = map_doc(alloc, &map)?;
    Ok((doc, text))
}

// Writes the map of an overlap to `file`.
fn write_map<F: Files, O: Sink, E: Sink>(
    alloc: Global,
    map: Map,
    file: &Text,
    files: &mut F,
    out: &mut O,
    err: &mut E,
) -> Status
    ensures comes { (a b : RawMesh) (overlap : OverlapParts) (ov_mesh : List ℕ)
        → IsMappable a b overlap → map ≡ map_of overlap
        → Comes [] (IsMapText ov_mesh) (Some file.now)
        (IsOutcomeOfMap a b overlap ov_mesh file.now)
        (scene (F.seen files.old) (O.seen out.old) (E.seen err.old))
        (scene (F.seen files.new) (O.seen out.new) (E.seen err.new)) result }
    ensures no_line { result ≡ Status.Done → err.new ≡ err.old }
{
    let Ok((doc, text)) = map_file(alloc, map) else {
        return refuse_memory(err);
    };
    write_then_text(
        alloc,
        files,
        out,
        err,
        file.text.as_str(),
        &doc,
        text.as_bytes(),
    )
}

/// `GenerateOfflineMap`: writes to `file` the map of the overlap in `ov_mesh`, which is one of the
/// source mesh in `a` and the target mesh in `b`, and puts how many rows it has and how many faces
/// the meshes. Each listed row is tested against both meshes, one after another, and none is kept
/// in the form of the file; pairs that aren't listed are not looked for.
pub fn generate_map<F: Files, O: Sink, E: Sink>(
    alloc: Global,
    a: &Text,
    b: &Text,
    ov_mesh: &Text,
    file: &Text,
    files: &mut F,
    out: &mut O,
    err: &mut E,
) -> Status
    ensures kept { Keeps (Some (OfflineMapOf a.now b.now ov_mesh.now file.now))
        (scene (F.seen files.old) (O.seen out.old) (E.seen err.old))
        (scene (F.seen files.new) (O.seen out.new) (E.seen err.new)) result }
    ensures no_line { result ≡ Status.Done → err.new ≡ err.old }
{
    let source = match mesh_of(alloc, files, a) {
        Ok(mesh) => mesh,
        Err(why) => return refuse_mesh(err, a, why),
    };
    let target = match mesh_of(alloc, files, b) {
        Ok(mesh) => mesh,
        Err(why) => {
            drop(source);
            return refuse_mesh(err, b, why);
        }
    };
    let made = map_of_file(alloc, files, &source, &target, ov_mesh.text.as_str());
    drop(source);
    drop(target);
    match made {
        Ok(map) => write_map(alloc, map, file, files, out, err),
        Err(why) => refuse_no_map(err, ov_mesh, why),
    }
}
