// How a command ends.
ghost use Rattle.std.specs.Prelude.{◌≡◌, codes};
ghost use Rattle.remap_io.specs.Outside.{FilesSeen};
ghost use Rattle.nc_write.specs.File.{file_of};
ghost use Rattle.nc_write.specs.Form.{IsWellFormed};
ghost use Rattle.nc_write.specs.Made.{made_doc};
ghost use Rattle.tempest_top.specs.Scene.{scene};
ghost use Rattle.fault_lines.specs.Lines.{PutsText};
ghost use Rattle.tempest_top.specs.Outcome.{text_alone, written};
ghost use Rattle.tempest_top.specs.Ends.{Ends};

use crate::document::DocumentFile;
use fault_lines::{Status, put_line};
use nc_write::{Listed, MadeNumbers, NcDoc};
use remap_io::{Files, PutErr, Sink};
use std::alloc::Global;

/// Puts the text, which is all that a command without an output file leaves. No file is touched.
pub fn put_text_alone<O: Sink, E: Sink>(out: &mut O, err: &mut E, text: &[u8]) -> Status
    ensures ends { (files : FilesSeen) → Ends (text_alone text.now files.folder)
        (scene files (O.seen out.old) (E.seen err.old))
        (scene files (O.seen out.new) (E.seen err.new)) result }
    ensures no_line { result ≡ Status.Done → err.new ≡ err.old }
{
    match out.put(text) {
        Ok(()) => Status::Done,
        Err(PutErr::Failed) => {
            put_line(err, &["write fault on output"]);
            Status::WriteFault
        }
        Err(PutErr::NoMemory) => {
            put_line(err, &["no memory"]);
            Status::NoMemory
        }
    }
}

/// Writes the file of what a document stands for, and then puts the text. Its lists stand for those
/// that `made` makes. The document is spelled while it is written.
pub fn write_made_then_text<F: Files, O: Sink, E: Sink, M: MadeNumbers>(
    alloc: Global,
    files: &mut F,
    out: &mut O,
    err: &mut E,
    name: &str,
    doc: &NcDoc,
    made: &M,
    text: &[u8],
) -> Status
    requires { IsWellFormed (made_doc (M.numbers made.now) doc.now) }
    ensures ends { Ends (written (record {
      name = name.now;
      bytes
          = file_of (made_doc (M.numbers made.now) doc.now);
    }) text.now (F.seen files.old).folder)
        (scene (F.seen files.old) (O.seen out.old) (E.seen err.old))
        (scene (F.seen files.new) (O.seen out.new) (E.seen err.new)) result }
    ensures no_line { result ≡ Status.Done → err.new ≡ err.old }
    ensures no_reads { (F.seen files.new).taken ≡ (F.seen files.old).taken }
{
    match files.replace_with(alloc, name, &DocumentFile { alloc, doc, made }) {
        Ok(()) => put_text_alone(out, err, text),
        Err(PutErr::Failed) => {
            put_line(err, &["write fault on ", name]);
            Status::WriteFault
        }
        Err(PutErr::NoMemory) => {
            put_line(err, &["no memory"]);
            Status::NoMemory
        }
    }
}

/// Writes the file of a document, and then puts the text. The document is spelled while it is
/// written.
pub fn write_then_text<F: Files, O: Sink, E: Sink>(
    alloc: Global,
    files: &mut F,
    out: &mut O,
    err: &mut E,
    name: &str,
    doc: &NcDoc,
    text: &[u8],
) -> Status
    requires { IsWellFormed doc.now }
    ensures ends { Ends (written (record { name = name.now; bytes = file_of doc.now }) text.now
        (F.seen files.old).folder)
        (scene (F.seen files.old) (O.seen out.old) (E.seen err.old))
        (scene (F.seen files.new) (O.seen out.new) (E.seen err.new)) result }
    ensures no_line { result ≡ Status.Done → err.new ≡ err.old }
    ensures no_reads { (F.seen files.new).taken ≡ (F.seen files.old).taken }
{
    write_made_then_text(alloc, files, out, err, name, doc, &Listed, text)
}
