// The input files of commands.
ghost use Rattle.std.specs.Prelude.{◌≡◌, ◌≤◌, ◌+◌, IfOk, IfErr, IfSome, OnOk};
ghost use Rattle.remap_io.specs.Folder.{OnFile};
ghost use Rattle.remap_io.specs.Outside.{OnlyReads};
ghost use Rattle.remap_load.specs.Kinds.{HasContent, IsFileRefusal, file_cost};
ghost use Rattle.fault_lines.specs.Lines.{PutsText};
ghost use Rattle.fault_lines.specs.Faults.{mesh_words, status_of, text_of};

use command_line::Text;
use fault_lines::{Status, refuse_mesh_file};
use mesh_check::Mesh;
use mesh_load::{MeshRefusal, load_mesh};
use remap_io::{Files, Sink};
use std::alloc::Global;

/// The mesh of an input file.
pub fn mesh_of<F: Files>(alloc: Global, files: &mut F, file: &Text) -> Result<Mesh, MeshRefusal>
    ensures mesh { IfOk result (λ mesh. OnFile (F.seen files.old).folder file.now
        (λ bytes. HasContent mesh_words.kind bytes mesh)) }
    ensures refusal { IfErr result
        (IsFileRefusal mesh_words.kind (F.seen files.old) (F.seen files.new) file.now) }
    ensures reads { OnlyReads (F.seen files.old) (F.seen files.new) }
    ensures asked { OnOk result (IfSome (F.seen files.old).folder (λ m. (F.seen files.new).taken
        ≤ (F.seen files.old).taken + file_cost mesh_words.kind m file.now)) }
{
    load_mesh(alloc, files, file.text.as_str())
}

/// Refuses an input file that holds no mesh.
pub fn refuse_mesh<E: Sink>(err: &mut E, file: &Text, why: MeshRefusal) -> Status
    ensures status { result ≡ status_of mesh_words why }
    ensures line { PutsText (E.seen err.old) (E.seen err.new) (text_of mesh_words file.now why) }
{
    refuse_mesh_file(err, file.text.as_str(), why)
}
