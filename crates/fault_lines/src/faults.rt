// The lines of faults.
ghost use Rattle.std.specs.Prelude.{◌≡◌, ◌++◌, ℕ, List, [], codes, decimal, MatchOption};
ghost use Rattle.fault_lines.specs.Lines.{PutsText};
ghost use Rattle.exodus_mesh.specs.Names.{name_of};
ghost use Rattle.fault_lines.specs.Faults.{header_fault_text, name_fault_text, mesh_fault_text, length_text, too_many_pieces_text, run_text, status_of_run, made_text, status_of_made, load_text, status_of_load, mesh_words, status_of, text_of};
ghost use Rattle.fault_lines.specs.NameParts.{number_behind};

use crate::Status;
use crate::lines::put_line;
use exodus_mesh::{NameFault, NameId};
use itoa::Buffer;
use mesh_check::{GenFault, MeshFault};
use mesh_load::{MeshFileFault, MeshRefusal};
use nc_format::NcFault;
use overlap_run::RunFault;
use remap_io::Sink;
use remap_load::{FileRefusal, LoadFault};

/// Puts the line of a file, a text and a number.
#[tactic(auto, using(crate::proofs::Pieces::in_three))]
pub fn put_numbered<E: Sink>(err: &mut E, file: &str, text: &str, n: u64)
    ensures { PutsText (E.seen err.old) (E.seen err.new) (file.now ++ text.now ++ decimal n) }
{
    let mut digits = Buffer::new();
    put_line(err, &[file, text, digits.format(n)]);
}

// Puts the line that a face of the mesh of this file isn't convex.
fn put_not_convex<E: Sink>(err: &mut E, file: &str, face: u32)
    ensures { PutsText (E.seen err.old) (E.seen err.new)
        (file.now ++ codes ": face " ++ decimal face ++ codes " not convex") }
{
    let mut digits = Buffer::new();
    put_line(err, &[file, ": face ", digits.format(face), " not convex"]);
}

// Puts the line that the data of a variable of this file lies outside.
fn put_data_outside<E: Sink>(err: &mut E, file: &str, variable: u32)
    ensures { PutsText (E.seen err.old) (E.seen err.new)
        (file.now ++ codes ": data of variable " ++ decimal variable ++ codes " outside file") }
{
    let mut digits = Buffer::new();
    put_line(
        err,
        &[
            file,
            ": data of variable ",
            digits.format(variable),
            " outside file",
        ],
    );
}

// Puts the line of a length.
fn put_length<E: Sink>(err: &mut E, file: &str, length: u64)
    ensures { PutsText (E.seen err.old) (E.seen err.new) (length_text file.now length) }
{
    let mut digits = Buffer::new();
    put_line(err, &[file, ": ", digits.format(length), " bytes"]);
}

// Puts the line that the header of this file has this fault.
fn put_header_fault<E: Sink>(err: &mut E, file: &str, fault: NcFault)
    ensures { PutsText (E.seen err.old) (E.seen err.new) (header_fault_text file.now fault) }
{
    match fault {
        NcFault::NotNetcdf => put_line(err, &[file, ": not netCDF"]),
        NcFault::Truncated(n) => put_numbered(err, file, ": truncated at ", n),
        NcFault::BadField(n) => put_numbered(err, file, ": bad field at ", n),
        NcFault::Streaming => put_line(err, &[file, ": streaming"]),
        NcFault::DataOutside(n) => put_data_outside(err, file, n),
        NcFault::NoMemory => put_line(err, &["no memory"]),
    }
}

// The name that stands for this, up to the number behind it. `--var` gave the name `var`.
#[tactic(auto, unfolding(exodus_mesh::specs::Names::name_of))]
fn front_of(id: NameId, var: &str) -> &str
    ensures { result.now ++ number_behind id ≡ name_of var.now id }
{
    match id {
        NameId::Coord => "coord",
        NameId::CoordX => "coordx",
        NameId::CoordY => "coordy",
        NameId::CoordZ => "coordz",
        NameId::NumElBlk => "num_el_blk",
        NameId::Connect(_) => "connect",
        NameId::FacesA => "faces_a",
        NameId::FacesB => "faces_b",
        NameId::Pieces => "pieces",
        NameId::Source => "source",
        NameId::Target => "target",
        NameId::RingSize => "ring_size",
        NameId::RingPlane => "ring_plane",
        NameId::Corner => "corner",
        NameId::Col => "col",
        NameId::Row => "row",
        NameId::S => "S",
        NameId::AreaA => "area_a",
        NameId::AreaB => "area_b",
        NameId::Var => var,
    }
}

// The number of the block whose variable has the name that stands for this, if it is one of a block.
#[tactic(auto, unfolding(exodus_mesh::specs::Names::name_of))]
fn block_of(id: NameId) -> Option<u32>
    ensures { MatchOption result (number_behind id ≡ [])
        (λ n. (var : List ℕ) → name_of var id ≡ codes "connect" ++ decimal n) }
{
    match id {
        NameId::Connect(n) => Some(n),
        _ => None,
    }
}

// Puts the line of a file, a text and the name of a block's variable.
fn put_block_name<E: Sink>(err: &mut E, file: &str, text: &str, block: u32)
    ensures { PutsText (E.seen err.old) (E.seen err.new)
        (file.now ++ text.now ++ (codes "connect" ++ decimal block)) }
{
    let mut digits = Buffer::new();
    put_line(err, &[file, text, "connect", digits.format(block)]);
}

// Puts the line of a file, a text and a name.
fn put_name<E: Sink>(err: &mut E, file: &str, text: &str, var: &str, id: NameId)
    ensures { PutsText (E.seen err.old) (E.seen err.new)
        (file.now ++ text.now ++ name_of var.now id) }
{
    let front = front_of(id, var);
    match block_of(id) {
        Some(block) => put_block_name(err, file, text, block),
        None => put_line(err, &[file, text, front]),
    }
}

/// Puts the line that a needed name of this file is at fault. `--var` gave the name `var`.
pub fn put_name_fault<E: Sink>(err: &mut E, file: &str, var: &str, fault: NameFault)
    ensures { PutsText (E.seen err.old) (E.seen err.new) (name_fault_text file.now var.now fault) }
{
    match fault {
        NameFault::Missing(id) => put_name(err, file, ": missing ", var, id),
        NameFault::Shape(id) => put_name(err, file, ": shape of ", var, id),
        NameFault::Kind(id) => put_name(err, file, ": kind of ", var, id),
        NameFault::NoMemory => put_line(err, &["no memory"]),
    }
}

// Puts the line that the mesh of this file has this fault. It takes no memory.
fn put_mesh_fault<E: Sink>(err: &mut E, file: &str, fault: MeshFault)
    ensures { PutsText (E.seen err.old) (E.seen err.new) (mesh_fault_text file.now fault) }
{
    match fault {
        MeshFault::TooManyNodes(n) => put_numbered(err, file, ": too many nodes ", u64::from(n)),
        MeshFault::TooManyFaces(n) => put_numbered(err, file, ": too many faces ", u64::from(n)),
        MeshFault::CoordRange(n) => {
            put_numbered(err, file, ": coordinate range at node ", u64::from(n))
        }
        MeshFault::ZeroNode(n) => put_numbered(err, file, ": zero node ", u64::from(n)),
        MeshFault::NodeNumber(n) => {
            put_numbered(err, file, ": node number in face ", u64::from(n))
        }
        MeshFault::FaceSize(n) => put_numbered(err, file, ": size of face ", u64::from(n)),
        MeshFault::NotConvex(n) => put_not_convex(err, file, n),
        MeshFault::NoMemory => put_line(err, &["no memory"]),
    }
}

/// Refuses what a generator answered in place of a mesh.
pub fn refuse_made<E: Sink>(err: &mut E, fault: GenFault) -> Status
    ensures status { result ≡ status_of_made fault }
    ensures line { PutsText (E.seen err.old) (E.seen err.new) (made_text fault) }
{
    match fault {
        GenFault::Mesh(fault) => {
            put_mesh_fault(err, "generated", fault);
            Status::Mesh
        }
        GenFault::NoMemory => refuse_memory(err),
    }
}

/// Refuses a file that wasn't loaded.
pub fn refuse_load<E: Sink>(err: &mut E, file: &str, fault: LoadFault) -> Status
    ensures status { result ≡ status_of_load fault }
    ensures line { PutsText (E.seen err.old) (E.seen err.new) (load_text file.now fault) }
{
    match fault {
        LoadFault::Absent => {
            put_line(err, &["no file ", file]);
            Status::NoFile
        }
        LoadFault::Failed => {
            put_line(err, &["read fault on ", file]);
            Status::ReadFault
        }
        LoadFault::TooLong(n) => refuse_length(err, file, n),
        LoadFault::Format(fault) => {
            put_header_fault(err, file, fault);
            Status::Format
        }
        LoadFault::NoMemory => refuse_memory(err),
    }
}

/// Refuses a mesh file.
pub fn refuse_mesh_file<E: Sink>(err: &mut E, file: &str, why: MeshRefusal) -> Status
    ensures status { result ≡ status_of mesh_words why }
    ensures line { PutsText (E.seen err.old) (E.seen err.new) (text_of mesh_words file.now why) }
{
    match why {
        FileRefusal::Load(fault) => refuse_load(err, file, fault),
        FileRefusal::Content(MeshFileFault::Names(fault)) => {
            put_name_fault(err, file, "", fault);
            Status::Names
        }
        FileRefusal::Content(MeshFileFault::Mesh(fault)) => {
            put_mesh_fault(err, file, fault);
            Status::Mesh
        }
    }
}

/// Refuses a file that has, or would have, too many bytes: this many.
pub fn refuse_length<E: Sink>(err: &mut E, file: &str, length: u64) -> Status
    ensures status { result ≡ Status.Limit }
    ensures line { PutsText (E.seen err.old) (E.seen err.new) (length_text file.now length) }
{
    put_length(err, file, length);
    Status::Limit
}

// Puts the line that too many pairs of faces meet.
fn put_too_many<E: Sink>(err: &mut E, pairs: u64)
    ensures { PutsText (E.seen err.old) (E.seen err.new) (too_many_pieces_text pairs) }
{
    let mut digits = Buffer::new();
    put_line(err, &["too many pieces ", digits.format(pairs)]);
}

/// Refuses what was answered in place of an overlap.
pub fn refuse_run<E: Sink>(err: &mut E, fault: RunFault) -> Status
    ensures status { result ≡ status_of_run fault }
    ensures line { PutsText (E.seen err.old) (E.seen err.new) (run_text fault) }
{
    match fault {
        RunFault::TooManyPieces(pairs) => {
            put_too_many(err, pairs);
            Status::Limit
        }
        RunFault::NoMemory => refuse_memory(err),
    }
}

/// Puts the line that memory ran out.
pub fn refuse_memory<E: Sink>(err: &mut E) -> Status
    ensures status { result ≡ Status.NoMemory }
    ensures line { PutsText (E.seen err.old) (E.seen err.new) (codes "no memory") }
{
    put_line(err, &["no memory"]);
    Status::NoMemory
}

/// Puts the line that the words are out of the grammar.
pub fn refuse_usage<E: Sink>(err: &mut E) -> Status
    ensures status { result ≡ Status.Usage }
    ensures line { PutsText (E.seen err.old) (E.seen err.new) (codes "usage") }
{
    put_line(err, &["usage"]);
    Status::Usage
}
