// The lines of faults of files of rows, and of overlaps that are none of two meshes.
ghost use Rattle.std.specs.Prelude.{◌≡◌, ◌++◌, decimal};
ghost use Rattle.fault_lines.specs.Lines.{PutsText};
ghost use Rattle.fault_lines.specs.RowFaults.{file_fault_text, status_of_file_fault, counts_text, uncovered_text, map_fault_text, status_of_map_fault};

use crate::Status;
use crate::faults::{put_name_fault, put_numbered, refuse_memory};
use crate::lines::put_line;
use exodus_mesh::FileFault;
use itoa::Buffer;
use offline_map::MapFault;
use remap_io::Sink;

// Refuses a file in which something that is named by its number is at fault.
fn refuse_numbered<E: Sink>(err: &mut E, file: &str, text: &str, n: u32) -> Status
    ensures status { result ≡ Status.Rows }
    ensures line { PutsText (E.seen err.old) (E.seen err.new)
        (file.now ++ text.now ++ decimal n) }
{
    put_numbered(err, file, text, u64::from(n));
    Status::Rows
}

/// Refuses a file of rows that has this fault.
pub fn refuse_file_fault<E: Sink>(err: &mut E, file: &str, fault: FileFault) -> Status
    ensures status { result ≡ status_of_file_fault fault }
    ensures line { PutsText (E.seen err.old) (E.seen err.new) (file_fault_text file.now fault) }
{
    match fault {
        FileFault::Name(fault) => {
            put_name_fault(err, file, "", fault);
            Status::Names
        }
        FileFault::Row(n) => refuse_numbered(err, file, ": row ", n),
        FileFault::AreaA(n) => refuse_numbered(err, file, ": area_a ", n),
        FileFault::AreaB(n) => refuse_numbered(err, file, ": area_b ", n),
        FileFault::NoMemory => {
            put_line(err, &["no memory"]);
            Status::Rows
        }
    }
}

// Refuses a file in which a count of faces is not that of the mesh.
fn refuse_counts<E: Sink>(err: &mut E, file: &str, name: &str, in_file: u32, of_mesh: u32) -> Status
    ensures status { result ≡ Status.Rows }
    ensures line { PutsText (E.seen err.old) (E.seen err.new)
        (counts_text file.now name.now in_file of_mesh) }
{
    let mut listed = Buffer::new();
    let mut counted = Buffer::new();
    put_line(
        err,
        &[
            file,
            name,
            listed.format(in_file),
            " mesh ",
            counted.format(of_mesh),
        ],
    );
    Status::Rows
}

/// Refuses a target face without a row.
pub fn refuse_uncovered<E: Sink>(err: &mut E, target: u32) -> Status
    ensures status { result ≡ Status.Uncovered }
    ensures line { PutsText (E.seen err.old) (E.seen err.new) (uncovered_text target) }
{
    let mut digits = Buffer::new();
    put_line(err, &["target ", digits.format(target), " uncovered"]);
    Status::Uncovered
}

/// Refuses the overlap of a file that is none of the two meshes.
pub fn refuse_map<E: Sink>(err: &mut E, file: &str, fault: MapFault) -> Status
    ensures status { result ≡ status_of_map_fault fault }
    ensures line { PutsText (E.seen err.old) (E.seen err.new) (map_fault_text file.now fault) }
{
    match fault {
        MapFault::CountsA {
            file: in_file,
            mesh,
        } => refuse_counts(err, file, ": faces_a ", in_file, mesh),
        MapFault::CountsB {
            file: in_file,
            mesh,
        } => refuse_counts(err, file, ": faces_b ", in_file, mesh),
        MapFault::Row(n) => refuse_numbered(err, file, ": row ", n),
        MapFault::Uncovered(n) => refuse_uncovered(err, n),
        MapFault::NoMemory => refuse_memory(err),
    }
}
