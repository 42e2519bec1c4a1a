// The header of a file, from as few of its first bytes as have it.
ghost use Rattle.std.specs.Prelude.{◌≡◌, ◌≤◌, ◌<◌, ◌+◌, ℕ, List, length, min, IfSome, IfOk, IfErr, Ok, None, Some};
ghost use Rattle.vec_exact.specs.declared.limits.TheConstants.{MAX_FILE_LEN};
ghost use Rattle.remap_io.specs.Folder.{OnFile, Holds, Lacks};
ghost use Rattle.remap_io.specs.Outside.{OnlyReads};
ghost use Rattle.nc_format.specs.declared.fault.NcFault.{NcFault};
ghost use Rattle.nc_format.specs.declared.NcFile.{NcFile};
ghost use Rattle.nc_format.specs.Header.{IsHeader, first_fault};
ghost use Rattle.remap_load.specs.Heads.{IsHead, IsHeadOfBytes, header_cost, IsFront, IsCut, IsGrown};
ghost use Rattle.remap_load.specs.Loading.{IsLoadFault, IsOfFront, Refuses, Finds};

use crate::reads::{length_of, read_behind};
use crate::{Head, LoadFault};
use nc_format::{Bytes, NcFault, NcFile, read_header};
use remap_io::Files;
use std::alloc::Global;

// How many bytes are read first.
const FIRST: u64 = 65_536;

// The header of a file of `len` bytes, where its first bytes `front` have it; None where more of
// them are wanted.
fn header_in(alloc: Global, front: &[u8], len: u64) -> Result<Option<NcFile>, LoadFault>
    requires within { length front.now ≤ len }
    requires short { len ≤ MAX_FILE_LEN }
    ensures header { IfOk result (λ found. IfSome found (λ file. IsHeader front.now len file)) }
    ensures cut { result ≡ Ok None → IsCut front.now len }
    ensures fault { IfErr result (IsOfFront front.now len) }
{
    match read_header(alloc, front, len) {
        Ok(file) => Ok(Some(file)),
        Err(NcFault::NoMemory) => Err(LoadFault::NoMemory),
        Err(NcFault::Truncated(at)) => {
            if (front.len() as u64) < len {
                return Ok(None);
            }
            Err(LoadFault::Format(NcFault::Truncated(at)))
        }
        Err(fault) => Err(LoadFault::Format(fault)),
    }
}

// The head of a file of `len` bytes, of which `front` are the first ones. They grow to twice as
// many as long as they end inside the header.
fn load_from<F: Files>(
    alloc: Global,
    files: &mut F,
    name: &str,
    len: u64,
    front: Vec<u8>,
) -> Result<Head, LoadFault>
    requires short { len ≤ MAX_FILE_LEN }
    requires first { length front.items ≡ min len 65536 }
    requires front { OnFile (F.seen files.old).folder name.now (IsFront front.items len) }
    ensures head { IfOk result IsHead }
    ensures of_file { IfOk result (λ head.
        OnFile (F.seen files.old).folder name.now (IsHeadOfBytes head)) }
    ensures grown { IfOk result (λ head. IsGrown head.prefix head.len) }
    ensures fault { IfErr result (IsLoadFault (F.seen files.old) (F.seen files.new) name.now) }
    ensures reads { OnlyReads (F.seen files.old) (F.seen files.new) }
    ensures asked { IfOk result (λ head. (F.seen files.new).taken + length front.items
        ≤ (F.seen files.old).taken + length head.prefix) }
{
    let mut front = front;
    'growing: loop {
        if let Some(file) = header_in(alloc, &front, len)? {
            let prefix = Bytes { items: front };
            return Ok(Head { file, len, prefix });
        }
        let have = front.len();
        let more = have.min(len as usize - have);
        read_behind(files, name, have as u64, more, &mut front)?;
    }
}

// The head of a file, by what is proved on the way.
fn load_head<F: Files>(alloc: Global, files: &mut F, name: &str) -> Result<Head, LoadFault>
    ensures head { IfOk result IsHead }
    ensures of_file { IfOk result (λ head.
        OnFile (F.seen files.old).folder name.now (IsHeadOfBytes head)) }
    ensures grown { IfOk result (λ head. IsGrown head.prefix head.len) }
    ensures fault { IfErr result (IsLoadFault (F.seen files.old) (F.seen files.new) name.now) }
    ensures reads { OnlyReads (F.seen files.old) (F.seen files.new) }
    ensures asked { IfOk result (λ head.
        (F.seen files.new).taken ≤ (F.seen files.old).taken + length head.prefix) }
{
    let len = length_of(files, name)?;
    let mut front = Vec::new(alloc);
    read_behind(files, name, 0, len.min(FIRST) as usize, &mut front)?;
    load_from(alloc, files, name, len, front)
}

/// The head of the named file: its header, its length, and the first bytes, which were read for it.
///
/// The first 65,536 bytes are read, or all where there are fewer. As long as they end inside the
/// header, twice as many are taken, or all; only the new ones are read. `Absent` says that there is
/// no such file, `TooLong(n)` that it has n bytes, more than 2,147,483,647, and `Format(x)` that x
/// is the first fault of its header. `Failed` and `NoMemory` may come in place of any answer.
pub fn load_header<F: Files>(alloc: Global, files: &mut F, name: &str) -> Result<Head, LoadFault>
    // What is answered is a head, and that of the file, where the folder is told.
    ensures head { IfOk result IsHead }
    ensures of_file { IfOk result (λ head.
        OnFile (F.seen files.old).folder name.now (IsHeadOfBytes head)) }

    // A miss or a failed read is counted; any other fault stands in the file, where the folder is
    // told.
    ensures fault { IfErr result (IsLoadFault (F.seen files.old) (F.seen files.new) name.now) }

    // What stands in a told folder is answered, unless a read fails or memory runs out.
    ensures lacking { Lacks (F.seen files.old).folder name.now
        → Refuses LoadFault.Absent result }
    ensures long { (bytes : List ℕ) → Holds (F.seen files.old).folder name.now bytes
        → MAX_FILE_LEN < length bytes → Refuses (LoadFault.TooLong (length bytes)) result }
    ensures faulty { (bytes : List ℕ) (e : NcFault)
        → Holds (F.seen files.old).folder name.now bytes → length bytes ≤ MAX_FILE_LEN
        → first_fault bytes (length bytes) ≡ Some e → Refuses (LoadFault.Format e) result }
    ensures found { (bytes : List ℕ) (f : NcFile)
        → Holds (F.seen files.old).folder name.now bytes → length bytes ≤ MAX_FILE_LEN
        → IsHeader bytes (length bytes) f → Finds f result }

    // No file changes, and no count falls. What was asked for is at most 65,536 bytes, or twice the
    // header.
    ensures reads { OnlyReads (F.seen files.old) (F.seen files.new) }
    ensures asked { IfOk result (λ head. (h : IsHeader head.prefix head.len head.file)
        → (F.seen files.new).taken ≤ (F.seen files.old).taken + header_cost (length h.header)) }
    ensures asked_of_file { IfOk result (λ head. OnFile (F.seen files.old).folder name.now
        (λ bytes. (h : IsHeader bytes (length bytes) head.file) → (F.seen files.new).taken
        ≤ (F.seen files.old).taken + header_cost (length h.header))) }
{
    load_head(alloc, files, name)
}
