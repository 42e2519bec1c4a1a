// Calls of `Files` that read.
ghost use Rattle.std.specs.Prelude.{◌≡◌, ◌≤◌, ◌+◌, ◌++◌, length, take, slice_range, IfOk, IfErr, OnOk};
ghost use Rattle.vec_exact.specs.declared.limits.TheConstants.{MAX_FILE_LEN};
ghost use Rattle.remap_io.specs.Folder.{OnFile};
ghost use Rattle.remap_load.specs.Loading.{IsLoadFault, IsReadFault, ReadsAtMost};

use crate::LoadFault;
use remap_io::{FileErr, Files};
use vec_exact::MAX_FILE_LEN;

/// The length of a file that isn't too long.
pub fn length_of<F: Files>(files: &mut F, name: &str) -> Result<u64, LoadFault>
    ensures short { IfOk result (λ len. len ≤ MAX_FILE_LEN) }
    ensures len { IfOk result (λ len.
        OnFile (F.seen files.old).folder name.now (λ bytes. len ≡ length bytes)) }
    ensures fault { IfErr result (IsLoadFault (F.seen files.old) (F.seen files.new) name.now) }
    ensures reads { ReadsAtMost (F.seen files.old) (F.seen files.new) 0 }
{
    match files.size(name) {
        Ok(len) => {
            if len > MAX_FILE_LEN {
                return Err(LoadFault::TooLong(len));
            }
            Ok(len)
        }
        Err(FileErr::Absent) => Err(LoadFault::Absent),
        Err(FileErr::Failed) => Err(LoadFault::Failed),
        Err(FileErr::NoMemory) => Err(LoadFault::NoMemory),
    }
}

/// Fills `buf` with the bytes of a file from `at` on.
pub fn read<F: Files>(files: &mut F, name: &str, at: u64, buf: &mut [u8]) -> Result<(), LoadFault>
    requires in_file { OnFile (F.seen files.old).folder name.now
        (λ bytes. at + length buf.old ≤ length bytes) }
    ensures filled { OnOk result (OnFile (F.seen files.old).folder name.now
        (λ bytes. buf.new ≡ slice_range bytes at (at + length buf.old))) }
    ensures fault { IfErr result (IsReadFault (F.seen files.old) (F.seen files.new)) }
    ensures reads { ReadsAtMost (F.seen files.old) (F.seen files.new) (length buf.old) }
{
    match files.read_at(name, at, buf) {
        Ok(()) => Ok(()),
        Err(FileErr::Absent) => Err(LoadFault::Absent),
        Err(FileErr::Failed) => Err(LoadFault::Failed),
        Err(FileErr::NoMemory) => Err(LoadFault::NoMemory),
    }
}

/// Puts so many bytes of a file, from `at` on, behind those of `bytes`.
pub fn read_behind<F: Files>(
    files: &mut F,
    name: &str,
    at: u64,
    more: usize,
    bytes: &mut Vec<u8>,
) -> Result<(), LoadFault>
    requires in_file { OnFile (F.seen files.old).folder name.now
        (λ all. at + more ≤ length all) }
    ensures read { OnOk result (OnFile (F.seen files.old).folder name.now
        (λ all. bytes.new.items ≡ bytes.old.items ++ slice_range all at (at + more))) }
    ensures kept { OnOk result
        (take (length bytes.old.items) bytes.new.items ≡ bytes.old.items) }
    ensures len { OnOk result (length bytes.new.items ≡ length bytes.old.items + more) }
    ensures fault { IfErr result (IsReadFault (F.seen files.old) (F.seen files.new)) }
    ensures reads { ReadsAtMost (F.seen files.old) (F.seen files.new) more }
{
    let from = bytes.len();
    if usize::MAX - from < more {
        return Err(LoadFault::NoMemory);
    }
    if bytes.resize(from + more, 0).is_err() {
        return Err(LoadFault::NoMemory);
    }
    read(files, name, at, &mut bytes[from..])
}
