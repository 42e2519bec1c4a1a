// Files by name.
ghost use Rattle.std.specs.Prelude.{◌≡◌, ◌≤◌, ◌+◌, length, slice_range, IfSome, IfOk, IfErr, OnOk, OnErr, option_map};
ghost use Rattle.remap_io.specs.Causes.{held_sum};
ghost use Rattle.remap_io.specs.Folder.{file_at, with_file, OnFile, IsPartlyReplaced};
ghost use Rattle.remap_io.specs.Outside.{FilesSeen, OnlyReads, NoCountFalls, IsReadRefusal, IsWriteRefusal};

use crate::content::Content;
use std::alloc::Global;

/// Why the length or the bytes of a file weren't had.
#[derive(Clone, Copy, Debug, PartialEq, Eq)]
pub enum FileErr {
    /// There is no file of the name.
    Absent,
    /// Reading failed.
    Failed,
    /// Memory ran out.
    NoMemory,
}

/// Why bytes weren't put.
#[derive(Clone, Copy, Debug, PartialEq, Eq)]
pub enum PutErr {
    /// Writing failed.
    Failed,
    /// Memory ran out.
    NoMemory,
}

/// Files by name, with counts of what failed. No count ever falls, and one that stands at
/// 2^64 - 1 stays there. A refusal is counted in the call that answers it.
pub trait Files {
    /// The folder, from names to bytes, where it is told: whether it is told never changes. And how
    /// many reads and how many replacements failed, how many names weren't found, and how many
    /// bytes `read_at` was asked for, each held at 2^64 - 1.
    ghost seen: { Self → FilesSeen };

    /// The length of the named file in bytes. No file changes.
    fn size(&mut self, name: &str) -> Result<u64, FileErr>
        ensures answer { IfOk result (λ n.
            OnFile (seen self.old).folder name.now (λ bytes. n ≡ length bytes)) }
        ensures refusal { IfErr result (IsReadRefusal (seen self.old) (seen self.new) name.now) }
        ensures reads { OnlyReads (seen self.old) (seen self.new) }
        ensures same_taken { (seen self.new).taken ≡ (seen self.old).taken };

    /// Fills all of `buf` with the bytes of the named file from offset `at` on, which counts
    /// from 0. After a refusal it is open what `buf` holds. No file changes.
    fn read_at(&mut self, name: &str, at: u64, buf: &mut [u8]) -> Result<(), FileErr>
        requires in_file { IfSome (seen self.old).folder (λ m.
            IfSome (file_at m name.now) (λ bytes. at + length buf.old ≤ length bytes)) }
        ensures filled { OnOk result (OnFile (seen self.old).folder name.now (λ bytes.
            buf.new ≡ slice_range bytes at (at + length buf.old))) }
        ensures refusal { IfErr result (IsReadRefusal (seen self.old) (seen self.new) name.now) }
        ensures reads { OnlyReads (seen self.old) (seen self.new) }
        ensures taken { (seen self.new).taken ≡
            held_sum (seen self.old).taken (length buf.old) };

    /// Makes the named file hold exactly `bytes`, whether or not there was one. After a refusal
    /// the name is as it was, or holds a prefix of `bytes`. Every other name stays as it was.
    fn replace(&mut self, name: &str, bytes: &[u8]) -> Result<(), PutErr>
        ensures ok { OnOk result ((seen self.new).folder ≡
            option_map (λ m. with_file m name.now bytes.now) (seen self.old).folder) }
        ensures err { OnErr result (IsPartlyReplaced
            (seen self.old).folder name.now bytes.now (seen self.new).folder) }
        ensures refusal { IfErr result (IsWriteRefusal (seen self.old) (seen self.new)) }
        ensures counts { NoCountFalls (seen self.old) (seen self.new) }
        ensures same_taken { (seen self.new).taken ≡ (seen self.old).taken };

    /// The same with the bytes of a content, which need not stand in memory whole: files that can
    /// take them part by part override it. As it is given here it is one call of `replace`.
    fn replace_with<C: Content>(
        &mut self,
        alloc: Global,
        name: &str,
        content: &C,
    ) -> Result<(), PutErr>
        requires { C.can_write content.now }
        ensures ok { OnOk result ((seen self.new).folder ≡
            option_map (λ m. with_file m name.now (C.bytes content.now)) (seen self.old).folder) }
        ensures err { OnErr result (IsPartlyReplaced
            (seen self.old).folder name.now (C.bytes content.now) (seen self.new).folder) }
        ensures refusal { IfErr result (IsWriteRefusal (seen self.old) (seen self.new)) }
        ensures counts { NoCountFalls (seen self.old) (seen self.new) }
        ensures same_taken { (seen self.new).taken ≡ (seen self.old).taken }
    {
        let mut bytes = Vec::new(alloc);
        match content.write_to(&mut bytes) {
            Ok(()) => self.replace(name, &bytes),
            Err(_) => Err(PutErr::NoMemory),
        }
    }
}
