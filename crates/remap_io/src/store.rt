// Files in a list, where the first of a name counts.
ghost use Rattle.std.specs.Prelude.{◌≡◌, OnOk, OnErr, option_copied};
ghost use Rattle.remap_io.specs.Folder.{file_at, with_file};
ghost use Rattle.remap_io.specs.Store.{folder_of};

use std::alloc::{AllocError, Global};

/// A file in memory.
#[derive(Drop)]
pub struct MemFile {
    name: String,
    bytes: Vec<u8>,
}

/// The bytes of the name.
pub fn bytes_of<'a>(files: &'a [MemFile], name: &str) -> Option<&'a [u8]>
    ensures { option_copied result ≡ file_at (folder_of files.now) name.now }
{
    for file in files {
        if file.name.as_str() == name {
            return Some(&file.bytes);
        }
    }
    None
}

/// The name holds a copy of these bytes from now on.
pub fn put(
    alloc: Global,
    files: &mut Vec<MemFile>,
    name: &str,
    bytes: &[u8],
) -> Result<(), AllocError>
    ensures ok { OnOk result (folder_of files.new.items ≡
        with_file (folder_of files.old.items) name.now bytes.now) }
    ensures err { OnErr result (folder_of files.new.items ≡ folder_of files.old.items) }
{
    let copy = Vec::from_slice(alloc, bytes)?;
    hold(alloc, files, name, copy)
}

// The name holds these bytes from now on.
fn hold(
    alloc: Global,
    files: &mut Vec<MemFile>,
    name: &str,
    bytes: Vec<u8>,
) -> Result<(), AllocError>
    ensures ok { OnOk result (folder_of files.new.items ≡
        with_file (folder_of files.old.items) name.now bytes.items) }
    ensures err { OnErr result (folder_of files.new.items ≡ folder_of files.old.items) }
{
    for i in 0..files.len() {
        if files[i].name.as_str() == name {
            files[i].bytes = bytes;
            return Ok(());
        }
    }
    let name = String::from_str(alloc, name)?;
    files.push(MemFile { name, bytes })?;
    Ok(())
}
