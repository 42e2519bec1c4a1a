// Files of the machine are replaced whole: the new bytes stand beside the old ones until all of
// them are on the device, and then take their name in one step.
use crate::content::Content;
use arrayvec::ArrayString;
use std::alloc::Global;
use std::fmt::Write as _;
use std::fs::{File, OpenFile, Permissions};
use std::io::{self, BufWriter, Error, ErrorKind, Write};
use std::rt::Files;

// The longest path of a new file, in bytes. The machine takes no path of 4,096 bytes.
const PATH_LEN: usize = 4096;

// How many names are tried for a new file. A run that was killed leaves one taken.
const NAMES: u32 = 100;

// The bytes of a buffer. What is as long or longer is written as it is.
const BUFFER: usize = 65_536;

// Makes the named file hold exactly the bytes of a content. A regular file, or a name that is free,
// gets them whole or stays as it was: they go to a new file beside it, which takes the name when all
// of them are on the device. Anything else, as a device, a pipe or a symbolic link, is written in
// place. No clause says it: the machine's calls have none on what stands on the device.
pub(crate) fn replace_file<R: Files, C: Content>(
    files: &R,
    buffer: Option<Global>,
    name: &str,
    content: &C,
) -> io::Result<()>
    requires { C.can_write content.now }
{
    match files.symlink_metadata(name) {
        Ok(found) if found.is_file() => {
            ask_to_write(files, name)?;
            replace_whole(files, buffer, name, Some(found.permissions()), content)
        }
        Ok(_) => {
            let mut file = File::create(files, name)?;
            write_content(&mut file, buffer, content)
        }
        Err(error) if error.kind() == ErrorKind::NotFound => {
            replace_whole(files, buffer, name, None, content)
        }
        Err(error) => Err(error),
    }
}

// A file that may not be written isn't replaced either, though its folder would allow it.
fn ask_to_write<R: Files>(files: &R, name: &str) -> io::Result<()> {
    let _file = File::options().write(true).open(files, name)?;
    Ok(())
}

// Where anything fails, the new file is removed, and the name is as it was.
fn replace_whole<R: Files, C: Content>(
    files: &R,
    buffer: Option<Global>,
    name: &str,
    permissions: Option<Permissions>,
    content: &C,
) -> io::Result<()>
    requires { C.can_write content.now }
{
    let (file, new_name) = new_file_beside(files, name)?;
    let filled = fill(file, buffer, permissions, content);
    let done = filled.and_then(|()| files.rename(new_name.as_str(), name));
    if done.is_err() {
        let _removed = files.remove_file(new_name.as_str());
    }
    done
}

// The new file has the permissions of the file that it replaces before it has any bytes.
fn fill<F: Write + OpenFile + Drop, C: Content>(
    mut file: F,
    buffer: Option<Global>,
    permissions: Option<Permissions>,
    content: &C,
) -> io::Result<()>
    requires { C.can_write content.now }
{
    if let Some(permissions) = permissions {
        file.set_permissions(permissions)?;
    }
    write_content(&mut file, buffer, content)?;
    file.sync_all()
}

// Writes a content, through a buffer where there is an allocator for one, so that short parts are
// gathered.
fn write_content<F: Write, C: Content>(
    file: &mut F,
    buffer: Option<Global>,
    content: &C,
) -> io::Result<()>
    requires { C.can_write content.now }
{
    let Some(alloc) = buffer else {
        return content.write_to(file);
    };
    let mut buffered = BufWriter::with_capacity(alloc, BUFFER, file)?;
    content.write_to(&mut buffered)?;
    buffered.flush()
}

// A file that wasn't there, beside the named one.
fn new_file_beside<R: Files>(
    files: &R,
    name: &str,
) -> io::Result<(R::File, ArrayString<PATH_LEN>)> {
    for number in 0..NAMES {
        let new_name = name_beside(name, number)?;
        match File::create_new(files, new_name.as_str()) {
            Ok(file) => return Ok((file, new_name)),
            Err(error) if error.kind() == ErrorKind::AlreadyExists => {}
            Err(error) => return Err(error),
        }
    }
    Err(Error::from(ErrorKind::AlreadyExists))
}

// `NAME.tempest-new`, and then `NAME.tempest-new1`, and so on.
fn name_beside(name: &str, number: u32) -> io::Result<ArrayString<PATH_LEN>> {
    let mut path = ArrayString::new();
    let put = if number == 0 {
        write!(path, "{name}.tempest-new")
    } else {
        write!(path, "{name}.tempest-new{number}")
    };
    match put {
        Ok(()) => Ok(path),
        Err(_) => Err(Error::from(ErrorKind::InvalidFilename)),
    }
}
