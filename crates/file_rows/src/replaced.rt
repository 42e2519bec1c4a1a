// Files of the machine are replaced whole, or stay as they were.
use crate::compared::same;
use remap_io::{Files, HostFiles, PutErr};
use std::fs::{self, Metadata, OpenOptions, Permissions};
use std::io;
use std::os::unix::fs::PermissionsExt;
use std::process::Abort;
use std::test::Fail;

// A device without room: no file takes a byte, since each is opened for reading alone.
#[derive(Drop)]
struct Full<R: std::rt::Files>(R);

impl<R: std::rt::Files> std::rt::Files for Full<R> {
    type File = R::File;

    type Dir = R::Dir;

    fn open_file(&self, how: &OpenOptions, path: &str) -> io::Result<R::File> {
        let _opened = self.0.open_file(how, path)?;
        fs::open(&self.0, path)
    }

    fn open_dir(&self, path: &str) -> io::Result<R::Dir> {
        self.0.open_dir(path)
    }

    fn metadata(&self, path: &str) -> io::Result<Metadata> {
        self.0.metadata(path)
    }

    fn symlink_metadata(&self, path: &str) -> io::Result<Metadata> {
        self.0.symlink_metadata(path)
    }

    fn copy(&self, from: &str, to: &str) -> io::Result<u64> {
        self.0.copy(from, to)
    }

    fn rename(&self, from: &str, to: &str) -> io::Result<()> {
        self.0.rename(from, to)
    }

    fn remove_file(&self, path: &str) -> io::Result<()> {
        self.0.remove_file(path)
    }

    fn create_dir(&self, path: &str) -> io::Result<()> {
        self.0.create_dir(path)
    }

    fn remove_dir(&self, path: &str) -> io::Result<()> {
        self.0.remove_dir(path)
    }

    fn remove_dir_all<B: std::alloc::Allocator>(&self, alloc: B, path: &str) -> io::Result<()> {
        self.0.remove_dir_all(alloc, path)
    }
}

// The named file has these bytes.
fn holds<R: std::rt::Files + AllocGlobal + Abort>(
    rt: &R,
    name: &str,
    want: &[u8],
) -> Result<(), Fail> {
    let bytes = fs::read(rt, name)?;
    same(rt, &bytes.as_slice(), &want);
    Ok(())
}

#[test]
fn a_file_is_replaced_whole(rt: HostRuntime) -> Result<(), Fail> {
    let mut files = HostFiles::new(rt);
    fs::write(&rt, "whole.tmp", b"old")?;
    fs::set_permissions(&rt, "whole.tmp", Permissions::from_mode(0o640))?;
    fs::write(&rt, "whole.tmp.tempest-new", b"another's")?;
    same(&rt, &files.replace("whole.tmp", b"new bytes"), &Ok(()));
    holds(&rt, "whole.tmp", b"new bytes")?;
    holds(&rt, "whole.tmp.tempest-new", b"another's")?;
    same(&rt, &fs::exists(&rt, "whole.tmp.tempest-new1")?, &false);
    let mode = fs::metadata(&rt, "whole.tmp")?.permissions().mode();
    same(&rt, &(mode & 0o777), &0o640);
    fs::remove_file(&rt, "whole.tmp.tempest-new")?;
    fs::remove_file(&rt, "whole.tmp")?;
    Ok(())
}

#[test]
fn without_room_a_file_stays_as_it_was(rt: HostRuntime) -> Result<(), Fail> {
    let mut files = HostFiles::new(Full(rt));
    fs::write(&rt, "stays.tmp", b"old")?;
    same(
        &rt,
        &files.replace("stays.tmp", b"new"),
        &Err(PutErr::Failed),
    );
    same(
        &rt,
        &files.replace("none.tmp", b"new"),
        &Err(PutErr::Failed),
    );
    holds(&rt, "stays.tmp", b"old")?;
    for name in ["stays.tmp.tempest-new", "none.tmp", "none.tmp.tempest-new"] {
        same(&rt, &fs::exists(&rt, name)?, &false);
    }
    fs::remove_file(&rt, "stays.tmp")?;
    Ok(())
}

#[test]
fn a_link_is_written_in_place(rt: HostRuntime) -> Result<(), Fail> {
    let mut files = HostFiles::new(rt);
    fs::write(&rt, "target.tmp", b"a longer text")?;
    std::os::unix::fs::symlink(&rt, "target.tmp", "link.tmp")?;
    same(&rt, &files.replace("link.tmp", b"new"), &Ok(()));
    same(
        &rt,
        &fs::symlink_metadata(&rt, "link.tmp")?.is_symlink(),
        &true,
    );
    holds(&rt, "target.tmp", b"new")?;
    fs::remove_file(&rt, "link.tmp")?;
    fs::remove_file(&rt, "target.tmp")?;
    Ok(())
}
