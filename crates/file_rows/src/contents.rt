// Files replaced by contents, which write their bytes themselves.
ghost use Rattle.std.specs.Prelude.{⊤};

use crate::compared::same;
use remap_io::{Content, Files, HostFiles, MemFiles, PutErr};
use std::fs;
use std::io::{self, Error, ErrorKind, Write};
use std::test::Fail;

// Writes its bytes, and then perhaps fails.
#[derive(Drop)]
struct Written<'a> {
    bytes: &'a [u8],
    fault: Option<ErrorKind>,
}

impl Content for Written<'_> {
    ghost can_write = { λ _. ⊤ };

    ghost bytes = { λ c. c.bytes.now };

    fn write_to<W: Write>(&self, out: &mut W) -> io::Result<()> {
        out.write_all(self.bytes)?;
        match self.fault {
            Some(kind) => Err(Error::from(kind)),
            None => Ok(()),
        }
    }
}

#[test]
fn a_content_replaces_a_file_or_it_stays_as_it_was(rt: HostRuntime) -> Result<(), Fail> {
    let alloc = rt.alloc();
    let mut files = HostFiles::new(rt);
    fs::write(&rt, "content.tmp", b"old")?;
    for (fault, answer, left) in [
        (Some(ErrorKind::OutOfMemory), Err(PutErr::NoMemory), b"old"),
        (Some(ErrorKind::StorageFull), Err(PutErr::Failed), b"old"),
        (None, Ok(()), b"new"),
    ] {
        let bytes = b"new".as_slice();
        let content = Written { bytes, fault };
        let got = files.replace_with(alloc, "content.tmp", &content);
        same(&rt, &got, &answer);
        let held = fs::read(&rt, "content.tmp")?;
        same(&rt, &held.as_slice(), &left.as_slice());
        same(&rt, &fs::exists(&rt, "content.tmp.tempest-new")?, &false);
    }
    fs::remove_file(&rt, "content.tmp")?;
    Ok(())
}

#[test]
fn in_memory_a_content_is_one_call(rt: HostRuntime) -> Result<(), Fail> {
    let alloc = rt.alloc();
    let mut files = MemFiles::new(alloc, [1].to_vec(alloc)?);
    let bytes = b"new".as_slice();
    let content = Written { bytes, fault: None };
    let listed = files.replace_with(alloc, "a.g", &content);
    same(&rt, &listed, &Err(PutErr::Failed));
    same(&rt, &files.get("a.g"), &None);
    let second = files.replace_with(alloc, "a.g", &content);
    same(&rt, &second, &Ok(()));
    same(&rt, &files.get("a.g"), &Some(bytes));
    Ok(())
}
