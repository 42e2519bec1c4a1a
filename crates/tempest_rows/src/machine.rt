// Files of the machine.
use crate::runs::same;
use remap_io::{FileErr, Files, HostFiles};
use std::fs;
use std::fs::Permissions;
use std::os::unix::fs::PermissionsExt;
use std::test::Fail;

#[test]
fn a_file_that_may_not_be_read_is_a_fault(rt: HostRuntime) -> Result<(), Fail> {
    let mut files = HostFiles::new(rt);
    let mut part = [0u8; 3];
    same(&rt, &files.replace("hidden.tmp", b"hello"), &Ok(()));
    fs::set_permissions(&rt, "hidden.tmp", Permissions::from_mode(0))?;
    // The superuser may read any file: then this one is read.
    let want = if fs::open(&rt, "hidden.tmp").is_ok() {
        Ok(())
    } else {
        Err(FileErr::Failed)
    };
    same(&rt, &files.read_at("hidden.tmp", 0, &mut part), &want);
    fs::remove_file(&rt, "hidden.tmp")?;
    Ok(())
}
