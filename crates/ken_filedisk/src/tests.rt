// Real files, in the folder that the tests run in. Each test takes its own away.
use crate::HostFiles;
use ken_disk::{Disk, DiskFault};
use ken_files::{Files, OpenFault};
use std::fs;
use std::test::Fail;

#[test]
fn a_file_holds_what_was_written(rt: HostRuntime) -> Result<(), Fail> {
    let mut files = HostFiles::new(&rt);
    let mut file = files.found("written.file", true)?;
    file.write(0, b"0123")?;
    file.write(2, b"abcd")?;
    file.sync()?;
    files.put_back("written.file", file);

    let mut file = files.found("written.file", false)?;
    let mut bytes = [0; 3];
    assert_eq!(rt; file.len(), 6);
    file.read(1, &mut bytes)?;
    assert_eq!(rt; bytes, *b"1ab");
    fs::remove_file(&rt, "written.file")?;
    Ok(())
}

#[test]
fn a_failed_write_breaks_a_disk(rt: HostRuntime) -> Result<(), Fail> {
    fs::write(&rt, "kept.file", b"kept".as_slice())?;
    let mut file = HostFiles::new(&rt).found("kept.file", false)?;
    assert_eq!(rt; file.write(0, b"lost"), Err(DiskFault::Failed));
    assert_eq!(rt; file.sync(), Err(DiskFault::Failed));
    file.restart(1)?;
    assert_eq!(rt; file.sync(), Err(DiskFault::Failed));
    assert_eq!(rt; fs::read_to_string(&rt, "kept.file")?.as_str(), "kept");
    fs::remove_file(&rt, "kept.file")?;
    Ok(())
}

#[test]
fn a_fresh_file_is_empty(rt: HostRuntime) -> Result<(), Fail> {
    fs::write(&rt, "old.file", b"old".as_slice())?;
    let file = HostFiles::new(&rt).found("old.file", true)?;
    assert_eq!(rt; file.len(), 0);
    assert_eq!(rt; fs::read_to_string(&rt, "old.file")?.as_str(), "");
    fs::remove_file(&rt, "old.file")?;
    Ok(())
}

#[test]
fn what_is_no_file_fails(rt: HostRuntime) -> Result<(), Fail> {
    let mut files = HostFiles::new(&rt);
    let no_files = [
        ("missing.file", false),
        ("missing.folder/file", true),
        (".", false),
        (".", true),
    ];
    for (path, fresh) in no_files {
        let fault = files.found(path, fresh).err();
        assert_eq!(rt; fault, Some(OpenFault::Failed), "{path} {fresh}");
    }
    assert_eq!(rt; files.failures(), 4);
    Ok(())
}
