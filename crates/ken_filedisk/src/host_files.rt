// Files of the system.
ghost use Rattle.std.specs.Prelude.{◌≡◌, [], IfOk};
ghost use Rattle.ken_filedisk.specs.Opened.{IsOpen};

use crate::FileDisk;
use ken_disk::MAX_LEN;
use ken_files::{Files, OpenFault};
use std::fs::{File, OpenOptions};
use std::io::{ErrorKind, Read};
use std::path::Path;
use std::{fs, io};

/// Files of the system, under its paths. A fresh one is made, or made empty, and it and its folder are synced: so its name
/// is safe, and that nothing of an old file is left. One that isn't fresh is opened for reading alone, and all its bytes
/// are read: a write of some bytes fails.
#[derive(Drop)]
pub struct HostFiles<'a> {
    rt: &'a HostRuntime,
    failures: u64,
}

impl<'a> HostFiles<'a> {
    ghost use Rattle.std.specs.Prelude.{◌≡◌};

    /// The files that the runtime can reach. None failed to be opened.
    pub fn new(rt: &'a HostRuntime) -> Self
        ensures { result.failures ≡ 0 }
    {
        HostFiles { rt, failures: 0 }
    }

    /// How many openings failed.
    pub fn failures(&self) -> u64
        ensures { result ≡ self.now.failures }
    {
        self.failures
    }
}

impl Files for HostFiles<'_> {
    ghost use Rattle.std.specs.Prelude.{true, false, None};

    type File = FileDisk;

    ghost Rest = { Unit {0} };

    ghost filing = { λ files. record {
      put = λ _. None;
      bytes = λ _. None;
      failures = files.failures;
      room = λ _. true;
    } };

    ghost tells = { false };

    ghost rest = { λ _. tt };

    fn found(&mut self, path: &str, fresh: bool) -> Result<FileDisk, OpenFault> {
        let opened = if fresh {
            made(self.rt, path)
        } else {
            read(self.rt, path)
        };
        match opened {
            Ok(disk) => Ok(disk),
            Err(error) if error.kind() == ErrorKind::OutOfMemory => Err(OpenFault::Memory),
            Err(_) => {
                self.failures = self.failures.saturating_add(1);
                Err(OpenFault::Failed)
            }
        }
    }

    /// Closes the file.
    fn put_back(&mut self, _path: &str, _file: FileDisk) {}
}

// An empty file, which is safe.
fn made(rt: &HostRuntime, path: &str) -> io::Result<FileDisk>
    ensures { IfOk result (λ d. IsOpen d × (d.copy.held.story.now.seen ≡ [])) }
{
    let file = OpenOptions::new()
        .read(true)
        .write(true)
        .create(true)
        .truncate(true)
        .open(rt, path)?;
    file.sync_all()?;
    File::open(rt, folder(path))?.sync_all()?;
    Ok(FileDisk::over(rt.alloc(), file, &[])?)
}

// The folder in which a path lies.
fn folder(path: &str) -> Path<'_> {
    match Path::new(path).parent() {
        Some(folder) if !folder.as_str().is_empty() => folder,
        _ => Path::new("."),
    }
}

// A file with its bytes.
fn read(rt: &HostRuntime, path: &str) -> io::Result<FileDisk>
    ensures { IfOk result IsOpen }
{
    let found = fs::metadata(rt, path)?;
    if !found.is_file() || found.len() > MAX_LEN {
        return Err(io::Error::from(ErrorKind::InvalidInput));
    }
    let mut file = File::open(rt, path)?;
    let mut bytes = Vec::new(rt.alloc());
    file.read_to_end(&mut bytes)?;
    if bytes.len() as u64 > MAX_LEN {
        return Err(io::Error::from(ErrorKind::FileTooLarge));
    }
    Ok(FileDisk::over(rt.alloc(), file, &bytes)?)
}
