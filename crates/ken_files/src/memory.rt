// Files in memory.
ghost use Rattle.std.specs.Prelude.{◌≡◌, ◌≢◌, ℕ, List, None, Some, IsSome, OnOk, OnErr};
ghost use Rattle.std.specs.BTreeMap.{get_by_text};

use crate::{Files, MemFile, OpenFault};
use ken_disk::MAX_LEN;
use std::alloc::{AllocError, Global};
use std::collections::BTreeMap;

/// By their paths. One that is open is away.
type Entries = BTreeMap<String, Option<MemFile>>;

/// Files in memory. Openings fail where a list says, by their numbers, and where a file isn't there that isn't to be fresh. While a
/// file is open nothing stands under its path.
#[derive(Debug, Drop)]
pub struct MemFiles {
    alloc: Global,
    entries: Entries,
    // The numbers of the openings that fail, counted from 1.
    fails: Vec<u64>,
    openings: u64,
    failures: u64,
}

impl MemFiles {
    ghost use Rattle.std.specs.Prelude.{◌≡◌, ◌≤◌, [], length, IfOk, IfSome, OnOk, OnErr, IsErrOf, Err, Some, None, option_copied, true, false};
    ghost use Rattle.ken_disk.specs.Causes.{risen};
    ghost use Rattle.ken_files.specs.declared.faults.OpenFault.TheVariants.{Failed};
    ghost use Rattle.ken_files.specs.Filing.{HasOpenCause, OthersStay};
    ghost use Rattle.ken_files.specs.Memory.{AreUnused, FailsNext, IsFound, IsFresh, bytes_at, file_at, filing_of};

    /// No files. No opening of a fresh one fails but for want of memory.
    pub fn new(alloc: Global) -> Self
        ensures { AreUnused [] result }
    {
        MemFiles {
            alloc,
            entries: BTreeMap::new(alloc),
            fails: Vec::new(alloc),
            openings: 0,
            failures: 0,
        }
    }

    /// As `new`, but the openings of these numbers fail, counted from 1. The error is want of memory.
    pub fn failing(alloc: Global, calls: &[u64]) -> Result<Self, AllocError>
        ensures { IfOk result (AreUnused calls.now) }
    {
        Ok(MemFiles {
            fails: Vec::from_slice(alloc, calls)?,
            ..MemFiles::new(alloc)
        })
    }

    /// With a file that holds these bytes, in the place of what may stand under the path. The error is want of memory.
    pub fn with_file(mut self, path: &str, bytes: &[u8]) -> Result<Self, AllocError>
        requires { length bytes.now ≤ MAX_LEN }
        ensures bytes { IfOk result (λ files. bytes_at files path.now ≡ Some bytes.now) }
        ensures others { IfOk result (λ files. OthersStay path.now (filing_of self) (filing_of files)) }
        ensures rest { IfOk result (λ files. files ≡ record self { entries = files.entries }) }
    {
        let file = MemFile::holding(self.alloc, bytes)?;
        lay(self.alloc, &mut self.entries, path, Some(file))?;
        Ok(self)
    }

    /// What a read of the file gives that stands under a path: none where no file was put there, and while it is open.
    pub fn bytes(&self, path: &str) -> Option<&[u8]>
        ensures bytes { option_copied result ≡ (filing_of self.now).bytes path.now }
        ensures bound { IfSome result (λ bytes. length bytes.now ≤ MAX_LEN) }
    {
        match self.entries.get(path) {
            Some(Some(file)) => Some(file.bytes()),
            _ => None,
        }
    }

    // An empty file, in the place of the one that may stand under the path.
    fn fresh(&mut self, path: &str) -> Result<MemFile, AllocError>
        ensures opened { IfOk result (λ file. IsFresh file) }
        ensures away { OnOk result (get_by_text self.new.entries path.now ≡ Some None) }
        ensures others { (p : List ℕ) → p ≢ path.now → get_by_text self.new.entries p ≡ get_by_text self.old.entries p }
        ensures err { OnErr result (self.new.entries.entries ≡ self.old.entries.entries) }
        ensures rest { self.new ≡ record self.old { entries = self.new.entries } }
    {
        let file = MemFile::new(self.alloc)?;
        lay(self.alloc, &mut self.entries, path, None)?;
        Ok(file)
    }

    // A file with the bytes of the one that stands under the path, and in its place.
    fn standing(&mut self, path: &str) -> Result<MemFile, OpenFault>
        ensures opened { IfOk result (λ file. IsFound file) }
        ensures bytes { IfOk result (λ file. bytes_at self.old path.now ≡ Some file.held.story.now.seen) }
        ensures away { OnOk result (get_by_text self.new.entries path.now ≡ Some None) }
        ensures others { (p : List ℕ) → p ≢ path.now → get_by_text self.new.entries p ≡ get_by_text self.old.entries p }
        ensures err { OnErr result (self.new.entries.entries ≡ self.old.entries.entries) }
        ensures rest { self.new ≡ record self.old { entries = self.new.entries; failures = self.new.failures } }
        ensures cause { HasOpenCause self.old.failures self.new.failures result }
        ensures failed { IsErrOf result OpenFault.Failed → file_at self.old path.now ≡ None }
    {
        let Some(bytes) = self.bytes(path) else {
            self.fail();
            return Err(OpenFault::Failed);
        };
        let file = MemFile::holding(self.alloc, bytes)?;
        set(&mut self.entries, path, None);
        Ok(file)
    }

    // Counts an opening. One on the list fails.
    fn begin(&mut self) -> Result<(), OpenFault>
        ensures ok { OnOk result ((FailsNext self.old → ⊥) × (self.new ≡ record self.old { openings = risen self.old.openings })) }
        ensures err { OnErr result (FailsNext self.old) }
        ensures counted { OnErr result (self.new ≡ record self.old { openings = risen self.old.openings; failures = risen self.old.failures }) }
        ensures cause { HasOpenCause self.old.failures self.new.failures result }
        ensures no_memory { IsErrOf result OpenFault.Memory → ⊥ }
    {
        self.openings = self.openings.saturating_add(1);
        if self.fails.contains(&self.openings) {
            self.fail();
            return Err(OpenFault::Failed);
        }
        Ok(())
    }

    // Counts an opening that failed.
    fn fail(&mut self)
        ensures counted { self.new ≡ record self.old { failures = risen self.old.failures } }
        ensures cause { HasOpenCause {T = Unit {0}} self.old.failures self.new.failures (Err Failed) }
    {
        self.failures = self.failures.saturating_add(1);
    }
}

impl Files for MemFiles {
    ghost use Rattle.std.specs.Prelude.{◌≡◌, ◌⊎◌, true, false, None, Some, OnOk, IsErrOf};
    ghost use Rattle.ken_files.specs.Filing.{Finds, PutsBack};
    ghost use Rattle.ken_files.specs.Memory.{FailsNext, file_at, file_views, filing_of};

    type File = MemFile;

    ghost Rest = { Unit {0} };

    ghost filing = { filing_of };

    ghost tells = { true };

    ghost rest = { λ _. tt };

    fn found(&mut self, path: &str, fresh: bool) -> Result<MemFile, OpenFault>
        ensures finds { Finds file_views path.now fresh (filing_of self.old) (filing_of self.new) result }

        // A file that is open is away. An opening on the list fails, and each other that finds nothing, where it is not to be fresh.
        ensures away { OnOk result (file_at self.new path.now ≡ None) }
        ensures fails { FailsNext self.old → IsErrOf result OpenFault.Failed }
        ensures failed { IsErrOf result OpenFault.Failed → FailsNext self.old ⊎ ((fresh ≡ false) × (file_at self.old path.now ≡ None)) }
    {
        self.begin()?;
        if fresh {
            Ok(self.fresh(path)?)
        } else {
            self.standing(path)
        }
    }

    fn put_back(&mut self, path: &str, file: MemFile) {
        set(&mut self.entries, path, Some(file));
    }
}

// Puts a file, or none, into the entry of a path, which is made where there is none.
fn lay(
    alloc: Global,
    entries: &mut Entries,
    path: &str,
    file: Option<MemFile>,
) -> Result<(), AllocError>
    ensures here { OnOk result (get_by_text entries.new path.now ≡ Some file) }
    ensures others { (p : List ℕ) → p ≢ path.now → get_by_text entries.new p ≡ get_by_text entries.old p }
    ensures err { OnErr result (entries.new.entries ≡ entries.old.entries) }
{
    entries.insert(String::from_str(alloc, path)?, file)?;
    Ok(())
}

// As `lay`, where there is an entry. It takes no memory.
fn set(entries: &mut Entries, path: &str, file: Option<MemFile>)
    requires { IsSome (get_by_text entries.old path.now) }
    ensures here { get_by_text entries.new path.now ≡ Some file }
    ensures others { (p : List ℕ) → p ≢ path.now → get_by_text entries.new p ≡ get_by_text entries.old p }
{
    if let Some(slot) = entries.get_mut(path) {
        *slot = file;
    }
}
