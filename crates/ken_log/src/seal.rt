ghost use Rattle.std.specs.Prelude.{◌≡◌, ◌+◌, ◌≤◌, ◌∷◌, ◌++◌, [], length, true, OnOk, OnErr, IfOk, IsErrOf};
ghost use Rattle.ken_disk.specs.Fates.{Suffers};
ghost use Rattle.ken_disk.specs.Story.{Follows};
ghost use Rattle.ken_disk.specs.Writes.{Made};
ghost use Rattle.ken_record.specs.Grammar.{IsRecord};
ghost use Rattle.ken_record.specs.Spelling.{record_bytes};
ghost use Rattle.ken_record.specs.Turns.{turn_pages, turn_record};
ghost use Rattle.ken_record.specs.Versions.{One, version_of};
ghost use Rattle.ken_log.specs.Calls.{gate_writes, seal_writes};
ghost use Rattle.ken_log.specs.Mounts.{mount_of, with_record};
ghost use Rattle.ken_log.specs.Seals.{Changes, HasLogCause, as_disk};
ghost use Rattle.ken_log.specs.Settled.{IsSettled};

use crate::SealFault;
use crate::log::{CLOSED, Log};
use crate::opening::open_gate;
use ken_disk::{Disk, DiskFault, MAX_LEN};
use ken_frame::Frame;
use ken_record::{Effects, Record, put_turn};
use std::alloc::AllocError;
use std::sync::Arc;

// Room for the record of a turn that changes one page and has short texts.
const SHORT_RECORD: usize = 512;

impl<D: Disk> Log<D> {
    /// Adds a record, by four calls of the disk: the record is written behind the closed gate, with the next gate closed
    /// behind it, and synced; then the gate is opened, and synced. A crash at any moment leaves the records before, or these
    /// and the new one. After `Ok` it leaves the new one too. After `Memory` the log stands as before. After `Disk` the log is
    /// spent: which of the two a crash leaves is in doubt, and it takes no more seals.
    pub fn seal(&mut self, item: &Record) -> Result<(), SealFault>
        requires settled { IsSettled D.told D.size self.old }
        requires item { IsRecord (version_of self.old.header) item.now }
        requires room { self.old.end + (2 + length (record_bytes (version_of self.old.header) item.now)) ≤ MAX_LEN }
        ensures story { Follows (λ h s. Changes (mount_of h.now.seen) (with_record item.now (mount_of h.now.seen)) 2 result h s) (D.told self.old.disk) (D.told self.new.disk) }
        ensures calls { Follows (Made (as_disk result) (seal_writes (version_of self.old.header) self.old.end item.now)) (D.told self.old.disk) (D.told self.new.disk) }
        ensures settled { OnOk result (IsSettled D.told D.size self.new) }
        ensures goes_on { IsErrOf result SealFault.Memory → IsSettled D.told D.size self.new }
        ensures spent { IsErrOf result SealFault.Disk → self.new.spent ≡ true }
        ensures grown { OnOk result ((self.new.records ≡ self.old.records + 1) × (self.new.end ≡ self.old.end + (1 + length (record_bytes (version_of self.old.header) item.now)))) }
        ensures same { OnErr result ((self.new.records ≡ self.old.records) × (self.new.end ≡ self.old.end)) }
        ensures head { (self.new.header ≡ self.old.header) × (self.new.base ≡ self.old.base) }
        ensures cause { HasLogCause (D.faults self.old.disk) (D.faults self.new.disk) result }
        ensures fate { Follows (Suffers (as_disk result)) (D.fate self.old.disk) (D.fate self.new.disk) }
    {
        stage(&mut self.body, item)?;
        self.add_body()
    }

    /// Adds the record of a turn with this number, these effects and these changed pages, as `seal` does. It makes no record, and takes
    /// no memory where an earlier seal wrote as much.
    pub fn seal_turn(
        &mut self,
        turn: u64,
        effects: &Effects,
        pages: &[(u32, Arc<Frame>)],
    ) -> Result<(), SealFault>
        requires settled { IsSettled D.told D.size self.old }
        requires item { IsRecord (version_of self.old.header) (turn_record turn effects.now (turn_pages pages.now)) }
        requires room { self.old.end + (2 + length (record_bytes (version_of self.old.header) (turn_record turn effects.now (turn_pages pages.now)))) ≤ MAX_LEN }
        ensures story { Follows (λ h s. Changes (mount_of h.now.seen) (with_record (turn_record turn effects.now (turn_pages pages.now)) (mount_of h.now.seen)) 2 result h s) (D.told self.old.disk) (D.told self.new.disk) }
        ensures calls { Follows (Made (as_disk result) (seal_writes (version_of self.old.header) self.old.end (turn_record turn effects.now (turn_pages pages.now)))) (D.told self.old.disk) (D.told self.new.disk) }
        ensures settled { OnOk result (IsSettled D.told D.size self.new) }
        ensures goes_on { IsErrOf result SealFault.Memory → IsSettled D.told D.size self.new }
        ensures spent { IsErrOf result SealFault.Disk → self.new.spent ≡ true }
        ensures grown { OnOk result ((self.new.records ≡ self.old.records + 1)
            × (self.new.end ≡ self.old.end + (1 + length (record_bytes (version_of self.old.header) (turn_record turn effects.now (turn_pages pages.now)))))) }
        ensures same { OnErr result ((self.new.records ≡ self.old.records) × (self.new.end ≡ self.old.end)) }
        ensures head { (self.new.header ≡ self.old.header) × (self.new.base ≡ self.old.base) }
        ensures cause { HasLogCause (D.faults self.old.disk) (D.faults self.new.disk) result }
        ensures fate { Follows (Suffers (as_disk result)) (D.fate self.old.disk) (D.fate self.new.disk) }
    {
        stage_turn(&mut self.body, turn, effects, pages)?;
        self.add_body()
    }

    // Writes what is staged behind the closed gate, and then opens the gate.
    fn add_body(&mut self) -> Result<(), SealFault>
        requires few { self.old.records ≤ self.old.end }
        requires place { self.old.end + 1 ≤ D.size self.old.disk }
        requires room { self.old.end + (1 + length self.old.body.items) ≤ MAX_LEN }
        ensures calls { Follows (Made (as_disk result) (gate_writes self.old.end self.old.body.items)) (D.told self.old.disk) (D.told self.new.disk) }
        ensures size { OnOk result (self.old.end + (1 + length self.old.body.items) ≤ D.size self.new.disk) }
        ensures memory { IsErrOf result SealFault.Memory → self.old.end + 1 ≤ D.size self.new.disk }
        ensures grown { OnOk result ((self.new.records ≡ self.old.records + 1) × (self.new.end ≡ self.old.end + length self.old.body.items)) }
        ensures same { OnErr result ((self.new.records ≡ self.old.records) × (self.new.end ≡ self.old.end)) }
        ensures head { (self.new.header ≡ self.old.header) × (self.new.base ≡ self.old.base) }
        ensures sound { OnOk result (self.new.spent ≡ self.old.spent) }
        ensures unspent { IsErrOf result SealFault.Memory → self.new.spent ≡ self.old.spent }
        ensures spent { IsErrOf result SealFault.Disk → self.new.spent ≡ true }
        ensures cause { HasLogCause (D.faults self.old.disk) (D.faults self.new.disk) result }
        ensures fate { Follows (Suffers (as_disk result)) (D.fate self.old.disk) (D.fate self.new.disk) }
    {
        match open_gate(&mut self.disk, self.end, &self.body) {
            Ok(()) => {
                self.records += 1;
                self.end += self.body.len() as u64;
                Ok(())
            }
            Err(DiskFault::Memory) => Err(SealFault::Memory),
            Err(DiskFault::Failed) => {
                self.spent = true;
                Err(SealFault::Disk)
            }
        }
    }
}

// Makes a body of what is written behind the closed gate: the record, and the next gate.
fn stage(body: &mut Vec<u8>, item: &Record) -> Result<(), AllocError>
    requires { IsRecord One item.now }
    ensures { OnOk result (body.new.items ≡ record_bytes One item.now ++ 0 ∷ []) }
{
    body.clear();
    body.reserve(SHORT_RECORD)?;
    item.put(body)?;
    body.push(CLOSED)?;
    Ok(())
}

// The same, of the record of a turn.
fn stage_turn(
    body: &mut Vec<u8>,
    turn: u64,
    effects: &Effects,
    pages: &[(u32, Arc<Frame>)],
) -> Result<(), AllocError>
    requires { IsRecord One (turn_record turn effects.now (turn_pages pages.now)) }
    ensures { OnOk result (body.new.items ≡ record_bytes One (turn_record turn effects.now (turn_pages pages.now)) ++ 0 ∷ []) }
{
    body.clear();
    body.reserve(SHORT_RECORD)?;
    put_turn(body, turn, effects, pages)?;
    body.push(CLOSED)?;
    Ok(())
}
