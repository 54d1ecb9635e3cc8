ghost use Rattle.std.specs.Prelude.{◌≡◌, ℕ, ◌+◌, ◌≤◌, ◌<◌, ◌^◌, ◌∷◌, ◌++◌, [], List, length, true, Some, OnOk, IfOk, IsErrOf};
ghost use Rattle.ken_disk.specs.Fates.{Suffers};
ghost use Rattle.ken_disk.specs.Story.{Follows, IsAtRest};
ghost use Rattle.ken_record.specs.Grammar.{IsHeader, IsBase};
ghost use Rattle.ken_record.specs.Spelling.{header_bytes, base_bytes};
ghost use Rattle.ken_record.specs.Versions.{version_of};
ghost use Rattle.ken_log.specs.Calls.{log_writes, MadeAfterRead};
ghost use Rattle.ken_log.specs.Formats.{written_disk, old_disk, next_header, Replaces};
ghost use Rattle.ken_log.specs.Mounts.{Whole};
ghost use Rattle.ken_log.specs.Seals.{HasLogCause, as_disk};
ghost use Rattle.ken_log.specs.Settled.{IsSettled};

use crate::SealFault;
use crate::beginning::begin;
use crate::log::{CLOSED, HEADER_LEN, Log};
use ken_disk::{Disk, DiskFault};
use ken_record::{Base, Header};
use std::alloc::{AllocError, Global};
use std::mem;

// The bytes of a header without its gate.
const HEADER_FIELDS: usize = 31;

impl<D: Disk> Log<D> {
    /// Goes over to a log of the next generation on another disk, with this base and no records, by the six calls of a format
    /// on that disk. After `Ok` the two disks have changed places: this log is the new one, and `other` is the disk of the old
    /// one, as it was. After an error they haven't, this log's own disk is as it was, and the base is dropped. Of another disk
    /// that has nothing pending, a crash at any moment leaves the bytes that were there, whatever they are, no log, or the whole
    /// new one; after `Memory` not the new one, and this log goes on; after `Disk` this is in doubt, and this log is spent: it
    /// takes no more seals.
    pub fn turnover(&mut self, alloc: Global, other: &mut D, base: Base) -> Result<(), SealFault>
        requires settled { IsSettled D.told D.size self.old }
        requires base { IsBase (version_of self.old.header) base }
        requires length { length (base_bytes (version_of self.old.header) base) < 2 ^ 32 }
        requires generation { self.old.header.generation + 1 < 2 ^ 32 }
        requires turns { self.old.header.turns + self.old.records < 2 ^ 64 }
        ensures story { Follows
            (λ h s. IsAtRest h.now → Replaces (Whole (next_header self.old base) (Some base) []) result h s)
            (D.told other.old) (D.told (written_disk result self.new other.new)) }
        ensures calls { Follows
            (λ h s. MadeAfterRead (as_disk result)
            (log_writes (next_header self.old base) (Some base) h.now.seen) h s)
            (D.told other.old) (D.told (written_disk result self.new other.new)) }
        ensures own { old_disk result self.new other.new ≡ self.old.disk }
        ensures settled { OnOk result (IsSettled D.told D.size self.new) }
        ensures made { OnOk result ((self.new.header ≡ next_header self.old base)
            × (self.new.base ≡ Some base) × (self.new.records ≡ 0)
            × (self.new.end ≡ 32 + length (base_bytes (version_of self.old.header) base))) }
        ensures goes_on { IsErrOf result SealFault.Memory → self.new ≡ self.old }
        ensures rests { IsErrOf result SealFault.Memory → Follows (λ h s. IsAtRest h.now → IsAtRest s.now) (D.told other.old) (D.told other.new) }
        ensures spent { IsErrOf result SealFault.Disk → self.new ≡ record self.old { spent = true } }
        ensures cause { HasLogCause (D.faults other.old) (D.faults (written_disk result self.new other.new)) result }
        ensures fate { Follows (Suffers (as_disk result)) (D.fate other.old) (D.fate (written_disk result self.new other.new)) }
    {
        let header = self.next_header(&base);
        let body = staged(alloc, &header, &base)?;
        match begin(other, &body) {
            Ok(()) => {
                mem::swap(&mut self.disk, other);
                self.header = header;
                self.base = Some(base);
                self.records = 0;
                self.end = HEADER_LEN + u64::from(header.base_len);
                Ok(())
            }
            Err(DiskFault::Memory) => Err(SealFault::Memory),
            Err(DiskFault::Failed) => {
                self.spent = true;
                Err(SealFault::Disk)
            }
        }
    }

    // The header of the log after this one.
    fn next_header(&self, base: &Base) -> Header
        requires base { IsBase (version_of self.now.header) base.now }
        requires length { length (base_bytes (version_of self.now.header) base.now) < 2 ^ 32 }
        requires generation { self.now.header.generation + 1 < 2 ^ 32 }
        requires turns { self.now.header.turns + self.now.records < 2 ^ 64 }
        ensures { result ≡ next_header self.now base.now }
    {
        Header {
            generation: self.header.generation + 1,
            turns: self.header.turns + self.records,
            base_len: base.spelled_len() as u32,
            ..self.header
        }
    }
}

// What is written behind the first gate: the header, the base, and the next gate.
fn staged(alloc: Global, header: &Header, base: &Base) -> Result<Vec<u8>, AllocError>
    requires header { IsHeader header.now }
    requires base { IsBase (version_of header.now) base.now }
    ensures { IfOk result (λ body. body.items ≡ (header_bytes header.now ++ base_bytes (version_of header.now) base.now) ++ 0 ∷ []) }
{
    let mut body = Vec::with_capacity(alloc, HEADER_FIELDS + header.base_len as usize + 1)?;
    header.put(&mut body)?;
    base.put(&mut body)?;
    body.push(CLOSED)?;
    Ok(body)
}
