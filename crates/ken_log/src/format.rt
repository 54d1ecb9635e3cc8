ghost use Rattle.std.specs.Prelude.{◌≡◌, ◌∷◌, ◌++◌, [], None, OnOk, IfOk, IsErrOf};
ghost use Rattle.ken_disk.specs.Fates.{Suffers};
ghost use Rattle.ken_disk.specs.Story.{Follows, IsAtRest};
ghost use Rattle.ken_record.specs.Grammar.{IsHeader};
ghost use Rattle.ken_record.specs.Spelling.{header_bytes};
ghost use Rattle.ken_log.specs.Calls.{log_writes, MadeAfterRead};
ghost use Rattle.ken_log.specs.Formats.{disk_of, answer_of, Replaces};
ghost use Rattle.ken_log.specs.Layout.{IsHead};
ghost use Rattle.ken_log.specs.Mounts.{Whole, mount_of};
ghost use Rattle.ken_log.specs.Seals.{HasLogCause, as_disk};
ghost use Rattle.ken_log.specs.Settled.{IsSettled};

use crate::SealFault;
use crate::beginning::begin;
use crate::log::{CLOSED, HEADER_LEN, Log};
use ken_disk::Disk;
use ken_record::Header;
use std::alloc::{AllocError, Global};

impl<D: Disk> Log<D> {
    /// Makes a node's first log, with no records, by six calls of the disk: the first gate is closed, and synced; the header
    /// is written behind it, with the next gate closed behind it, and synced; then the first gate is opened, and synced. Where
    /// the first gate is there and closed, the first write has no bytes, so that it can't tear the gate open. After `Ok` the
    /// disk holds the log, whatever it held before. Of a disk that has nothing pending, a crash at any moment leaves what was
    /// there, no log, or the whole one; after `Memory` not the new one; after `Disk` this is in doubt.
    pub fn format(alloc: Global, mut disk: D, header: &Header) -> Result<Log<D>, (SealFault, D)>
        requires { IsHead header.now None }
        ensures story { Follows (λ h s. IsAtRest h.now → Replaces (Whole header.now None []) (answer_of result) h s) (D.told disk) (D.told (disk_of result)) }
        ensures calls { Follows (λ h s. MadeAfterRead (as_disk (answer_of result)) (log_writes header.now None h.now.seen) h s) (D.told disk) (D.told (disk_of result)) }
        ensures settled { IfOk result (λ log. IsSettled D.told D.size log) }
        ensures made { IfOk result (λ log. (log.header ≡ header.now) × (log.base ≡ None) × (log.records ≡ 0) × (log.end ≡ 32)) }
        ensures rests { IsErrOf (answer_of result) SealFault.Memory → Follows (λ h s. IsAtRest h.now → IsAtRest s.now) (D.told disk) (D.told (disk_of result)) }
        ensures cause { HasLogCause (D.faults disk) (D.faults (disk_of result)) (answer_of result) }
        ensures fate { Follows (Suffers (as_disk (answer_of result))) (D.fate disk) (D.fate (disk_of result)) }
    {
        let body = match staged(alloc, header) {
            Ok(body) => body,
            Err(_) => return Err((SealFault::Memory, disk)),
        };
        match begin(&mut disk, &body) {
            Ok(()) => Ok(Log {
                disk,
                header: *header,
                base: None,
                records: 0,
                end: HEADER_LEN,
                spent: false,
                body: Vec::new(alloc),
            }),
            Err(fault) => Err((SealFault::from(fault), disk)),
        }
    }
}

// What is written behind the first gate: the header, and the next gate.
fn staged(alloc: Global, header: &Header) -> Result<Vec<u8>, AllocError>
    requires { IsHeader header.now }
    ensures { IfOk result (λ body. body.items ≡ header_bytes header.now ++ 0 ∷ []) }
{
    let mut body = Vec::new(alloc);
    header.put(&mut body)?;
    body.push(CLOSED)?;
    Ok(body)
}
