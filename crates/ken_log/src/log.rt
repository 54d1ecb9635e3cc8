ghost use Rattle.std.specs.Prelude.{◌≡◌, None, Some, MatchOption};

use ken_disk::Disk;
use ken_record::{Base, Header};

// The bytes of a gate.
pub(crate) const OPEN: u8 = 0xa5;

pub(crate) const CLOSED: u8 = 0;

// The bytes of a header with its gate.
pub(crate) const HEADER_LEN: u64 = 32;

/// A header, a base where it isn't a node's first log, records, and then a closed gate, on a disk.
#[derive(Debug, Drop)]
pub struct Log<D> {
    pub(crate) disk: D,
    pub(crate) header: Header,
    pub(crate) base: Option<Base>,
    pub(crate) records: u64,
    // The place of the closed gate.
    pub(crate) end: u64,
    // A write failed, and what a crash leaves is in doubt.
    pub(crate) spent: bool,
    // What the last seal wrote behind its gate. The next one writes over it, so that it takes no memory.
    pub(crate) body: Vec<u8>,
}

impl<D: Disk> Log<D> {
    pub fn header(&self) -> &Header
        ensures { result.now ≡ self.now.header }
    {
        &self.header
    }

    /// What the logs before it left, or nothing in a node's first log.
    pub fn base(&self) -> Option<&Base>
        ensures { MatchOption result (self.now.base ≡ None) (λ base. self.now.base ≡ Some base.now) }
    {
        self.base.as_ref()
    }

    /// How many records it holds.
    pub fn records(&self) -> u64
        ensures { result ≡ self.now.records }
    {
        self.records
    }

    /// Where it ends: the place of its closed gate, in bytes.
    pub fn end(&self) -> u64
        ensures { result ≡ self.now.end }
    {
        self.end
    }

    /// Gives the disk back as it is.
    pub fn release(self) -> D
        ensures { result ≡ self.disk }
    {
        self.disk
    }
}
