ghost use Rattle.std.specs.Prelude.{◌≡◌};
ghost use Rattle.ken_store.specs.Logs.{disk_number, log_on, other_log};

/// The disks of a node.
#[derive(Debug, Drop)]
pub struct Disks<D> {
    /// Disk 0.
    pub log: D,
    /// Disk 1.
    pub image: D,
    /// Disk 2. Until a turnover it has no log.
    pub second: D,
}

/// Of a node's two logs one.
#[derive(Clone, Copy, Debug, PartialEq, Eq)]
pub(crate) enum Which {
    First,
    Second,
}

impl Which {
    // The number of its disk.
    pub(crate) fn number(self) -> u8
        ensures { result ≡ disk_number self }
    {
        match self {
            Which::First => 0,
            Which::Second => 2,
        }
    }

    // The other log.
    pub(crate) fn other(self) -> Which
        ensures { result ≡ other_log self }
    {
        match self {
            Which::First => Which::Second,
            Which::Second => Which::First,
        }
    }
}

// The disk of this log, the image, and the disk of the other log.
pub(crate) fn apart<D>(which: Which, disks: Disks<D>) -> (D, D, D)
    ensures { result ≡ (log_on which disks.log disks.second, disks.image, log_on which disks.second disks.log) }
{
    match which {
        Which::First => (disks.log, disks.image, disks.second),
        Which::Second => (disks.second, disks.image, disks.log),
    }
}
