// How often the disks of a node's logs were synced or failed. Each law is the contract of a function that does nothing.
ghost use Rattle.ken_store.specs.Work.{CreationWorks, SealWorks, TurnoverWorks};

use ken_disk::Disk;

/// The creation of a store takes three syncs of its log's disk; where the last failed and the log may be there, two and a fault.
pub fn a_creation_takes_three_syncs<D: Disk>()
    ensures { CreationWorks D.told D.faults }
{}

/// A seal takes two syncs of its log's disk; where the last failed and the turn may be there, one and a fault. So with t turns the
/// two logs' disks have 3 + 2t syncs and faults together, at least.
pub fn a_seal_takes_two_syncs<D: Disk>()
    ensures { SealWorks D.told D.faults D.fate }
{}

/// A turnover takes none of them away.
pub fn a_turnover_keeps_the_syncs<D: Disk>()
    ensures { TurnoverWorks D.told D.faults D.fate }
{}
