// What a crash leaves of a node, by what was in doubt, and how often it has synced. Each law is the contract of a function that does
// nothing.
ghost use Rattle.ken_node.specs.DownLaws.{CreationGoesDown, MeetingStaysDown, SealGoesDown, TurnGoesDown, TurnoverGoesDown, WholeGoesDown};
ghost use Rattle.ken_node.specs.Synced.{UpHasSynced};

use ken_app::Oracle;
use ken_disk::Disk;
use ken_net::Net;

/// A node that is up may be restarted, whatever a crash leaves of its disks.
pub fn a_whole_node_goes_down<D: Disk>()
    ensures { WholeGoesDown D.told D.size }
{}

/// So may one whose creation failed.
pub fn a_failed_creation_goes_down<D: Disk>()
    ensures { CreationGoesDown D.told D.size D.faults D.fate }
{}

/// So may one whose seal is in doubt, whether its record landed or not.
pub fn a_seal_in_doubt_goes_down<D: Disk, O: Oracle, N: Net>()
    ensures { SealGoesDown D.told D.size D.faults D.fate O.telling.clocks O.telling.words N.given_between N.put_between }
{}

/// So may one whose turnover is in doubt, whether the new log landed or not.
pub fn a_turnover_in_doubt_goes_down<D: Disk, O: Oracle, N: Net>()
    ensures { TurnoverGoesDown D.told D.size D.faults D.fate O.telling.clocks O.telling.words N.given_between N.put_between }
{}

/// So a call of the handler whose disk failed leaves a node that may be restarted, with a turnover or a seal in doubt.
pub fn a_failed_turn_goes_down<D: Disk, O: Oracle, N: Net>()
    ensures { TurnGoesDown D.told D.size D.faults D.fate O.telling.clocks O.telling.words N.given_between N.put_between }
{}

/// A node that may be restarted may be after a meeting too.
pub fn a_meeting_stays_down<D: Disk>()
    ensures { MeetingStaysDown D.told D.size }
{}

/// A node that is up has over the disks of its logs, as Ok syncs and faults together, what its creation and its sealed turns take.
pub fn a_node_has_synced<D: Disk>()
    ensures { UpHasSynced D.told D.size D.faults }
{}
