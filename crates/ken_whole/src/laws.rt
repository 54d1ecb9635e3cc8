// What the calls of a node's workers are as events of the node. Each law is the contract of a function that does nothing.
ghost use Rattle.ken_whole.specs.KindLaws.{KindsKeepLimits};
ghost use Rattle.ken_whole.specs.NewLaws.{NewAreWhole};
ghost use Rattle.ken_whole.specs.TurnLaws.{TurnKeepsWhole};
ghost use Rattle.ken_whole.specs.WholeLaws.{AcksKeepWhole, EmissionKeepsWhole, MeetingKeepsWhole, PatchKeepsWhole, SamePartKeepsWhole, SendsKeepWhole, SyncKeepsWhole};

use ken_app::Oracle;
use ken_disk::Disk;
use ken_net::Net;

/// Where the three workers stand for a node, a patch is the node's event that writes a page, or none, and they stand for it again.
/// A write that failed counts as written.
pub fn a_patch_keeps_the_whole<D: Disk>()
    ensures { PatchKeepsWhole D.told D.size D.faults D.fate }
{}

/// A sync is the node's event, and what it tells as settled a base may leave out.
pub fn a_sync_keeps_the_whole<D: Disk>()
    ensures { SyncKeepsWhole D.told D.size D.faults D.fate }
{}

/// What the externaliser puts are sends of the node: all that are due, where nothing is on its way to it.
pub fn sends_keep_the_whole<D: Disk, N: Net>()
    ensures { SendsKeepWhole D.told D.size N.put_between }
{}

/// What it takes are acknowledgements of the node: all that are given to it, where none goes further than what it was handed.
pub fn acks_keep_the_whole<D: Disk, N: Net>()
    ensures { AcksKeepWhole D.told D.size N.given_between }
{}

/// What it emits is the node's event. Where nothing was emitted, or memory ran out, nothing happened.
pub fn an_emission_keeps_the_whole<D: Disk>()
    ensures emitted { EmissionKeepsWhole D.told D.size }
    ensures same { SamePartKeepsWhole D.told D.size }
{}

/// A meeting is no event.
pub fn a_meeting_keeps_the_whole<D: Disk>()
    ensures { MeetingKeepsWhole D.told D.size }
{}

/// A call of the handler is a turnover, acknowledgements and a turn of the node, by its answer.
pub fn a_turn_keeps_the_whole<D: Disk, O: Oracle, N: Net>()
    ensures { TurnKeepsWhole D.told D.size D.faults D.fate O.telling.clocks O.telling.words N.given_between N.put_between }
{}

/// What the kinds' handlers send and output keeps the limits of a turn, whatever they come to.
pub fn kinds_keep_limits()
    ensures { KindsKeepLimits }
{}

/// New workers over a created store stand for a node at its start.
pub fn new_workers_are_whole<D: Disk>()
    ensures { NewAreWhole D.told D.size }
{}
