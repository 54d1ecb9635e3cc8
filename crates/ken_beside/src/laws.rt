// What a node's workers make side by side. Each law is the contract of a function that does nothing.
ghost use Rattle.ken_model.specs.Handler.{Handler};
ghost use Rattle.ken_beside.specs.Accounts.{NoDiskFails, OneDiskFails};
ghost use Rattle.ken_beside.specs.Beside.{RunIsOver, SideBySide};
ghost use Rattle.ken_beside.specs.Calm.{CalmEmitsInOrder};
ghost use Rattle.ken_beside.specs.Failing.{FailureBeside};
ghost use Rattle.ken_beside.specs.GoingOn.{HandlerGoesOn, PatcherGoesOn, SenderGoesOn};
ghost use Rattle.ken_beside.specs.Puts.{PutsHandInThemselves, ShuffledAreAmong};
ghost use Rattle.ken_beside.specs.Heard.{HeardCome};
ghost use Rattle.ken_beside.specs.Meetings.{CallAndMeeting, FailedCallAndMeeting, FailureAndMeeting, StepsAndMeeting};
ghost use Rattle.ken_beside.specs.On.{MeetingIsUp, UpIsOnAlways};
ghost use Rattle.ken_beside.specs.Rounds.{RoundsKeepGroup};

use crate::taking::Taking;
use ken_app::Oracle;
use ken_disk::Disk;
use ken_net::Net;
use ken_ship::Outlet;

/// The steps that a node's three workers made side by side, where each knows only its own, are a run of events of the node, and leave
/// workers that stand for the node after it.
pub fn steps_side_by_side<D: Disk, N: Net, O: Oracle, U: Outlet>()
    ensures { SideBySide D.Disk N.Net O.Oracle U.Outlet }
{}

/// What is handed in with the puts of a node stands for packets that are among them; and those of one of its workers are among all.
pub fn puts_hand_in_themselves()
    ensures handed { PutsHandInThemselves }
    ensures among { ShuffledAreAmong }
{}

/// A run over packets is one over a kind that all of them are.
pub fn a_run_is_over_more<T: Taking>()
    ensures { RunIsOver T.takes }
{}

/// Where all nodes ran at once, and each packet that one was given was put before or by some run, the group of all is in accord, and
/// all that its nodes put was put.
pub fn rounds_keep_group()
    ensures { RoundsKeepGroup }
{}

/// A packet that a node heard, and that stands in what another handed in for it, was put before or by that other's run.
pub fn what_is_heard_comes()
    ensures { HeardCome }
{}

/// Events without a crash or a doubt emit what wasn't emitted before, in order, each output once.
pub fn calm_events_emit_in_order<T: Taking>()
    ensures { CalmEmitsInOrder T.takes }
{}

/// A call of the handler in which a disk failed comes after all steps of the others: the node that they lead to goes down at it, with a
/// turnover or a seal in doubt.
pub fn a_failed_turn_comes_last<D: Disk, N: Net, O: Oracle, U: Outlet>()
    ensures { FailureBeside D.Disk N.Net O.Oracle U.Outlet }
{}

/// Where all calls of the handler and of the patcher ended well, no disk of the node failed.
pub fn no_disk_failed<D: Disk, N: Net, O: Oracle>()
    ensures { NoDiskFails D.Disk N.Net O.Oracle }
{}

/// In a call of the patcher that failed the image's disk did, and no other.
pub fn one_disk_failed<D: Disk>()
    ensures { OneDiskFails D.Disk }
{}

/// After a step a handler with a handler function that keeps the limits may make another, with a slot less at most in each ring.
pub fn a_handler_goes_on<D: Disk, N: Net, O: Oracle>()
    ensures { (h : Handler) → HandlerGoesOn D.Disk N.Net O.Oracle h }
{}

/// So may a patcher.
pub fn a_patcher_goes_on<D: Disk>()
    ensures { PatcherGoesOn D.Disk }
{}

/// And an externaliser.
pub fn a_sender_goes_on<N: Net, U: Outlet>()
    ensures { SenderGoesOn N.Net U.Outlet }
{}

/// A node that is up is on its way, with empty rings and a patcher that may be called; and such a node is up.
pub fn up_is_on<D: Disk>()
    ensures { UpIsOnAlways D.told D.size }
{}

/// A node on its way is up after a meeting that empties its rings, where no call of its image's disk failed.
pub fn a_meeting_is_up<D: Disk>()
    ensures { MeetingIsUp D.told D.size }
{}

/// So many steps of a node's three workers, however they came, and a meeting after them leave a node that stands where
/// their events lead to, and is up there where no call of its image's disk failed, with its accounts. Where the handler's
/// last call failed it went down there, and may be restarted after the meeting.
pub fn steps_and_a_meeting<D: Disk, N: Net, O: Oracle, U: Outlet>()
    ensures up { StepsAndMeeting D.Disk N.Net O.Oracle U.Outlet }
    ensures down { FailureAndMeeting D.Disk N.Net O.Oracle U.Outlet }
{}

/// So of one call of a node that was up, with a meeting after it, as a drain makes them.
pub fn a_call_and_a_meeting<D: Disk, N: Net, O: Oracle, U: Outlet>()
    ensures up { CallAndMeeting D.Disk N.Net O.Oracle U.Outlet }
    ensures down { FailedCallAndMeeting D.Disk N.Net O.Oracle U.Outlet }
{}
