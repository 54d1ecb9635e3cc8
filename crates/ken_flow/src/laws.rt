// What holds of the group of a run's nodes, and of what is on its way between them. Each law is the contract of a function
// that does nothing.
ghost use Rattle.ken_flow.specs.Laws.{
  FirstIsInAccord,
  CallKeepsGroup,
  RunsKeepGroup,
  PutStaysPut,
  PutsArePut,
  AcksGoNoFurther,
  KnownStays,
  GivenAreKnown,
  PassedAreKnown,
  FirstAreKnown,
  SpelledAreKnown,
};
ghost use Rattle.ken_flow.specs.Modest.{TurnsAreModest};
ghost use Rattle.ken_flow.specs.StandstillLaws.{NeverMoreOpen, StampsAreLow, StandstillEnds};

/// The group of nodes at the start is in accord.
pub fn first_is_in_accord()
    ensures { FirstIsInAccord }
{
    ken_core::start_is_in_accord();
}

/// A call of one node that is told as events, over packets that were put, keeps accord of the group.
pub fn call_keeps_group()
    ensures { CallKeepsGroup }
{}

/// Runs of all nodes at once keep accord of the group, whatever the order of their events was, where each packet that one of
/// them took was put in the end.
pub fn runs_keep_group()
    ensures { RunsKeepGroup }
{}

/// What was put stays put, whatever events a node ran.
pub fn put_stays_put()
    ensures { PutStaysPut }
{}

/// What a node's events put was put.
pub fn puts_are_put()
    ensures { PutsArePut }
{}

/// No acknowledgement that was put goes further than what the node that it is for has sealed.
pub fn acks_go_no_further()
    ensures { AcksGoNoFurther }
{}

/// What is known stays known where what was put stays put: bytes, inboxes and what links keep.
pub fn known_stays()
    ensures { KnownStays }
{}

/// Every packet taken from a known inbox was put, and what the inbox still has is known.
pub fn given_are_known()
    ensures { GivenAreKnown }
{}

/// What links pass on of known puts is known, and so is what they keep and what is filed in inboxes.
pub fn passed_are_known()
    ensures { PassedAreKnown }
{}

/// Empty inboxes and new links are known.
pub fn first_are_known()
    ensures { FirstAreKnown }
{}

/// Bytes that spell a packet that was put are known.
pub fn spelled_are_known()
    ensures { SpelledAreKnown }
{}

/// Nothing is more open after a visit in which a node made no turn, nor after a pass of such visits.
pub fn never_more_open()
    ensures { NeverMoreOpen }
{}

/// In accord, no node makes more turns than it may, and no stamp is past the number of all turns.
pub fn stamps_are_low()
    ensures { StampsAreLow }
{}

/// Where three passes leave as much open as they found, the run has ended.
pub fn standstill_ends()
    ensures { StandstillEnds }
{}

/// In accord, where the handler keeps the limits of a turn, each sealed turn has few messages and outputs, and short ones.
pub fn turns_are_modest()
    ensures { TurnsAreModest }
{}
