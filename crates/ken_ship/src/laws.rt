// What the calls of an externaliser are as events of its node. Each law is the contract of a function that does nothing.
ghost use Rattle.ken_ship.specs.Laws.{
  SendsAreEvents,
  SomeSendsAreEvents,
  AcksAreEvents,
  AllAreTaken,
  EmissionIsEvent,
  NothingIsDueFirst,
  OthersKeepDue,
  HandedOverIsDue,
  ResumedIsDue,
  NumbersRise,
  NumbersWereTold,
  WaitedBefore,
  WasHandedOver,
};

/// Where an externaliser was handed what its node's turns sent and output, and puts all that is due, this is the node's run of
/// events that sends it; where it puts a front of that, it is some of these events, in order. The node doesn't change.
pub fn sends_are_events()
    ensures all { SendsAreEvents }
    ensures some { SomeSendsAreEvents }
{}

/// Where it takes acknowledgements, this is the node's run of events that takes them, and what waits is again what the node
/// has. Where none goes further than what it was handed, it takes all of them.
pub fn acks_are_events()
    ensures taken { AcksAreEvents }
    ensures all { AllAreTaken }
{}

/// Where it emits an output, this is the node's event that emits it, and what waits is again what the node has.
pub fn an_emission_is_an_event()
    ensures { EmissionIsEvent }
{}

/// What waits is what the node has: at the start, where its turns and numbers stay, where a turn more is sealed and handed
/// over, and where a state resumes.
pub fn what_is_handed_over_is_due()
    ensures first { NothingIsDueFirst }
    ensures others { OthersKeepDue }
    ensures more { HandedOverIsDue }
    ensures resumed { ResumedIsDue }
{}

/// Whatever it is handed over and given: no acknowledged number falls, and each was told by an acknowledgement that was
/// taken; a message waits only where a turn that was handed over sent it, or where it waited before.
pub fn what_waits_was_handed_over()
    ensures rise { NumbersRise }
    ensures told { NumbersWereTold }
    ensures before { WaitedBefore }
    ensures handed { WasHandedOver }
{}
