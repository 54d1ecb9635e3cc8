// What the definitions keep. Each law is the contract of a function that does nothing.
ghost use Rattle.ken_core.specs.Laws.{
  StartIsInAccord,
  StepKeepsAccord,
  EventsKeepAccord,
  CallKeepsAccord,
  RunsKeepAccord,
  RunsApartKeepAccord,
  HistoryIsLegal,
  SealInDoubt,
  TurnoverInDoubt,
  RestartKeepsHeap,
  PutsAreHandedIn,
};

/// The start is in accord.
pub fn start_is_in_accord()
    ensures { StartIsInAccord }
{
    ken_model::first_is_empty();
    ken_model::reads_what_stands();
}

/// Each event keeps accord.
pub fn step_keeps_accord()
    ensures { StepKeepsAccord }
{}

/// So does a list of events, whatever they are.
pub fn events_keep_accord()
    ensures { EventsKeepAccord }
{}

/// A call of one node that is told as events, over packets that were put, keeps accord of the whole group.
pub fn call_keeps_accord()
    ensures { CallKeepsAccord }
{}

/// Runs of all nodes keep it together, whatever the order of their events was, where each took only what was put before
/// or in one of them.
pub fn runs_keep_accord()
    ensures { RunsKeepAccord }
{}

/// In accord, the nodes' turns in the order of stamps and nodes are a legal schedule, and playing it gives their heaps,
/// stamps, numbers and outputs.
pub fn history_is_legal()
    ensures { HistoryIsLegal }
{
    ken_model::agreement_is_legal();
}

/// What a restart finds after a seal in doubt is a cut seal, landed or not, then a crash and a recovery.
pub fn seal_in_doubt()
    ensures { SealInDoubt }
{}

/// What it finds after a turnover in doubt is a cut turnover, landed or not, then a crash and a recovery.
pub fn turnover_in_doubt()
    ensures { TurnoverInDoubt }
{}

/// A recovery after a crash gives the heap back, whatever the crash left on the open pages.
pub fn restart_keeps_heap()
    ensures { RestartKeepsHeap }
{}

/// What an event puts is among what its node has sealed, or says what it has consumed.
pub fn puts_are_handed_in()
    ensures { PutsAreHandedIn }
{}

/// Runs of all nodes keep it, whatever the order of their events was, where each took only what the nodes may put in the end.
pub fn runs_apart_keep_accord()
    ensures { RunsApartKeepAccord }
{}
