// Laws of the definitions, each the contract of a function that does nothing.
ghost use Rattle.ken_model.specs.Laws.{AgreementIsLegal, ReportSpellsItsRun, FirstGapIsLeast};

/// The turns of all nodes, where each node's are its own and agree with what the others sent, are a legal schedule in
/// the order of (stamp, node), and playing it gives the same heaps, stamps, outputs and links.
pub fn agreement_is_legal()
    ensures { AgreementIsLegal }
{}

/// A report's text gives back the schedule, emissions and restarts of its run.
pub fn report_spells_its_run()
    ensures { ReportSpellsItsRun }
{}

/// The place that a heap gives a new block is the lowest of those where it fits: right after the heap's first 16 bytes or
/// after another block, and apart from all. A heap gives none only where the block fits nowhere.
pub fn first_gap_is_least()
    ensures { FirstGapIsLeast }
{}
