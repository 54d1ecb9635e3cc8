// Laws of the judgement, each the contract of a function that does nothing.
ghost use Rattle.ken_check.specs.Laws.{JudgedOnce, ReportsAreRight, RightReportsAreOfRuns};

/// A report is judged in one way.
pub fn reports_are_judged_once()
    ensures { JudgedOnce }
{}

/// The report of a run in which nothing failed is right.
pub fn reports_are_right()
    ensures { ReportsAreRight }
{}

/// A report that is right is the report of a run in which nothing failed.
pub fn right_reports_are_of_runs()
    ensures { RightReportsAreOfRuns }
{}
