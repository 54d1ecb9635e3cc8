//! Whether each line of a report is right for a script, or which is the first wrong one.
#![tactic(auto)]

mod checker;
mod emissions;
mod ending;
mod heaps;
mod judging;
mod known;
mod laws;
mod reader;
mod restarts;
mod turns;
mod verdict;
mod words;

pub use judging::Judging;
pub use laws::{reports_are_judged_once, reports_are_right, right_reports_are_of_runs};
pub use verdict::Verdict;
