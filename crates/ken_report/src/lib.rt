//! The printing of reports: the lines of a run's report as text.
#![tactic(auto)]

mod faults;
mod printing;
mod spelling;
mod words;

pub use faults::ReportFault;
pub use printing::print;
pub use spelling::{put_emission, put_end, put_heap, put_restart, put_turn};
pub use words::{Word, put_line};
