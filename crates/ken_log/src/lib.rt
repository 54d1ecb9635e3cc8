//! A log on a disk that a crash may tear: what its bytes mount as is before a seal or after it, and never between.
#![tactic(auto)]

mod beginning;
mod faults;
mod format;
mod laws;
mod log;
mod mount;
mod opening;
mod seal;
mod turnover;

pub use faults::{LogFault, SealFault};
pub use laws::{counting, mounting};
pub use log::Log;
