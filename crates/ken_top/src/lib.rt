//! The top calls: a script is read, run over the devices of a world with the handler of its kind or with one of one's own, and
//! its report written; or a report is checked; or a script is made of a seed, and its run summed up; or the disks of a run are
//! saved to files, and told from these.
#![tactic(auto)]

mod cast;
mod checking;
mod doing;
mod dumping;
mod incoming;
mod kinds;
mod running;
mod saving;
mod service;
mod soaking;
mod status;
mod top;
mod writing;

pub use checking::MOST_INPUT;
pub use service::{serve, serve_alone};
pub use status::Status;
pub use top::{ken, ken_alone};
