//! The drive of a run: what a run meets beside its script, how it starts, and what it says at its end.
#![tactic(auto)]

mod devices;
mod driving;
mod finishing;
mod laws;
mod memory;
mod oracle;
mod outlet;
mod report;
mod saving;
mod starting;
mod world;

pub use driving::{drive, drive_alone, drive_kind, drive_kind_alone};
pub use finishing::finish;
pub use ken_run::{Run, RunFault};
pub use laws::{a_node_is_recovered, ended_runs_keep, kinds_serve};
pub use memory::{Kept, MemWorld};
pub use oracle::MemOracle;
pub use outlet::MemOutlet;
pub use report::{end, lines};
pub use saving::{SavingFault, drive_saving, drive_saving_alone};
pub use starting::start;
pub use world::{DISKS, World};
