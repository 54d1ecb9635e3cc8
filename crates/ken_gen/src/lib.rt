//! The script of a number: what a run is of, and what fails in it, drawn by one generator.
#![tactic(auto)]

mod draws;
mod generated;
mod inputs;
mod laws;
mod mishaps;
mod soaks;
mod torments;
mod walks;

pub use generated::script_of;
pub use laws::{shares_add_up, shares_come_out, soaks_come_out, torment_adds_few};
pub use soaks::{NodeTotal, summary, summary_of};
pub use torments::torment;
