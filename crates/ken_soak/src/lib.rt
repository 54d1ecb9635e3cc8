//! A soak run: the script of a few numbers is run under its faults, and what it came to is summed up.
#![tactic(auto)]

mod laws;
mod soaking;
mod totals;

pub use laws::torment_spares;
pub use soaking::{soak, soak_alone};
