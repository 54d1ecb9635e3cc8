//! Reads a script: the JSON text of an object that says what a run is of, and what is to fail in it. A script that breaks a rule is refused by
//! the first rule that it breaks and the least place at which it does.
#![tactic(auto)]

mod faults;
mod inputs;
mod keys;
mod laws;
mod mishaps;
mod numbers;
mod reading;
mod scripts;
mod service;

pub use faults::ScriptFault;
pub use laws::refusals_are_exact;
pub use reading::read;
pub use scripts::{
    DEFAULT_PAGES, DEFAULT_RESTARTS, DEFAULT_ROUNDS, DEFAULT_SEED, DEFAULT_TURNS, DISKS, DiskCut,
    LIMIT, MAX_ACTS, MAX_COUNT, MAX_CUTS, MAX_HOLD, MAX_OUT_FAILS, MAX_RESTARTS, MAX_ROUNDS,
    OutFail, Script,
};
pub use service::read_service;
