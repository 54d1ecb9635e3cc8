//! A ledger over the nodes of a run: deposits, payments to other nodes, and a receipt for each.
#![tactic(auto)]

mod laws;
mod ledger;

pub use laws::{ledger_is_decided, no_payment_is_lost};
pub use ledger::Ledger;
