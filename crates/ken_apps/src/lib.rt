//! The handlers of Ken's kinds.
#![tactic(auto)]

mod accounts;
mod bank;
mod kind_app;
mod kv;
mod laws;
mod mix;
mod pairs;
mod ring;
mod share;
mod tally;

pub use kind_app::KindApp;
pub use laws::{blocks_are_accounts, messages_are_credits, money_is_kept};
