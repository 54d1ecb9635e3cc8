//! The abstract actors that Ken is proved against: messages, heap values, the facts of a run, and the lines of its
//! report. The definitions themselves are in `specs/`; `docs/DEFINITIONS.md` tells them in plain words.
#![tactic(auto)]

mod bank;
mod cells;
mod clones;
mod commands;
mod facts;
mod handler;
mod header;
mod key_value;
mod kinds;
mod laws;
mod layout_laws;
mod lists;
mod messages;
mod octets;
mod orders;
mod reactions;
mod reading;
mod reports;
mod shared;
mod states;
mod values;

pub use cells::{CELLS, HEAD, Head};
pub use clones::{TryClone, copies_of};
pub use commands::{Command, is_pair_of};
pub use facts::{Facts, Input, MAX_INPUTS, MAX_NODES, MAX_PAGES, MAX_TEXT, MAX_TURNS, PAGE};
pub use header::{empty_header, wrong_header};
pub use kinds::Kind;
pub use laws::{agreement_is_legal, first_gap_is_least, report_spells_its_run};
pub use layout_laws::{breaks_at_one_place, first_is_empty, reads_what_stands, stands_for_one};
pub use lists::Items;
pub use messages::{Done, Message, OUTSIDE, Out, Send, Step};
pub use octets::Octets;
pub use orders::{MAX_NAME, Order};
pub use reactions::Reaction;
pub use reports::{Emission, Ending, Lines, RestartLine, TurnLine};
pub use shared::{Listing, Shared, Single};
pub use states::State;
pub use values::{Block, Value, rounded};
