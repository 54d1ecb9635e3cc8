//! The items of a log in bytes: what is one, its one spelling, and how it is read back.
#![tactic(auto)]

mod base;
mod bytes;
mod clones;
mod due;
mod effects;
mod faults;
mod field;
mod header;
mod item;
mod laws;
mod out;
mod page;
mod record;
mod rising;
mod sent;
mod turn;

pub use base::{Base, SENDERS, decode_base};
pub use due::Due;
pub use effects::Effects;
pub use faults::RecordFault;
pub use header::Header;
pub use item::{Item, ItemKind, decode, encode};
pub use laws::{lengths, one_spelling};
pub use page::{Page, PageBytes};
pub use record::{MAX_DRAWS, MAX_FIELDS, MAX_OUTS, MAX_SENDS, Record};
pub use sent::Sent;
pub use turn::put_turn;
