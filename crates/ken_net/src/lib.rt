//! Networks between nodes: the trait `Net`, plain inboxes, and links that lose, repeat and hold.
#![tactic(auto)]

mod act;
mod base;
mod copies;
mod handed;
mod inbox;
mod inboxes;
mod laws;
mod link;
mod links;
mod lossy;
mod net;
mod passing;
mod plain;

pub use act::{Act, LinkAct};
pub use base::Base;
pub use handed::Handed;
pub use inbox::MAX_INBOX;
pub use inboxes::Inboxes;
pub use laws::{nothing_is_invented, passing_is_by_number, what_may_be_put};
pub use links::Links;
pub use lossy::Lossy;
pub use net::Net;
pub use plain::PlainNet;
