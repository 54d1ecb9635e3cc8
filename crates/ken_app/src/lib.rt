//! What an application sees of Ken: the turn that it makes, and the oracle that it draws from.
#![tactic(auto)]

mod app;
mod faults;
mod oracle;
mod service;
mod turn;

pub use app::{App, take_turn};
pub use faults::{NoDraw, OutputFault, SendFault};
pub use oracle::Oracle;
pub use service::{Limited, Service, limited_keeps_limits, limited_keeps_lines, take_service_turn};
pub use turn::{MAX_DRAWS, MAX_OUTPUTS, MAX_SENDS, Made, Turn};
