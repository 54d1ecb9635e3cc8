//! A round of threads: the three workers of every node side by side, sixteen steps each, over wires of the round.
#![tactic(auto)]

mod crew;
mod gate;
mod rounds;
mod seating;
mod seats;
mod team;
mod wiring;
mod works;

pub use crew::{Crew, Faults};
pub use gate::{Gate, OpenGate, Role};
pub use rounds::round;
pub use seats::{HandlerSeat, SenderSeat};
pub use team::{Team, run_teams};
pub use wiring::{Ends, Wiring};
pub use works::{STEPS, Seat, Works};
