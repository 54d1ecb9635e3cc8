//! Rows of a test program: a line of standard input is a command with its arguments, and standard output is a transcript, in which
//! each command is followed by its answer.
#![tactic(auto)]

mod answer;
mod fault;
mod layer;
mod spelling;
mod words;

pub use answer::Answer;
pub use fault::RowFault;
pub use layer::{Layer, transcribe};
pub use words::Words;
