//! What the words of the program's command line ask for, and the prefix of files that they give.
#![tactic(auto)]

mod commands;
mod laws;
mod numbers;
mod parser;
mod prefixes;

pub use commands::{Command, command_in};
pub use laws::commands_fit;
pub use prefixes::prefix_in;
