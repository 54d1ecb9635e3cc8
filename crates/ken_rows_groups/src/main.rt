//! Rows of `ken_core`: events of a group of nodes, one a row, each with whether it is enabled.
#![tactic(auto)]

mod events;
mod facts;
mod group;
mod groups;
mod pages;
mod values;

use bumpalo::Bump;
use groups::Groups;
use ken_rows::transcribe;
use std::process::ExitCode;

fn main(rt: HostRuntime) -> ExitCode {
    let room = Bump::new(rt.alloc());
    let mut layer = Groups::new(rt.alloc(), &room);
    transcribe(&rt, &mut layer)
}
