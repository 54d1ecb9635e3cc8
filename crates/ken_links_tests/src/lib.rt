//! Tests of rings, wires and nets across threads, and of an externaliser whose outlet fails at the calls of a list.
#![tactic(auto)]

#[cfg(test)]
mod desks;
#[cfg(test)]
mod emissions;
#[cfg(test)]
mod outlets;
#[cfg(test)]
mod rings;
#[cfg(test)]
mod wires;
