//! Runs of the program over worlds of the tests' own, and streams of the tests' own as its source and sink; and services on trial.
#![tactic(auto)]

#[cfg(test)]
mod calls;
#[cfg(test)]
mod meeting;
#[cfg(test)]
mod own_world;
#[cfg(test)]
mod streams;
#[cfg(test)]
mod trials;
