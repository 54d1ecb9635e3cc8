//! Worked rows of `ken_rounds` as tests: runs of scripts in memory that make rounds of threads, and then go on on one thread.
#![tactic(auto)]

#[cfg(test)]
mod faulty;
#[cfg(test)]
mod gates;
#[cfg(test)]
mod meeting;
#[cfg(test)]
mod plain;
#[cfg(test)]
mod runs;
#[cfg(test)]
mod wires;
