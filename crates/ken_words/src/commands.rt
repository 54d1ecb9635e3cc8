// What words ask for.
ghost use Rattle.std.specs.Prelude.{◌≡◌, ◌≤◌, map, option_map, string_bytes, codes, IfOk, IfSome};
ghost use Rattle.clap.specs.Words.{found_of, rows_of, subcommand_rows_of};
ghost use Rattle.ken_words.specs.Commands.{command_of, length_in, seed_in};
ghost use Rattle.ken_words.specs.Numbers.{number_in};
ghost use Rattle.ken_words.specs.Parser.{asked, read_at, soak_in};
ghost use Rattle.ken_words.specs.declared.commands.Command.TheVariants.{Check, Torment};

use crate::numbers::number_in;
use crate::parser::parser;
use crate::prefixes::{are_undashed, asked_dump, asked_save};
use clap::ArgMatches;
use clap::error::ErrorKind;
use ken_model::{MAX_INPUTS, MAX_NODES};
use ken_script::{LIMIT, MAX_ROUNDS};
use std::alloc::{AllocError, Global};

/// What the program is asked to do.
#[derive(Clone, Copy, Debug, PartialEq, Eq)]
pub enum Command {
    /// Run a script.
    Run,
    /// Check a report that stands behind a script of so many bytes.
    Check {
        length: usize,
    },
    /// Run a script with faults of this seed beside its own.
    Torment {
        seed: u64,
    },
    /// Run the script that is made of these numbers, and sum it up.
    Soak {
        seed: u64,
        nodes: u8,
        inputs: u16,
        rounds: u64,
    },
    /// Run a script, and save its disks to files of a prefix.
    Save,
    /// Tell what the disks of a node hold that were saved to files of a prefix, for a run of so many nodes and pages.
    Dump {
        node: u8,
        nodes: u8,
        pages: u32,
    },
}

/// The command that plain words ask for: the program's name, and then `run`, or `check` and a length, or `torment` and a
/// seed, or `soak` and a seed, nodes, inputs and rounds, or `save` and a prefix, or `dump` and a prefix, a node, nodes and
/// pages. `None` for any others. `prefix_in` gives the prefix. The only error is want of memory.
pub fn command_in(alloc: Global, words: &[String]) -> Result<Option<Command>, AllocError>
    ensures { IfOk result (λ command. command ≡ command_of (map string_bytes words.now)) }
{
    // What `clap` takes beyond plain words, as `--`, begins with a dash.
    if !are_undashed(words) {
        return Ok(None);
    }
    match parser(alloc)?.try_get_matches_from(words) {
        Ok(matches) => Ok(asked(&matches)),
        Err(error) => match error.kind() {
            ErrorKind::OutOfMemory => Err(AllocError),
            _ => Ok(None),
        },
    }
}

// What the matches of a parse ask for.
fn asked(matches: &ArgMatches) -> Option<Command>
    ensures { result ≡ asked (subcommand_rows_of matches.now) }
{
    let (name, given) = matches.subcommand()?;
    if name == "run" {
        Some(Command::Run)
    } else if name == "check" {
        asked_check(given)
    } else if name == "torment" {
        asked_torment(given)
    } else if name == "soak" {
        asked_soak(given)
    } else if name == "save" {
        asked_save(given)
    } else if name == "dump" {
        asked_dump(given)
    } else {
        None
    }
}

// What the matches of `check` ask for.
fn asked_check(given: &ArgMatches) -> Option<Command>
    ensures { result ≡ option_map Check (read_at length_in (codes "LENGTH") (rows_of (found_of given.now))) }
{
    let length = value_at(0, LIMIT as u64, given, "LENGTH")?;
    Some(Command::Check {
        length: length as usize,
    })
}

// What the matches of `torment` ask for.
fn asked_torment(given: &ArgMatches) -> Option<Command>
    ensures { result ≡ option_map Torment (read_at seed_in (codes "SEED") (rows_of (found_of given.now))) }
{
    let seed = value_at(0, u64::MAX, given, "SEED")?;
    Some(Command::Torment { seed })
}

// What the matches of `soak` ask for.
fn asked_soak(given: &ArgMatches) -> Option<Command>
    ensures { result ≡ soak_in (rows_of (found_of given.now)) }
{
    let seed = value_at(0, u64::MAX, given, "SEED")?;
    let nodes = value_at(1, u64::from(MAX_NODES), given, "NODES")?;
    let inputs = value_at(0, MAX_INPUTS as u64, given, "INPUTS")?;
    let rounds = value_at(0, MAX_ROUNDS, given, "ROUNDS")?;
    Some(Command::Soak {
        seed,
        nodes: nodes as u8,
        inputs: inputs as u16,
        rounds,
    })
}

// A value of a subcommand as a number from `least` to `most`.
pub(crate) fn value_at(least: u64, most: u64, given: &ArgMatches, id: &str) -> Option<u64>
    ensures number { result ≡ read_at (number_in least most) id.now (rows_of (found_of given.now)) }
    ensures most { IfSome result (λ n. n ≤ most) }
{
    number_in(least, most, given.get_str(id)?)
}
