// The prefix on the command line, the two commands that have one, and words that begin with a dash.
ghost use Rattle.std.specs.Prelude.{◌≡◌, map, drop, string_bytes, if◌then◌else◌};
ghost use Rattle.std.specs.List.{list_all};
ghost use Rattle.clap.specs.Words.{found_of, rows_of};
ghost use Rattle.ken_words.specs.Commands.{is_prefix, is_undashed, prefix_of};
ghost use Rattle.ken_words.specs.Parser.{dump_in, has_prefix};
ghost use Rattle.ken_words.specs.declared.commands.Command.TheVariants.{Save};

use crate::Command;
use crate::commands::value_at;
use clap::ArgMatches;
use ken_model::{MAX_NODES, MAX_PAGES};

// The most bytes of a prefix.
const MOST_BYTES: usize = 200;

/// The prefix that the words of `save` and `dump` give: the third word, and no bytes where there is none.
pub fn prefix_in(words: &[String]) -> &str
    ensures { result.now ≡ prefix_of (map string_bytes words.now) }
{
    match words {
        [_, _, prefix, ..] => prefix.as_str(),
        _ => "",
    }
}

// Whether no word from the third on begins with a dash.
pub(crate) fn are_undashed(words: &[String]) -> bool
    ensures { result ≡ list_all (λ word. is_undashed (string_bytes word)) (drop 2 words.now) }
{
    words.iter().skip(2).all(|word| is_undashed(word))
}

// What the matches of `save` ask for.
pub(crate) fn asked_save(given: &ArgMatches) -> Option<Command>
    ensures { result ≡ (if has_prefix (rows_of (found_of given.now)) then Some Save else None) }
{
    if has_prefix(given) {
        Some(Command::Save)
    } else {
        None
    }
}

// What the matches of `dump` ask for.
pub(crate) fn asked_dump(given: &ArgMatches) -> Option<Command>
    ensures { result ≡ dump_in (rows_of (found_of given.now)) }
{
    let node = value_at(0, u64::from(MAX_NODES) - 1, given, "NODE")?;
    let nodes = value_at(1, u64::from(MAX_NODES), given, "NODES")?;
    let pages = value_at(1, MAX_PAGES, given, "PAGES")?;
    if has_prefix(given) && node < nodes {
        Some(Command::Dump {
            node: node as u8,
            nodes: nodes as u8,
            pages: pages as u32,
        })
    } else {
        None
    }
}

// Whether a subcommand has a prefix.
fn has_prefix(given: &ArgMatches) -> bool
    ensures { result ≡ has_prefix (rows_of (found_of given.now)) }
{
    match given.get_str("PREFIX") {
        Some(prefix) => is_prefix(prefix),
        None => false,
    }
}

// Whether a word is a prefix.
fn is_prefix(word: &str) -> bool
    ensures { result ≡ is_prefix word.now }
{
    !word.is_empty() && word.len() <= MOST_BYTES && is_undashed(word)
}

// Whether a word doesn't begin with a dash.
fn is_undashed(word: &str) -> bool
    ensures { result ≡ is_undashed word.now }
{
    match word.as_bytes() {
        [first, ..] => *first != b'-',
        [] => true,
    }
}
