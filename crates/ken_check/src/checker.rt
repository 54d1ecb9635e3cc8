// What the lines of a report told so far.
ghost use Rattle.std.specs.Prelude.{◌≡◌, ◌∷◌, ◌++◌, [], IfOk};
ghost use Rattle.std.specs.Bool.{Decides};
ghost use Rattle.ken_actors.specs.Playing.{game_for};
ghost use Rattle.ken_model.specs.Handler.{Handler};
ghost use Rattle.ken_model.specs.Limits.{IsWithinLimits};
ghost use Rattle.ken_check.specs.Right.{nothing_told};
ghost use Rattle.ken_check.specs.Knowing.{Knows};

use crate::known::{Known, at_start};
use ken_model::Facts;
use std::alloc::{AllocError, Global};

/// A run as far as the lines of its report told it.
#[derive(Debug, Drop)]
pub(crate) struct Checker<'a> {
    pub alloc: Global,
    pub facts: &'a Facts,
    /// How often each node may be restarted.
    pub most: u64,
    pub nodes: Vec<Known>,
    /// How many turns were told, and the stamp and the node of the last, each 0 before the first.
    pub turns: u64,
    pub stamp: u64,
    pub node: u8,
    /// Whether an emission was told, and the node of the last.
    pub has_emissions: bool,
    pub emitter: u8,
    /// Whether a restart was told, and the node of the last.
    pub has_restarts: bool,
    pub restarted: u8,
    /// Of how many nodes the heap was told.
    pub heaps: u8,
    pub ended: bool,
    /// The line that would be right is spelled here.
    pub buffer: Vec<u8>,
}

impl<'a> Checker<'a> {
    /// Before the first line of a report.
    pub(crate) fn new(alloc: Global, facts: &'a Facts, most: u64) -> Result<Checker<'a>, AllocError>
        ensures { IfOk result (λ checker. (h : Handler) → IsWithinLimits (game_for h facts.now) → Knows (game_for h facts.now) most checker nothing_told) }
    {
        Ok(Checker {
            alloc,
            facts,
            most,
            nodes: at_start(alloc, facts)?,
            turns: 0,
            stamp: 0,
            node: 0,
            has_emissions: false,
            emitter: 0,
            has_restarts: false,
            restarted: 0,
            heaps: 0,
            ended: false,
            buffer: Vec::new(alloc),
        })
    }
}

/// Whether a line is this text and a line feed.
pub(crate) fn is_line(line: &[u8], text: &[u8]) -> bool
    ensures { Decides result (line.now ≡ text.now ++ 10 ∷ []) }
{
    match line.split_last() {
        Some((last, front)) => *last == b'\n' && front == text,
        None => false,
    }
}
