// A report's lines, each held against the run that those before it told.
ghost use Rattle.std.specs.Prelude.{◌≡◌, IfOk};
ghost use Rattle.ken_model.specs.Limits.{IsWithinLimits};
ghost use Rattle.ken_model.specs.Report.{IsOneLine};
ghost use Rattle.ken_actors.specs.Playing.{game_for};
ghost use Rattle.ken_check.specs.Right.{IsRightLine, nothing_told};
ghost use Rattle.ken_check.specs.Knowing.{Answers, Follows, IsFollowing};

use crate::checker::Checker;
use crate::words::word;
use ken_actors::{Actors, Player};
use ken_model::Facts;
use std::alloc::{AllocError, Global};

/// What the lines of a report told, and the actors that play the run which they tell.
#[derive(Drop)]
pub(crate) struct Reader<'a, P: Player> {
    pub actors: Actors<'a, P>,
    pub checker: Checker<'a>,
}

impl<'a, P: Player> Reader<'a, P> {
    /// Before the first line of a report.
    pub(crate) fn new(
        alloc: Global,
        player: &'a P,
        facts: &'a Facts,
        most: u64,
    ) -> Result<Reader<'a, P>, AllocError>
        requires limits { IsWithinLimits (game_for (P.handler player.now) facts.now) }
        ensures { IfOk result (λ reader. Follows P.handler (game_for (P.handler player.now) facts.now) most reader nothing_told) }
    {
        Ok(Reader {
            actors: Actors::start(alloc, facts, player)?,
            checker: Checker::new(alloc, facts, most)?,
        })
    }

    /// Whether the next line, which is given without its line feed, is right. Where it isn't, nothing more is to be
    /// asked.
    pub(crate) fn line(&mut self, text: &[u8]) -> Result<bool, AllocError>
        requires following { IsFollowing P.handler self.old }
        requires one_line { IsOneLine text.now }
        ensures { Answers P.handler IsRightLine self.old self.new text.now result }
    {
        let Some(kind) = word(text, 0) else {
            return Ok(false);
        };
        if kind == b"turn".as_slice() {
            self.turn(text)
        } else if kind == b"emit".as_slice() {
            self.checker.emission(text)
        } else if kind == b"restart".as_slice() {
            self.checker.restart(text)
        } else if kind == b"heap".as_slice() {
            self.heap(text)
        } else if kind == b"end".as_slice() {
            self.checker.end(text)
        } else {
            Ok(false)
        }
    }
}
