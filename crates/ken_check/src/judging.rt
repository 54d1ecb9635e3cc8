// A report is judged while it comes in: line by line, each held against the run that those before it told.
ghost use Rattle.std.specs.Prelude.{◌≡◌, ◌<◌, ◌^◌, ◌==◌, ◌∷◌, ◌++◌, [], ℕ, List, length, IfOk, OnOk};
ghost use Rattle.std.specs.Bool.{Decides};
ghost use Rattle.std.specs.List.{position};
ghost use Rattle.ken_model.specs.Game.{Game};
ghost use Rattle.ken_model.specs.Limits.{IsWithinLimits};
ghost use Rattle.ken_actors.specs.Playing.{game_for};
ghost use Rattle.ken_check.specs.Judged.{IsJudgedBy};
ghost use Rattle.ken_check.specs.Knowing.{Answers};
ghost use Rattle.ken_check.specs.Right.{IsRightLine};
ghost use Rattle.ken_check.specs.Incoming.{EndsLine, HasRead, IsInLine, IsUnderWay, IsWhole};

use crate::reader::Reader;
use crate::verdict::Verdict;
use ken_actors::Player;
use ken_model::Facts;
use std::alloc::{AllocError, Global};

/// A report that is judged while it comes in, in the memory of a played run and of a line that isn't whole yet.
#[derive(Drop)]
pub struct Judging<'a, P: Player> {
    alloc: Global,
    reader: Reader<'a, P>,
    /// The number of the line that is read, counted from 1. It may stand at 2^64 - 1.
    line: u64,
    /// What earlier pieces had of that line.
    begun: Vec<u8>,
    /// Whether that line is wrong. Then nothing behind it is looked at.
    wrong: bool,
}

impl<'a, P: Player> Judging<'a, P> {
    /// Before the first byte of a report of a run of these facts, whose turns this player makes, and whose nodes may be
    /// restarted at most `restarts` times each.
    pub fn new(
        alloc: Global,
        player: &'a P,
        facts: &'a Facts,
        restarts: u64,
    ) -> Result<Judging<'a, P>, AllocError>
        requires limits { IsWithinLimits (game_for (P.handler player.now) facts.now) }
        ensures { IfOk result (HasRead P.handler (game_for (P.handler player.now) facts.now) restarts []) }
    {
        Ok(Judging {
            alloc,
            reader: Reader::new(alloc, player, facts, restarts)?,
            line: 1,
            begun: Vec::new(alloc),
            wrong: false,
        })
    }

    /// Reads on. After an error nothing is known of it.
    pub fn read(&mut self, bytes: &[u8]) -> Result<(), AllocError>
        requires under_way { IsUnderWay P.handler self.old }
        ensures { (g : Game) (most : ℕ) (seen : List ℕ) → HasRead P.handler g most seen self.old
            → OnOk result (HasRead P.handler g most (seen ++ bytes.now) self.new) }
    {
        let mut rest = bytes;
        while !self.wrong {
            let Some(end) = line_feed_in(rest) else {
                return self.keep(rest);
            };
            self.end_line(&rest[..end])?;
            rest = &rest[end + 1..];
        }
        Ok(())
    }

    /// What the report is judged as, if it ends here. That a line is wrong is said where the player's handler decides its draws
    /// as they are drawn, as each kind does. A line past the 2^64 - 1st would be told as that one.
    pub fn verdict(&self) -> Verdict
        ensures { (g : Game) (most : ℕ) (seen : List ℕ) → HasRead P.handler g most seen self.now
            → length seen < 2 ^ 63 → IsJudgedBy g most seen result }
    {
        if self.is_whole() {
            Verdict::Right
        } else {
            Verdict::Wrong { line: self.line }
        }
    }

    /// Whether the end line was read, and nothing behind it.
    fn is_whole(&self) -> bool
        ensures { Decides result (IsWhole self.now) }
    {
        !self.wrong && self.reader.checker.ended && self.begun.is_empty()
    }

    /// Keeps a part of the line that is read, of which more may come.
    fn keep(&mut self, part: &[u8]) -> Result<(), AllocError>
        requires open_yet { IsInLine part.now self.old }
        ensures { (g : Game) (most : ℕ) (seen : List ℕ) → HasRead P.handler g most seen self.old
            → OnOk result (HasRead P.handler g most (seen ++ part.now) self.new) }
    {
        self.begun.extend_from_slice(part)
    }

    /// Judges the line that is read, whose last part this is, without the line feed behind it.
    fn end_line(&mut self, part: &[u8]) -> Result<(), AllocError>
        requires open_yet { EndsLine P.handler part.now self.old }
        ensures { (g : Game) (most : ℕ) (seen : List ℕ) → HasRead P.handler g most seen self.old
            → OnOk result (HasRead P.handler g most (seen ++ (part.now ++ 10 ∷ [])) self.new) }
    {
        if self.is_right(part)? {
            self.line = self.line.saturating_add(1);
            self.begun.clear();
        } else {
            self.wrong = true;
            self.begun = Vec::new(self.alloc);
        }
        Ok(())
    }

    /// Whether it is right. A line that lies in one piece is not copied.
    fn is_right(&mut self, part: &[u8]) -> Result<bool, AllocError>
        requires open_yet { EndsLine P.handler part.now self.old }
        ensures heard { Answers P.handler IsRightLine self.old.reader self.new.reader (self.old.begun.items ++ part.now) result }
        ensures line { self.new.line ≡ self.old.line }
        ensures wrong { self.new.wrong ≡ self.old.wrong }
    {
        if self.begun.is_empty() {
            return self.reader.line(part);
        }
        self.begun.extend_from_slice(part)?;
        self.reader.line(self.begun.as_slice())
    }
}

/// How many bytes stand before the first line feed, where there is one.
fn line_feed_in(bytes: &[u8]) -> Option<usize>
    ensures { result ≡ position (λ b. b == 10) bytes.now }
{
    bytes.iter().position(|byte| *byte == b'\n')
}
