// What rows speak to.
use crate::facts::facts;
use crate::group::Group;
use bumpalo::Bump;
use ken_model::{OUTSIDE, TurnLine};
use ken_rows::{Answer, Layer, RowFault, Words};
use std::alloc::{AllocError, Global};

/// The group that is played now. What each group is of lies in the arena.
#[derive(Drop)]
pub(crate) struct Groups<'a> {
    alloc: Global,
    room: &'a Bump,
    group: Option<Group<'a>>,
}

impl<'a> Groups<'a> {
    /// No group yet.
    pub(crate) fn new(alloc: Global, room: &'a Bump) -> Self {
        Groups {
            alloc,
            room,
            group: None,
        }
    }

    fn begin(&mut self, words: &mut Words<'_>) -> Result<(), RowFault> {
        let facts = self.room.try_alloc(facts(self.alloc, words)?)?;
        self.group = Some(Group::start(self.alloc, facts)?);
        Ok(())
    }
}

impl Layer for Groups<'_> {
    fn answer(
        &mut self,
        command: &[u8],
        words: &mut Words<'_>,
        answer: &mut Answer,
    ) -> Result<(), RowFault> {
        if command == b"new".as_slice() {
            return self.begin(words);
        }
        let group = self.group.as_mut().ok_or(RowFault::Usage)?;
        match command {
            b"list" => group.list(self.alloc, words),
            b"history" => {
                for line in group.history(self.alloc)?.as_slice() {
                    put_turn(answer, line)?;
                }
                Ok(())
            }
            name => Ok(answer.flag(group.step(self.alloc, name, words)?)?),
        }
    }
}

/// Appends a turn in a line of its own.
fn put_turn(answer: &mut Answer, line: &TurnLine) -> Result<(), AllocError> {
    answer.named("stamp", line.stamp)?;
    answer.named("node", u64::from(line.step.node))?;
    if line.step.from == OUTSIDE {
        answer.word("from=outside")?;
    } else {
        answer.named("from", u64::from(line.step.from))?;
    }
    answer.named("number", line.number)?;
    answer.named_numbers("draws", line.step.draws.as_slice())?;
    answer.end()
}
