// Heap lines.
ghost use Rattle.std.specs.Prelude.{◌≡◌};
ghost use Rattle.ken_check.specs.Kinds.{IsHeapLine};
ghost use Rattle.ken_check.specs.Knowing.{Answers, IsFollowing};

use crate::checker::is_line;
use crate::reader::Reader;
use ken_actors::Player;
use ken_report::put_heap;
use std::alloc::AllocError;

impl<'a, P: Player> Reader<'a, P> {
    /// Whether the next line is right as a heap line.
    pub(crate) fn heap(&mut self, text: &[u8]) -> Result<bool, AllocError>
        requires following { IsFollowing P.handler self.old }
        ensures { Answers P.handler (λ g _. IsHeapLine g) self.old self.new text.now result }
    {
        let checker = &mut self.checker;
        if checker.ended || checker.heaps >= checker.facts.nodes {
            return Ok(false);
        }
        let value = self.actors.value(checker.heaps)?;
        checker.buffer.clear();
        put_heap(
            checker.alloc,
            &mut checker.buffer,
            u64::from(checker.heaps),
            &value,
        )?;
        if !is_line(checker.buffer.as_slice(), text) {
            return Ok(false);
        }
        checker.heaps += 1;
        Ok(true)
    }
}
