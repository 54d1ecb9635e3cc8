// A row, and how texts and values are spelled in it.
ghost use Rattle.std.specs.Prelude.{◌≤◌, length, IfOk};

use ken_model::{Octets, Value};
use ken_rows::{Answer, RowFault, Words};
use std::alloc::Global;

// The longest text that is answered between quotes.
const LONGEST: usize = 64;

pub(crate) type Answered = Result<(), RowFault>;

/// The arguments of a row, and its answer.
#[derive(Drop)]
pub(crate) struct Row<'a, 'w> {
    pub(crate) alloc: Global,
    pub(crate) words: &'a mut Words<'w>,
    pub(crate) answer: &'a mut Answer,
}

impl Row<'_, '_> {
    /// So many bytes, or fewer.
    pub(crate) fn bytes(&mut self, most: u64) -> Result<Vec<u8>, RowFault>
        ensures { IfOk result (λ bytes. length bytes.items ≤ most) }
    {
        let bytes = self.words.bytes(self.alloc)?;
        if bytes.len() as u64 > most {
            return Err(RowFault::Usage);
        }
        Ok(bytes)
    }

    /// The rest of the row as a text: between quotes, or as bytes.
    pub(crate) fn text(&mut self) -> Result<Octets, RowFault> {
        let rest = self.words.rest()?;
        let Some(front) = rest.strip_prefix(b"\"".as_slice()) else {
            return Ok(Octets::new(Words::new(rest).bytes(self.alloc)?));
        };
        let quoted = front.strip_suffix(b"\"".as_slice());
        Ok(Octets::copied(self.alloc, quoted.ok_or(RowFault::Usage)?)?)
    }

    /// A word of the answer.
    pub(crate) fn put(&mut self, word: String) -> Answered {
        Ok(self.answer.word(word.as_str())?)
    }

    /// A text behind a word, in a line of its own: between quotes, or as bytes where it is long or has what isn't printed.
    pub(crate) fn put_text(&mut self, word: &str, text: &Octets) -> Answered {
        let text = text.as_slice();
        self.answer.word(word)?;
        let is_printed = text.iter().all(|byte| matches!(*byte, b' '..=b'~'));
        if is_printed && text.len() <= LONGEST {
            let text = String::from_utf8_lossy(self.alloc, text)?;
            self.put(format!(in self.alloc; "\"{text}\"")?)?;
        } else {
            self.answer.bytes(text)?;
        }
        Ok(self.answer.end()?)
    }

    /// The size and the root of a heap, and its blocks by their places.
    pub(crate) fn put_value(&mut self, value: &Value) -> Answered {
        self.answer.named("size", value.size)?;
        self.answer.named("root", value.root)?;
        self.answer.end()?;
        for block in value.blocks.as_slice() {
            let word = format!(in self.alloc; "block {}", block.place)?;
            self.put_text(word.as_str(), &block.bytes)?;
        }
        Ok(())
    }
}
