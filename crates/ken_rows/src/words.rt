ghost use Rattle.std.specs.Prelude.{◌≤◌, IfOk};

use crate::RowFault;
use crate::spelling::push_run;
use ken_num::decimal;
use std::alloc::Global;

/// The words of a line, which are read from its front. There is a space between two.
#[derive(Clone, Copy, Debug, Drop)]
pub struct Words<'a> {
    left: Option<&'a [u8]>,
}

impl<'a> Words<'a> {
    /// The words of a line without its line feed.
    pub fn new(line: &'a [u8]) -> Self {
        Words { left: Some(line) }
    }

    /// Whether a word is left.
    pub fn has_next(&self) -> bool {
        self.left.is_some()
    }

    /// All that is left of the line, with its spaces: at least one word.
    pub fn rest(&mut self) -> Result<&'a [u8], RowFault> {
        self.left.take().ok_or(RowFault::Usage)
    }

    /// The next word, which may be empty.
    pub fn word(&mut self) -> Result<&'a [u8], RowFault> {
        let left = self.rest()?;
        match left.iter().position(|byte| *byte == b' ') {
            Some(at) => {
                self.left = Some(&left[at + 1..]);
                Ok(&left[..at])
            }
            None => Ok(left),
        }
    }

    /// That no word is left.
    pub fn end(&self) -> Result<(), RowFault> {
        match self.left {
            Some(_) => Err(RowFault::Usage),
            None => Ok(()),
        }
    }

    /// A number of 64 bits.
    pub fn number(&mut self) -> Result<u64, RowFault> {
        decimal(self.word()?).ok_or(RowFault::Usage)
    }

    /// A number from `least` to `most`.
    pub fn within(&mut self, least: u64, most: u64) -> Result<u64, RowFault>
        ensures { IfOk result (λ n. (least ≤ n) × (n ≤ most)) }
    {
        let number = self.number()?;
        if number < least || number > most {
            return Err(RowFault::Usage);
        }
        Ok(number)
    }

    /// Numbers with commas between them; `-` for none.
    pub fn numbers(&mut self, alloc: Global) -> Result<Vec<u64>, RowFault> {
        let word = self.word()?;
        let mut numbers = Vec::new(alloc);
        if word == b"-".as_slice() {
            return Ok(numbers);
        }
        for part in word.split(|byte| *byte == b',') {
            numbers.push(decimal(part).ok_or(RowFault::Usage)?)?;
        }
        Ok(numbers)
    }

    /// Bytes: runs with dots between them, or `-` for none. A run is bytes in hexadecimal, such bytes and how often they stand
    /// behind one another, as `00*256`, or a text behind a quote, as `'abc`.
    pub fn bytes(&mut self, alloc: Global) -> Result<Vec<u8>, RowFault> {
        let word = self.word()?;
        let mut bytes = Vec::new(alloc);
        if word == b"-".as_slice() {
            return Ok(bytes);
        }
        for run in word.split(|byte| *byte == b'.') {
            push_run(alloc, &mut bytes, run)?;
        }
        Ok(bytes)
    }
}
