use crate::spelling::{is_plain_text, put_bytes};
use ken_num::put_decimal;
use std::alloc::{AllocError, Global};

// What stands before each line of an answer.
const INDENT: &[u8] = b"  ";

/// A transcript, which grows by words. The words of an answer stand in lines of their own, each behind two spaces.
#[derive(Drop)]
pub struct Answer {
    bytes: Vec<u8>,
    // Whether the last line has words, and so no line feed yet.
    is_open: bool,
}

impl Answer {
    /// A transcript of nothing.
    pub(crate) fn new(alloc: Global) -> Self {
        Answer {
            bytes: Vec::new(alloc),
            is_open: false,
        }
    }

    /// What was written so far.
    pub(crate) fn as_slice(&self) -> &[u8] {
        self.bytes.as_slice()
    }

    /// Forgets what was written.
    pub(crate) fn clear(&mut self) {
        self.bytes.clear();
    }

    /// Appends a row as it was read.
    pub(crate) fn row(&mut self, row: &[u8]) -> Result<(), AllocError> {
        self.bytes.extend_from_slice(row)?;
        Ok(self.bytes.push(b'\n')?)
    }

    // Begins a line, or parts a word from the one before it.
    fn part(&mut self) -> Result<(), AllocError> {
        if self.is_open {
            Ok(self.bytes.push(b' ')?)
        } else {
            self.is_open = true;
            self.bytes.extend_from_slice(INDENT)
        }
    }

    /// Ends a line. A line of no words isn't written.
    pub fn end(&mut self) -> Result<(), AllocError> {
        if self.is_open {
            self.is_open = false;
            self.bytes.push(b'\n')?;
        }
        Ok(())
    }

    /// Appends a word.
    pub fn word(&mut self, word: &str) -> Result<(), AllocError> {
        self.part()?;
        self.bytes.extend_from_slice(word.as_bytes())
    }

    /// Appends a word with an equals sign behind it. What is appended next stands right behind it.
    fn name(&mut self, name: &str) -> Result<(), AllocError> {
        self.word(name)?;
        Ok(self.bytes.push(b'=')?)
    }

    /// Appends `yes` or `no`.
    pub fn flag(&mut self, is_so: bool) -> Result<(), AllocError> {
        self.word(if is_so { "yes" } else { "no" })
    }

    /// Appends a number.
    pub fn number(&mut self, number: u64) -> Result<(), AllocError> {
        self.part()?;
        put_decimal(&mut self.bytes, number)
    }

    /// Appends a number behind its name, as `turn=7`.
    pub fn named(&mut self, name: &str, number: u64) -> Result<(), AllocError> {
        self.name(name)?;
        put_decimal(&mut self.bytes, number)
    }

    /// Appends numbers with commas between them, or `-` for none.
    pub fn numbers(&mut self, numbers: &[u64]) -> Result<(), AllocError> {
        self.part()?;
        self.list(numbers)
    }

    /// Appends numbers behind their name, as `sent=0,2`.
    pub fn named_numbers(&mut self, name: &str, numbers: &[u64]) -> Result<(), AllocError> {
        self.name(name)?;
        self.list(numbers)
    }

    fn list(&mut self, numbers: &[u64]) -> Result<(), AllocError> {
        let Some((first, others)) = numbers.split_first() else {
            return Ok(self.bytes.push(b'-')?);
        };
        put_decimal(&mut self.bytes, *first)?;
        for number in others {
            self.bytes.push(b',')?;
            put_decimal(&mut self.bytes, *number)?;
        }
        Ok(())
    }

    /// Appends bytes in hexadecimal, from eight equal ones on as a run (`00*256`); `-` for none.
    pub fn bytes(&mut self, bytes: &[u8]) -> Result<(), AllocError> {
        self.part()?;
        put_bytes(&mut self.bytes, bytes)
    }

    /// Appends bytes behind their name.
    pub fn named_bytes(&mut self, name: &str, bytes: &[u8]) -> Result<(), AllocError> {
        self.name(name)?;
        put_bytes(&mut self.bytes, bytes)
    }

    /// Appends a text behind a quote, as `'abc`; as bytes where it has a space, a dot or what isn't printed.
    pub fn text(&mut self, text: &[u8]) -> Result<(), AllocError> {
        self.part()?;
        self.quote(text)
    }

    /// Appends a text behind its name.
    pub fn named_text(&mut self, name: &str, text: &[u8]) -> Result<(), AllocError> {
        self.name(name)?;
        self.quote(text)
    }

    fn quote(&mut self, text: &[u8]) -> Result<(), AllocError> {
        if is_plain_text(text) {
            self.bytes.push(b'\'')?;
            self.bytes.extend_from_slice(text)
        } else {
            put_bytes(&mut self.bytes, text)
        }
    }

    /// Appends each line of a text of several as a line of the answer.
    pub fn lines(&mut self, text: &[u8]) -> Result<(), AllocError> {
        self.end()?;
        for line in text.split(|byte| *byte == b'\n') {
            if !line.is_empty() {
                self.part()?;
                self.bytes.extend_from_slice(line)?;
                self.end()?;
            }
        }
        Ok(())
    }
}
