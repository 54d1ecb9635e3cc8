// The bytes that calls read and write.
ghost use Rattle.std.specs.Prelude.{◌≤◌};

use ken_io::{MemSink, MemSource};
use ken_model::{Items, Octets};
use ken_num::put_decimal;
use ken_rows::{RowFault, Words};
use std::alloc::{AllocError, Global};
use std::mem;

// The most items of a row.
const MAX_ITEMS: u64 = 1 << 24;
// The room of a sink, and the most bytes of a call.
const WHOLE: usize = 1 << 24;

/// How a source or a sink is made.
#[derive(Drop)]
pub(crate) struct Stream {
    // The calls that fail, counted from 1.
    fails: Vec<u64>,
    // The most bytes of a call.
    piece: usize,
    ghost some: { 1 ≤ piece },
}

impl Stream {
    /// One of which no call fails, and each gives or takes all.
    pub(crate) fn new(alloc: Global) -> Self {
        Stream {
            fails: Vec::new(alloc),
            piece: WHOLE,
        }
    }

    /// Does what a row says: `fails at 2,3`, or `gives 1 a call`.
    pub(crate) fn set(&mut self, alloc: Global, words: &mut Words<'_>) -> Result<(), RowFault> {
        if words.word()? == b"fails".as_slice() {
            words.word()?;
            self.fails = words.numbers(alloc)?;
        } else {
            self.piece = words.within(1, WHOLE as u64)? as usize;
            words.rest()?;
        }
        Ok(())
    }

    /// A source of these bytes.
    pub(crate) fn source(&self, bytes: Vec<u8>) -> Result<MemSource, AllocError> {
        let fails = Items::new(self.fails.clone()?);
        Ok(MemSource::new(Octets::new(bytes), fails, self.piece))
    }

    /// An empty sink.
    pub(crate) fn sink(&self, alloc: Global) -> Result<MemSink, AllocError> {
        MemSink::new(alloc, WHOLE, Items::new(self.fails.clone()?), self.piece)
    }
}

/// The input of the next call.
#[derive(Drop)]
pub(crate) struct Input {
    alloc: Global,
    bytes: Vec<u8>,
    pub(crate) stream: Stream,
    // What earlier calls left, where no row has made another input since.
    left: Option<MemSource>,
}

impl Input {
    /// No bytes.
    pub(crate) fn new(alloc: Global) -> Self {
        Input {
            alloc,
            bytes: Vec::new(alloc),
            stream: Stream::new(alloc),
            left: None,
        }
    }

    /// Appends what a row says: the rest of it, with a line feed behind a line; or spelled bytes; or a text so many times.
    pub(crate) fn put(&mut self, command: &[u8], words: &mut Words<'_>) -> Result<(), RowFault> {
        self.left = None;
        match command {
            b"bytes" => self.bytes.extend_from_slice(&words.bytes(self.alloc)?)?,
            b"items" => self.put_items(words.within(0, MAX_ITEMS)?, words.rest()?)?,
            b"line" if !words.has_next() => self.bytes.push(b'\n')?,
            b"line" => {
                self.bytes.extend_from_slice(words.rest()?)?;
                self.bytes.push(b'\n')?;
            }
            _ => self.bytes.extend_from_slice(words.rest()?)?,
        }
        Ok(())
    }

    // Appends a text so many times, with the numbers from 1 in the place of `@`.
    fn put_items(&mut self, count: u64, item: &[u8]) -> Result<(), AllocError> {
        for number in 1..=count {
            for byte in item {
                if *byte == b'@' {
                    put_decimal(&mut self.bytes, number)?;
                } else {
                    self.bytes.push(*byte)?;
                }
            }
        }
        Ok(())
    }

    /// The bytes that rows have appended, which are none then.
    pub(crate) fn take(&mut self) -> Vec<u8> {
        mem::replace(&mut self.bytes, Vec::new(self.alloc))
    }

    /// Takes other bytes in their place.
    pub(crate) fn set(&mut self, bytes: Vec<u8>) {
        self.left = None;
        self.bytes = bytes;
    }

    /// The source of the next call: a new one, or what the last call left.
    pub(crate) fn source(&mut self) -> Result<MemSource, AllocError> {
        match self.left.take() {
            Some(source) => Ok(source),
            None => {
                let bytes = self.take();
                self.stream.source(bytes)
            }
        }
    }

    /// Keeps what a call left.
    pub(crate) fn keep(&mut self, source: Option<MemSource>) {
        self.left = source;
    }
}
