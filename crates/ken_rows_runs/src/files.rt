// The files that calls find.
use ken_files::MemFiles;
use ken_rows::{RowFault, Words};
use std::alloc::{AllocError, Global};
use std::str::from_utf8;

// The most bytes of a file.
const MOST_BYTES: usize = 1 << 24;

/// How the files of a new world are made.
#[derive(Drop)]
pub(crate) struct Shelf {
    alloc: Global,
    // The openings that fail, counted from 1.
    fails: Vec<u64>,
    // With the files that rows have laid for the next call.
    laid: Option<MemFiles>,
}

impl Shelf {
    /// There are none, and no opening fails.
    pub(crate) fn new(alloc: Global) -> Self {
        Shelf {
            alloc,
            fails: Vec::new(alloc),
            laid: None,
        }
    }

    /// Does what a row says: `fail at 2,3`.
    pub(crate) fn set(&mut self, words: &mut Words<'_>) -> Result<(), RowFault> {
        words.word()?;
        words.word()?;
        self.fails = words.numbers(self.alloc)?;
        Ok(())
    }

    /// Lays a file for the next call: its path, and its bytes as they are spelled.
    pub(crate) fn lay(&mut self, words: &mut Words<'_>) -> Result<(), RowFault> {
        let path = from_utf8(words.word()?).map_err(|_| RowFault::Usage)?;
        let bytes = words.bytes(self.alloc)?;
        if bytes.len() > MOST_BYTES {
            return Err(RowFault::Usage);
        }
        self.laid = Some(self.take()?.with_file(path, &bytes)?);
        Ok(())
    }

    /// Whether rows have laid files for the next call.
    pub(crate) fn is_laid(&self) -> bool {
        self.laid.is_some()
    }

    /// The files of a new world.
    pub(crate) fn take(&mut self) -> Result<MemFiles, AllocError> {
        match self.laid.take() {
            Some(files) => Ok(files),
            None => MemFiles::failing(self.alloc, &self.fails),
        }
    }
}
