// Bytes of rows.
use crate::disks::{Disks, Told};
use ken_rows::{RowFault, Words};

impl Disks {
    pub(crate) fn name(&mut self, words: &mut Words<'_>) -> Told {
        let name = Vec::from_slice(self.alloc, words.word()?)?;
        let bytes = self.bytes(words)?;
        Ok(self.names.push((name, bytes))?)
    }

    /// Bytes: runs and names with dots between them.
    pub(crate) fn bytes(&self, words: &mut Words<'_>) -> Result<Vec<u8>, RowFault> {
        let mut bytes = Vec::new(self.alloc);
        for run in words.word()?.split(|byte| *byte == b'.') {
            match self.names.iter().find(|named| named.0.as_slice() == run) {
                Some(named) => bytes.extend_from_slice(&named.1)?,
                None => bytes.extend_from_slice(&Words::new(run).bytes(self.alloc)?)?,
            }
        }
        Ok(bytes)
    }

    /// Bytes, perhaps with a place and others that stand from there on in their place.
    pub(crate) fn changed(&self, words: &mut Words<'_>) -> Result<Vec<u8>, RowFault> {
        let mut bytes = self.bytes(words)?;
        if words.has_next() {
            let place = words.number()? as usize;
            let change = self.bytes(words)?;
            if place > bytes.len() || change.len() > bytes.len() - place {
                return Err(RowFault::Usage);
            }
            bytes[place..place + change.len()].copy_from_slice(&change);
        }
        Ok(bytes)
    }
}
