use ken_disk::{Disk, MAX_LEN};
use ken_memdisk::{Cut, MemDisk};
use ken_rows::{Answer, Layer, RowFault, Words};
use std::alloc::Global;
use std::fmt::Display;
use std::mem;

pub(crate) type Told = Result<(), RowFault>;

/// What the rows speak to.
#[derive(Drop)]
pub(crate) struct Disks {
    pub(crate) alloc: Global,
    /// The disk of the rows, and the other one.
    pub(crate) disk: Option<MemDisk>,
    pub(crate) other: Option<MemDisk>,
    /// Names of bytes.
    pub(crate) names: Vec<(Vec<u8>, Vec<u8>)>,
}

impl Layer for Disks {
    fn answer(&mut self, command: &[u8], words: &mut Words<'_>, answer: &mut Answer) -> Told {
        match command {
            b"let" => self.name(words),
            b"new" => self.make(words),
            b"swap" => Ok(mem::swap(&mut self.disk, &mut self.other)),
            b"format" => self.format(words, answer),
            b"seal" => self.seal(words, answer),
            b"turnover" => self.turn_over(words, answer),
            b"mount" => self.mount(false, words, answer),
            b"log" => self.mount(true, words, answer),
            b"image" => self.image(words, answer),
            b"patch" => self.patch(words, answer),
            b"load" => self.load(words, answer),
            b"decode" => self.decode(words, answer),
            b"show" => self.show(words, answer),
            b"get" => self.get(words, answer),
            b"put" => self.put(words, answer),
            b"write" => self.write(words, answer),
            b"sync" => self.sync(answer),
            b"bytes" => self.read(answer),
            b"hint" => self.hint(answer),
            b"restart" => self.restart(words),
            _ => Err(RowFault::Usage),
        }
    }
}

impl Disks {
    pub(crate) fn new(alloc: Global) -> Disks {
        Disks {
            alloc,
            disk: None,
            other: None,
            names: Vec::new(alloc),
        }
    }

    /// Tells whether a call was done, or why it wasn't.
    pub(crate) fn tell<E: Display + Drop>(&self, call: Result<(), E>, answer: &mut Answer) -> Told {
        match call {
            Ok(()) => Ok(answer.word("ok")?),
            Err(fault) => Ok(answer.word(fault.to_string(self.alloc)?.as_str())?),
        }
    }

    // A disk with at most 256 cuts.
    fn make(&mut self, words: &mut Words<'_>) -> Told {
        let mut cuts = Vec::new(self.alloc);
        for _ in 0..256 {
            if !words.has_next() {
                break;
            }
            let call = words.number()?;
            let pick = words.number()?;
            cuts.push(Cut { call, pick })?;
        }
        self.disk = Some(MemDisk::new(self.alloc, &cuts)?);
        Ok(())
    }

    fn write(&mut self, words: &mut Words<'_>, answer: &mut Answer) -> Told {
        let at = words.number()?;
        let bytes = self.changed(words)?;
        let Some(disk) = &mut self.disk else {
            return Err(RowFault::Usage);
        };
        if at > disk.len() || at > MAX_LEN || bytes.len() as u64 > MAX_LEN - at {
            return Err(RowFault::Usage);
        }
        let done = disk.write(at, &bytes);
        self.tell(done, answer)
    }

    fn sync(&mut self, answer: &mut Answer) -> Told {
        let Some(disk) = &mut self.disk else {
            return Err(RowFault::Usage);
        };
        let done = disk.sync();
        self.tell(done, answer)
    }

    fn read(&mut self, answer: &mut Answer) -> Told {
        let Some(disk) = &mut self.disk else {
            return Err(RowFault::Usage);
        };
        let mut bytes = vec![in self.alloc; 0; disk.len() as usize]?;
        match disk.read(0, &mut bytes) {
            Ok(()) => Ok(answer.bytes(&bytes)?),
            Err(fault) => self.tell(Err(fault), answer),
        }
    }

    fn restart(&mut self, words: &mut Words<'_>) -> Told {
        let pick = words.number()?;
        match &mut self.disk {
            Some(disk) => Ok(disk.restart(pick)?),
            None => Err(RowFault::Usage),
        }
    }

    fn hint(&self, answer: &mut Answer) -> Told {
        match &self.disk {
            Some(disk) => Ok(answer.number(disk.hint())?),
            None => Err(RowFault::Usage),
        }
    }
}
