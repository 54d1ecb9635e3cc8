// The rows.
use crate::calls::step;
use crate::disks::read;
use crate::stores::{Row, Stage, Stores};
use ken_rows::{Answer, Layer, RowFault, Words};
use std::mem;

impl Layer for Stores {
    fn answer(&mut self, command: &[u8], words: &mut Words<'_>, answer: &mut Answer) -> Row {
        if command != b"do".as_slice() {
            return self.act(command, words, answer);
        }
        for part in words.rest()?.split(|byte| *byte == b';') {
            let mut words = Words::new(part);
            let command = words.word()?;
            self.act(command, &mut words, answer)?;
            words.end()?;
            if matches!(&self.stage, Stage::Down(_)) {
                break;
            }
        }
        Ok(())
    }
}

impl Stores {
    fn act(&mut self, command: &[u8], words: &mut Words<'_>, answer: &mut Answer) -> Row {
        match command {
            b"new" => self.anew(words, answer),
            b"recover" => self.come_up(read(self.alloc, false, words)?, answer),
            b"crash" => self.restart(Some(words.number()?), answer),
            b"restart" => self.restart(None, answer),
            b"log" => self.log(answer),
            b"value" => self.value(answer),
            _ => self.call(command, words, answer),
        }
    }

    // A call of the store. Its words are numbers.
    fn call(&mut self, name: &[u8], words: &mut Words<'_>, answer: &mut Answer) -> Row {
        let mut args = Vec::new(self.alloc);
        for _ in 0..32 {
            if words.has_next() {
                args.push(words.number()?)?;
            }
        }
        let stage = mem::replace(&mut self.stage, Stage::Absent);
        let (told, stage) = step(self.alloc, stage, name, &args);
        // What is forgotten is absent.
        mem::forget(mem::replace(&mut self.stage, stage));
        let (name, outcome) = told.ok_or(RowFault::Usage)?;
        match outcome {
            Ok(number) => Ok(answer.named(name, number)?),
            Err(fault) => self.tell_fault(fault, answer),
        }
    }
}
