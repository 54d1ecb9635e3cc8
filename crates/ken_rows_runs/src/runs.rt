// What rows speak to.
use crate::calls::{Asked, Program, Ran, push_words};
use crate::files::Shelf;
use crate::scripts::{tell_command, tell_drawn, tell_list, tell_read, tell_tormented};
use crate::streams::{Input, Stream};
use ken_drive::MemWorld;
use ken_rows::{Answer, Layer, RowFault, Words};
use ken_script::Script;
use std::alloc::Global;

/// The next call's input, output and files, and what the last call left.
#[derive(Drop)]
pub(crate) struct Runs {
    alloc: Global,
    // Makes calls. It holds the handle that they need.
    make: Box<dyn Fn(Asked) -> Ran + Drop>,
    program: Program,
    input: Input,
    output: Stream,
    files: Shelf,
    last: Option<Ran>,
    // The script that was read last.
    script: Option<Script>,
    ghost ready: { IsAlwaysCallable make },
}

impl Runs {
    /// Before the first row.
    pub(crate) fn new(alloc: Global, make: Box<dyn Fn(Asked) -> Ran + Drop>) -> Self
        requires { IsAlwaysCallable make }
    {
        Runs {
            alloc,
            make,
            program: Program::Ken,
            input: Input::new(alloc),
            output: Stream::new(alloc),
            files: Shelf::new(alloc),
            last: None,
            script: None,
        }
    }

    // The world of the last call, where rows have laid no files since.
    fn last_world(&mut self) -> Option<MemWorld> {
        if self.files.is_laid() {
            return None;
        }
        Some(self.last.take()?.into_world())
    }

    // Calls the program over the input, with the words of a row behind its name.
    fn call(&mut self, words: &mut Words<'_>) -> Result<Ran, RowFault> {
        let mut list = Vec::new(self.alloc);
        list.push(String::from_str(self.alloc, "ken")?)?;
        push_words(self.alloc, &mut list, words)?;
        let source = self.input.source()?;
        let sink = self.output.sink(self.alloc)?;
        let last = self.last_world();
        let files = self.files.take()?;
        let mut ran = (self.make)(Asked {
            program: self.program,
            words: list,
            source,
            sink,
            files,
            last,
        });
        self.input.keep(ran.source.take());
        Ok(ran)
    }

    // Runs a script by these words, and checks the report.
    fn run_and_check(&mut self, words: &[u8]) -> Result<Ran, RowFault> {
        let mut text = self.input.take();
        self.input.set(text.clone()?);
        let ran = self.call(&mut Words::new(words))?;
        let words = format!(in self.alloc; "check {}", text.len())?;
        text.extend_from_slice(ran.sink.bytes())?;
        self.input.set(text);
        self.call(&mut Words::new(words.as_bytes()))
    }

    // Makes the call that a row asks for, over a script of one line where it has one, and answers it.
    fn answer_call(
        &mut self,
        command: &[u8],
        words: &mut Words<'_>,
        answer: &mut Answer,
    ) -> Result<(), RowFault> {
        let ran = match command {
            b"ken" => self.call(words)?,
            b"run" => {
                self.input.put(b"line", words)?;
                self.call(&mut Words::new(command))?
            }
            b"right" => {
                self.input.put(b"line", words)?;
                self.run_and_check(b"run")?
            }
            b"torment" => {
                let seed = words.number()?;
                self.input.put(b"line", words)?;
                let words = format!(in self.alloc; "torment {seed}")?;
                self.run_and_check(words.as_bytes())?
            }
            _ => return Err(RowFault::Usage),
        };
        ran.tell(self.alloc, answer)?;
        self.last = Some(ran);
        Ok(())
    }
}

impl Layer for Runs {
    fn answer(
        &mut self,
        command: &[u8],
        words: &mut Words<'_>,
        answer: &mut Answer,
    ) -> Result<(), RowFault> {
        match command {
            b"new" => {
                self.program = Program::Ken;
                self.input = Input::new(self.alloc);
                self.output = Stream::new(self.alloc);
                self.files = Shelf::new(self.alloc);
            }
            b"program" => {
                self.program = Program::of(words.word()?).ok_or(RowFault::Usage)?;
            }
            b"text" | b"line" | b"bytes" | b"items" => self.input.put(command, words)?,
            b"source" => self.input.stream.set(self.alloc, words)?,
            b"sink" => self.output.set(self.alloc, words)?,
            b"files" => self.files.set(words)?,
            b"file" => self.files.lay(words)?,
            b"kept" => {
                let ran = self.last.as_ref().ok_or(RowFault::Usage)?;
                ran.tell_kept(answer)?;
            }
            b"words" => tell_command(self.alloc, words, answer)?,
            b"read" => {
                if words.has_next() {
                    self.input.put(b"text", words)?;
                }
                self.script = tell_read(self.alloc, &self.input.take(), answer)?;
            }
            b"drawn" => self.script = Some(tell_drawn(self.alloc, words, answer)?),
            b"tormented" => self.script = Some(tell_tormented(self.alloc, words, answer)?),
            b"list" => {
                let script = self.script.as_ref().ok_or(RowFault::Usage)?;
                tell_list(script, words, answer)?;
            }
            _ => self.answer_call(command, words, answer)?,
        }
        Ok(())
    }
}
