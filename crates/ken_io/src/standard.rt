// The adapters over the real input and output.
use crate::{Failed, Sink, Source};
use std::io::{Read, Write};

/// A source over a reader, as `HostRuntime`'s `stdin()`. It tells what the reader tells, which for standard input is
/// nothing.
#[derive(Drop)]
pub struct StdSource<R> {
    input: R,
    faults: u64,
}

impl<R: Read> StdSource<R> {
    ghost use Rattle.std.specs.Prelude.{◌≡◌};

    pub fn new(input: R) -> Self
        ensures { result ≡ record { input = input; faults = 0 } }
    {
        StdSource { input, faults: 0 }
    }
}

impl<R: Read> Source for StdSource<R> {
    ghost left = { λ s. R.remaining s.input };

    ghost faults = { λ s. s.faults };

    fn read(&mut self, buf: &mut [u8]) -> Result<usize, Failed> {
        match self.input.read(buf) {
            Ok(count) => Ok(count),
            Err(_) => {
                self.faults = self.faults.saturating_add(1);
                Err(Failed)
            }
        }
    }
}

/// A sink over a writer, as `HostRuntime`'s `stdout()`, which keeps no buffer: what it took is out. It tells what the
/// writer tells, which for standard output is nothing.
#[derive(Drop)]
pub struct StdSink<W> {
    output: W,
    faults: u64,
}

impl<W: Write> StdSink<W> {
    ghost use Rattle.std.specs.Prelude.{◌≡◌};

    pub fn new(output: W) -> Self
        ensures { result ≡ record { output = output; faults = 0 } }
    {
        StdSink { output, faults: 0 }
    }
}

impl<W: Write> Sink for StdSink<W> {
    ghost took = { λ s. W.contents s.output };

    ghost faults = { λ s. s.faults };

    fn write(&mut self, bytes: &[u8]) -> Result<usize, Failed> {
        match self.output.write(bytes) {
            Ok(count) if count > 0 || bytes.is_empty() => Ok(count),
            Ok(_) | Err(_) => {
                self.faults = self.faults.saturating_add(1);
                Err(Failed)
            }
        }
    }
}
