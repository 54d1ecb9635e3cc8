use crate::{Answer, RowFault, Words};
use ken_io::{Sink, StdSink, StdSource, read_all, write_all};
use std::process::ExitCode;

// The most bytes of standard input.
const MOST_INPUT: usize = 1 << 30;
// How many bytes of a transcript are written at once.
const PIECE: usize = 1 << 16;

/// What a program's rows speak to. Its state stands from row to row.
pub trait Layer {
    /// Answers a command with these arguments.
    fn answer(
        &mut self,
        command: &[u8],
        words: &mut Words<'_>,
        answer: &mut Answer,
    ) -> Result<(), RowFault>;
}

/// Answers each row of standard input in order, and writes the transcript to standard output. A row that begins with `#`, and an
/// empty one, are no commands: they are written as they are. Where a row can't be answered, the rows before it are, and a line on
/// standard error says which it is and why.
pub fn transcribe<L: Layer>(rt: &HostRuntime, layer: &mut L) -> ExitCode {
    let mut row = 0_u64;
    match answer_all(rt, layer, &mut row) {
        Ok(()) => ExitCode::SUCCESS,
        Err(fault) => {
            let _ = eprintln!(rt; "row {row}: {fault}");
            ExitCode::from(fault.exit_code())
        }
    }
}

fn answer_all<L: Layer>(rt: &HostRuntime, layer: &mut L, row: &mut u64) -> Result<(), RowFault> {
    let mut source = StdSource::new(rt.stdin());
    let mut sink = StdSink::new(rt.stdout());
    let input = read_all(rt.alloc(), &mut source, MOST_INPUT)?;
    let mut answer = Answer::new(rt.alloc());
    let answered = answer_rows(layer, input.as_slice(), row, &mut answer, &mut sink);
    write_all(&mut sink, answer.as_slice())?;
    answered
}

fn answer_rows<L: Layer, K: Sink>(
    layer: &mut L,
    input: &[u8],
    row: &mut u64,
    answer: &mut Answer,
    sink: &mut K,
) -> Result<(), RowFault> {
    let input = input.strip_suffix(b"\n".as_slice()).unwrap_or(input);
    for line in input.split(|byte| *byte == b'\n') {
        *row = row.saturating_add(1);
        answer.row(line)?;
        answer_row(layer, line, answer)?;
        answer.end()?;
        if answer.as_slice().len() >= PIECE {
            write_all(sink, answer.as_slice())?;
            answer.clear();
        }
    }
    Ok(())
}

fn answer_row<L: Layer>(layer: &mut L, line: &[u8], answer: &mut Answer) -> Result<(), RowFault> {
    if line.is_empty() || line.starts_with(b"#") {
        return Ok(());
    }
    let mut words = Words::new(line);
    let command = words.word()?;
    layer.answer(command, &mut words, answer)?;
    words.end()
}
