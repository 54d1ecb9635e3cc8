// A report, printed line by line.
ghost use Rattle.std.specs.Prelude.{◌≡◌, map, length, OnOk, OnErr};
ghost use Rattle.std.specs.Io.KnownBytes.{Appends};
ghost use Rattle.ken_io.specs.Transfers.{AppendsFront};
ghost use Rattle.ken_model.specs.Report.{line, end_words, text};
ghost use Rattle.ken_report.specs.Printing.{HasReportCause};
ghost use Rattle.ken_report.specs.Words.{spelled};

use crate::ReportFault;
use crate::spelling::put_end;
use crate::words::{Word, emit_words, heap_words, put_line, restart_words, turn_words};
use ken_io::{Sink, write_all};
use ken_model::Lines;
use std::alloc::Global;

/// Prints a report. After an error a front of its text is out.
pub fn print<K: Sink>(alloc: Global, sink: &mut K, lines: &Lines) -> Result<(), ReportFault>
    ensures written { OnOk result (Appends (K.took sink.old) (K.took sink.new) (text lines.now)) }
    ensures front { OnErr result (AppendsFront (K.took sink.old) (K.took sink.new) (text lines.now)) }
    ensures cause { HasReportCause (K.faults sink.old) (K.faults sink.new) result }
{
    let mut buffer = Vec::new(alloc);
    for turn in lines.turns.as_slice() {
        print_line(sink, &mut buffer, &turn_words(turn))?;
    }
    for emission in lines.emissions.as_slice() {
        print_line(sink, &mut buffer, &emit_words(emission))?;
    }
    for restart in lines.restarts.as_slice() {
        print_line(sink, &mut buffer, &restart_words(restart))?;
    }
    for (node, heap) in lines.heaps.as_slice().iter().enumerate() {
        print_line(sink, &mut buffer, &heap_words(alloc, node as u64, heap)?)?;
    }
    print_end(sink, &mut buffer, lines)
}

fn print_end<K: Sink>(sink: &mut K, buffer: &mut Vec<u8>, lines: &Lines) -> Result<(), ReportFault>
    ensures written { OnOk result (Appends (K.took sink.old) (K.took sink.new) (line (end_words lines.now.ending (length lines.now.turns) lines.now.waiting))) }
    ensures front { OnErr result (AppendsFront (K.took sink.old) (K.took sink.new) (line (end_words lines.now.ending (length lines.now.turns) lines.now.waiting))) }
    ensures cause { HasReportCause (K.faults sink.old) (K.faults sink.new) result }
{
    buffer.clear();
    put_end(
        buffer,
        lines.ending,
        lines.turns.len() as u64,
        lines.waiting,
    )?;
    write_all(sink, buffer.as_slice())?;
    Ok(())
}

/// Prints a line of these words. What the buffer held is lost.
fn print_line<K: Sink>(
    sink: &mut K,
    buffer: &mut Vec<u8>,
    words: &[Word<'_>],
) -> Result<(), ReportFault>
    ensures written { OnOk result (Appends (K.took sink.old) (K.took sink.new) (line (map spelled words.now))) }
    ensures front { OnErr result (AppendsFront (K.took sink.old) (K.took sink.new) (line (map spelled words.now))) }
    ensures cause { HasReportCause (K.faults sink.old) (K.faults sink.new) result }
{
    buffer.clear();
    put_line(buffer, words)?;
    Ok(write_all(sink, buffer.as_slice())?)
}
