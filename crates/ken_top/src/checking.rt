// A report is checked.
ghost use Rattle.std.specs.Prelude.{◌≡◌, ◌≢◌, ◌+◌, ◌<◌, ◌≤◌, IfOk, IfErr, IsErrOf};
ghost use Rattle.std.specs.Bool.{Decides};
ghost use Rattle.ken_io.specs.Causes.{Rose};
ghost use Rattle.ken_io.specs.Transfers.{TakesAtMost};
ghost use Rattle.ken_script.specs.Within.{KeepsRules};
ghost use Rattle.ken_top.specs.Checked.{Checks, IsJudgedOf, IsRefused};
ghost use Rattle.ken_top.specs.Headline.{HasCauses, IsQuiet};
ghost use Rattle.ken_top.specs.Pieces.{IsReportJudged, IsReportRefused, IsRoomBehind, IsScriptRefused};

use crate::cast::Cast;
use crate::incoming::{let_go, read_front, read_report};
use crate::status::Status;
use crate::writing::written;
use ken_actors::kinds_are_decided;
use ken_check::{Judging, Verdict};
use ken_io::{Sink, Source};
use ken_script::{Script, ScriptFault};
use std::alloc::Global;

/// The most bytes of a script and a report that are checked.
pub const MOST_INPUT: usize = 268_435_456;

/// Reads a script of `length` bytes, fewer where the source ends sooner, and a report behind it, and says whether each line of the report
/// is right for the script. The report is held against the script's run as it comes in, and let go.
pub(crate) fn checked<C: Cast + Drop, S: Source, K: Sink>(
    cast: C,
    alloc: Global,
    length: usize,
    source: &mut S,
    sink: &mut K,
) -> Status
    ensures checks { Checks (C.program cast) length (S.left source.old) (K.took sink.old) (K.took sink.new) result }
    ensures causes { HasCauses (S.faults source.old) (S.faults source.new) (K.faults sink.old) (K.faults sink.new) result }
    ensures taken { TakesAtMost (MOST_INPUT + 1) (S.left source.old) (S.left source.new) }
    ensures unwritten { IsQuiet result → sink.new ≡ sink.old }
{
    match judged(cast, alloc, length, source) {
        Ok(Verdict::Right) => written(sink, b"yes\n", Status::Checked),
        Ok(Verdict::Wrong { line }) => Status::Wrong { line },
        Err(status) => status,
    }
}

/// Reads a script and a report, and judges the report.
fn judged<C: Cast + Drop, S: Source>(
    cast: C,
    alloc: Global,
    length: usize,
    source: &mut S,
) -> Result<Verdict, Status>
    ensures judged { IfOk result (IsJudgedOf (C.program cast) length (S.left source.old)) }
    ensures refused { IfErr result (IsRefused (C.program cast) length (S.left source.old)) }
    ensures unwritten { IsErrOf result Status.Write → ⊥ }
    ensures read { IsErrOf result Status.Read → Rose (S.faults source.old) (S.faults source.new) }
    ensures no_failed_read { (IsErrOf result Status.Read → ⊥) → S.faults source.new ≡ S.faults source.old }
    ensures taken { TakesAtMost (MOST_INPUT + 1) (S.left source.old) (S.left source.new) }
    ensures faults { S.faults source.old ≤ S.faults source.new }
{
    let size = length.min(MOST_INPUT);
    let text = read_front(alloc, source, size)?;
    let room = room_behind(text.len(), size);
    match cast.read(alloc, text.as_slice()) {
        Ok(script) => report_judged(cast, alloc, &script, source, room),
        Err(fault) => Err(refused(source, room, fault)),
    }
}

/// How many bytes are to be read behind a script of so many, where `size` were asked for: one more than may be checked, and
/// none where the input has ended.
fn room_behind(count: usize, size: usize) -> usize
    requires { count ≤ MOST_INPUT }
    ensures { IsRoomBehind count size result }
{
    if count < size {
        0
    } else {
        MOST_INPUT + 1 - count
    }
}

/// Judges the report that is left, for a script that keeps its rules. One that takes all the room is too long.
fn report_judged<C: Cast + Drop, S: Source>(
    cast: C,
    alloc: Global,
    script: &Script,
    source: &mut S,
    room: usize,
) -> Result<Verdict, Status>
    requires rules { KeepsRules script.now }
    requires few { room ≤ MOST_INPUT + 1 }
    ensures judged { IfOk result (IsReportJudged (C.program cast) script.now room (S.left source.old) (S.left source.new)) }
    ensures refused { IfErr result (IsReportRefused room (S.left source.old) (S.left source.new)) }
    ensures read { IsErrOf result Status.Read → Rose (S.faults source.old) (S.faults source.new) }
    ensures no_failed_read { (IsErrOf result Status.Read → ⊥) → S.faults source.new ≡ S.faults source.old }
    ensures taken { TakesAtMost room (S.left source.old) (S.left source.new) }
    ensures faults { S.faults source.old ≤ S.faults source.new }
{
    kinds_are_decided();
    let player = cast.player(script);
    let mut judging = Judging::new(alloc, &player, &script.facts, script.restarts)?;
    let count = read_report(source, room, &mut judging)?;
    if is_long(count, room) {
        return Err(Status::Long);
    }
    Ok(judging.verdict())
}

/// Why nothing is judged whose script has this fault: all that is left is read first, and let go.
fn refused<S: Source>(source: &mut S, room: usize, fault: ScriptFault) -> Status
    requires few { room ≤ MOST_INPUT + 1 }
    ensures refused { IsScriptRefused fault room (S.left source.old) (S.left source.new) result }
    ensures read { result ≡ Status.Read → Rose (S.faults source.old) (S.faults source.new) }
    ensures no_failed_read { result ≢ Status.Read → S.faults source.new ≡ S.faults source.old }
    ensures taken { TakesAtMost room (S.left source.old) (S.left source.new) }
    ensures faults { S.faults source.old ≤ S.faults source.new }
{
    match let_go(source, room) {
        Ok(count) if is_long(count, room) => Status::Long,
        Ok(_) => Status::from(fault),
        Err(_) => Status::Read,
    }
}

/// Whether so many bytes are more than may be checked: they take all the room that there was for them.
fn is_long(count: usize, room: usize) -> bool
    ensures { Decides result ((0 < room) × (room ≤ count)) }
{
    0 < room && room <= count
}
