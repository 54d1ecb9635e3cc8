// The input of a check is read in pieces, each of which is let go before the next comes.
ghost use Rattle.std.specs.Prelude.{◌≡◌, ◌<◌, ◌≤◌, length, take, IfOk, IfSome, OnOk};
ghost use Rattle.std.specs.Io.KnownBytes.{Consumes, IsAtEnd};
ghost use Rattle.ken_check.specs.Incoming.{IsUnderWay};
ghost use Rattle.ken_io.specs.Causes.{HasCause, HasReadCause};
ghost use Rattle.ken_io.specs.Transfers.{TakesAtMost};
ghost use Rattle.ken_top.specs.Pieces.{HasCome, HasJudged};

use ken_actors::Player;
use ken_check::Judging;
use ken_io::{Failed, ReadFault, Source, read_all};
use ken_model::Octets;
use std::alloc::Global;

// The most bytes of one read.
const PIECE: usize = 4096;

/// Reads the first `size` bytes, fewer where the source ends sooner.
pub(crate) fn read_front<S: Source>(
    alloc: Global,
    source: &mut S,
    size: usize,
) -> Result<Octets, ReadFault>
    ensures bytes { IfOk result (λ b. IfSome (S.left source.old) (λ xs. b ≡ take size xs)) }
    ensures given { IfOk result (λ b. Consumes (S.left source.old) (S.left source.new) b) }
    ensures few { IfOk result (λ b. length b ≤ size) }
    ensures taken { TakesAtMost size (S.left source.old) (S.left source.new) }
    ensures cause { HasReadCause (S.faults source.old) (S.faults source.new) result }
{
    if size == 0 {
        return Ok(Octets::new(Vec::new(alloc)));
    }
    read_all(alloc, source, size - 1)
}

/// Reads a report to its end, or `room` bytes of it where there are more, and has them judged. Answers how many came.
pub(crate) fn read_report<P: Player, S: Source>(
    source: &mut S,
    room: usize,
    judging: &mut Judging<'_, P>,
) -> Result<usize, ReadFault>
    requires under_way { IsUnderWay P.handler judging.old }
    ensures judged { IfOk result (HasJudged P.handler (S.left source.old) (S.left source.new) judging.old judging.new) }
    ensures ended { IfOk result (λ count. count < room → IsAtEnd (S.left source.new)) }
    ensures few { IfOk result (λ count. count ≤ room) }
    ensures taken { TakesAtMost room (S.left source.old) (S.left source.new) }
    ensures cause { HasReadCause (S.faults source.old) (S.faults source.new) result }
{
    let mut piece = [0; PIECE];
    let mut taken = 0;
    while taken < room {
        let wanted = (room - taken).min(PIECE);
        let count = judge_piece(source, &mut piece[..wanted], judging)?;
        if count == 0 {
            return Ok(taken);
        }
        taken += count;
    }
    Ok(taken)
}

/// Reads a piece of a report, and has it judged. Answers how many bytes came: none only at the end.
fn judge_piece<P: Player, S: Source>(
    source: &mut S,
    piece: &mut [u8],
    judging: &mut Judging<'_, P>,
) -> Result<usize, ReadFault>
    requires some { 0 < length piece.old }
    requires under_way { IsUnderWay P.handler judging.old }
    ensures judged { IfOk result (HasJudged P.handler (S.left source.old) (S.left source.new) judging.old judging.new) }
    ensures under_way { OnOk result (IsUnderWay P.handler judging.new) }
    ensures ended { result ≡ Ok 0 → IsAtEnd (S.left source.new) }
    ensures few { IfOk result (λ count. count ≤ length piece.old) }
    ensures taken { TakesAtMost (length piece.old) (S.left source.old) (S.left source.new) }
    ensures cause { HasReadCause (S.faults source.old) (S.faults source.new) result }
{
    let count = source.read(piece)?;
    judging.read(&piece[..count])?;
    Ok(count)
}

/// Reads on to the end, or `room` bytes where there are more, and lets them go. Answers how many came.
pub(crate) fn let_go<S: Source>(source: &mut S, room: usize) -> Result<usize, Failed>
    ensures come { IfOk result (HasCome (S.left source.old) (S.left source.new)) }
    ensures ended { IfOk result (λ count. count < room → IsAtEnd (S.left source.new)) }
    ensures few { IfOk result (λ count. count ≤ room) }
    ensures taken { TakesAtMost room (S.left source.old) (S.left source.new) }
    ensures cause { HasCause (S.faults source.old) (S.faults source.new) result }
{
    let mut piece = [0; PIECE];
    let mut taken = 0;
    while taken < room {
        let wanted = (room - taken).min(PIECE);
        let count = source.read(&mut piece[..wanted])?;
        if count == 0 {
            return Ok(taken);
        }
        taken += count;
    }
    Ok(taken)
}
