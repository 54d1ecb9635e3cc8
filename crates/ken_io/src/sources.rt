ghost use Rattle.std.specs.Prelude.{◌≡◌, ◌+◌, ◌≤◌, ℕ, List, length, take, IfOk, IfSome};
ghost use Rattle.std.specs.declared.option.Option.{Option};
ghost use Rattle.std.specs.Io.{ReadsAtMost};
ghost use Rattle.std.specs.Io.KnownBytes.{Consumes, ReadConsumes};
ghost use Rattle.ken_io.specs.Causes.{HasCause, HasReadCause};
ghost use Rattle.ken_io.specs.Transfers.{TakesAtMost};

use crate::{Failed, ReadFault};
use ken_model::Octets;
use std::alloc::Global;

/// What bytes are read from. It counts the calls that fail.
pub trait Source {
    /// The bytes that reads give from here on, where the source tells.
    ghost left: { Self → Option (List ℕ) };

    /// How many calls have failed. An implementation may let the count stand at 2^64 - 1.
    ghost faults: { Self → ℕ };

    /// Reads into the front of `buf`, and answers how many bytes. 0 bytes into a `buf` that isn't empty are the end of
    /// the input. After an error nothing was taken from the source.
    fn read(&mut self, buf: &mut [u8]) -> Result<usize, Failed>
        ensures bound { ReadsAtMost result buf.new }
        ensures bytes { ReadConsumes (left self.old) (left self.new) result buf.new }
        ensures cause { HasCause (faults self.old) (faults self.new) result };
}

// The most bytes of one read.
const CHUNK: usize = 4096;

/// Reads a source to its end, but `limit + 1` bytes at most: so a caller that gets more than `limit` knows that the
/// input is too long. After an error what was read is gone.
#[tactic(auto, using(crate::proofs::Moved::moved))]
pub fn read_all<S: Source>(alloc: Global, source: &mut S, limit: usize) -> Result<Octets, ReadFault>
    ensures bytes { IfOk result (λ b. IfSome (S.left source.old) (λ xs. b ≡ take (limit + 1) xs)) }
    ensures given { IfOk result (λ b. Consumes (S.left source.old) (S.left source.new) b) }
    ensures few { IfOk result (λ b. length b ≤ limit + 1) }
    ensures taken { TakesAtMost (limit + 1) (S.left source.old) (S.left source.new) }
    ensures cause { HasReadCause (S.faults source.old) (S.faults source.new) result }
{
    let mut all = Vec::new(alloc);
    let mut chunk = [0; CHUNK];
    while all.len() <= limit {
        let wanted = (limit - all.len()).min(CHUNK - 1) + 1;
        let count = source.read(&mut chunk[..wanted])?;
        if count == 0 {
            break;
        }
        all.extend_from_slice(&chunk[..count])?;
    }
    Ok(Octets::new(all))
}
