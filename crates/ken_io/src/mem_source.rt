ghost use Rattle.std.specs.Prelude.{◌≡◌, ◌++◌, length, min, take, drop};

use crate::calls::Calls;
use crate::{Failed, Source};
use ken_model::{Items, Octets};
use std::marker::Model;

/// A source in memory, for tests. It gives its bytes in pieces, and fails at the calls on a list.
#[derive(Debug, Drop)]
pub struct MemSource {
    bytes: Octets,
    // How many bytes were given.
    given: usize,
    piece: usize,
    calls: Calls,
}

impl Model for MemSource {
    ghost use Rattle.std.specs.Prelude.{◌≤◌, drop, length};
    ghost use Rattle.ken_io.specs.Memory.{Reading};

    ghost Value = { Reading };

    ghost view = { λ s. record { left = drop s.given s.bytes; piece = s.piece; calls = s.calls } };

    ghost invariant = { λ s. (s.given ≤ length s.bytes) × (1 ≤ s.piece) };
}

impl MemSource {
    ghost use Rattle.std.specs.Prelude.{◌≡◌, ◌≤◌};
    ghost use Rattle.ken_io.specs.Calls.{no_calls};

    /// A source of these bytes. A call gives at most `piece` of them, and at least 1 while there are some. The calls
    /// whose numbers are on the list `fails`, counted from 1, give nothing and fail.
    pub fn new(bytes: Octets, fails: Items<u64>, piece: usize) -> Self
        requires { 1 ≤ piece }
        ensures { result ≡ record { left = bytes; piece = piece; calls = no_calls fails } }
    {
        MemSource {
            bytes,
            given: 0,
            piece,
            calls: Calls::new(fails),
        }
    }
}

impl Source for MemSource {
    ghost use Rattle.std.specs.Prelude.{◌≡◌, ◌↔◌, Some, IfOk, OnErr, IsErr, IsTrue, length};
    ghost use Rattle.std.specs.Io.{ReadsAtMost};
    ghost use Rattle.std.specs.Io.KnownBytes.{ReadConsumes};
    ghost use Rattle.ken_io.specs.Calls.{fails_next};
    ghost use Rattle.ken_io.specs.Memory.{given, after_read, after_failed_read};
    ghost use Rattle.ken_io.specs.Causes.{HasCause};

    ghost left = { λ s. Some s.left };

    ghost faults = { λ s. s.calls.faults };

    #[tactic(auto, using(crate::proofs::Moved::given))]
    fn read(&mut self, buf: &mut [u8]) -> Result<usize, Failed>
        ensures bound { ReadsAtMost result buf.new }
        ensures bytes { ReadConsumes (Some self.old.left) (Some self.new.left) result buf.new }
        ensures cause { HasCause self.old.calls.faults self.new.calls.faults result }

        // Exactly the calls on the list fail, and each other gives as much as it may.
        ensures fails { IsErr result ↔ IsTrue (fails_next self.old.calls) }
        ensures count { IfOk result (λ n. n ≡ given self.old (length buf.old)) }
        ensures ok { IfOk result (λ n. self.new ≡ after_read self.old n) }
        ensures err { OnErr result (self.new ≡ after_failed_read self.old) }
    {
        self.calls.begin()?;
        let count = give(&self.bytes.as_slice()[self.given..], self.piece, buf);
        self.given += count;
        Ok(count)
    }
}

// Copies as many bytes as both sides and a piece allow.
fn give(left: &[u8], piece: usize, buf: &mut [u8]) -> usize
    ensures count { result ≡ min (length left.now) (min piece (length buf.old)) }
    ensures bytes { left.now ≡ take result buf.new ++ drop result left.now }
{
    let count = left.len().min(piece).min(buf.len());
    buf[..count].copy_from_slice(&left[..count]);
    count
}
