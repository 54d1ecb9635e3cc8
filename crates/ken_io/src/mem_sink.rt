use crate::calls::Calls;
use crate::{Failed, Sink};
use ken_model::Items;
use std::alloc::{AllocError, Global};
use std::marker::Model;

/// A sink in memory, for tests. It takes bytes in pieces while it has room, and fails at the calls on a list.
#[derive(Debug, Drop)]
pub struct MemSink {
    bytes: Vec<u8>,
    room: usize,
    piece: usize,
    calls: Calls,
}

impl Model for MemSink {
    ghost use Rattle.std.specs.Prelude.{◌≤◌, length, vec_capacity};
    ghost use Rattle.ken_io.specs.Memory.{Writing};

    ghost Value = { Writing };

    ghost view = { λ s. record { took = s.bytes.items; room = s.room; piece = s.piece; calls = s.calls } };

    ghost invariant = { λ s. (length s.bytes.items ≤ s.room) × (s.room ≤ vec_capacity s.bytes) × (1 ≤ s.piece) };
}

impl MemSink {
    ghost use Rattle.std.specs.Prelude.{◌≡◌, ◌≤◌, IfOk, []};
    ghost use Rattle.ken_io.specs.Calls.{no_calls};

    /// A sink with room for `room` bytes, which is reserved now. A call takes at most `piece` bytes, and at least 1 of
    /// those that it is handed. It fails and takes nothing where no room is left, and where its number, counted
    /// from 1, is on the list `fails`.
    pub fn new(
        alloc: Global,
        room: usize,
        fails: Items<u64>,
        piece: usize,
    ) -> Result<Self, AllocError>
        requires { 1 ≤ piece }
        ensures { IfOk result (λ s.
            s ≡ record { took = []; room = room; piece = piece; calls = no_calls fails }) }
    {
        Ok(MemSink {
            bytes: Vec::with_capacity(alloc, room)?,
            room,
            piece,
            calls: Calls::new(fails),
        })
    }

    /// The bytes that it took.
    pub fn bytes(&self) -> &[u8]
        ensures { result.now ≡ self.now.took }
    {
        self.bytes.as_slice()
    }
}

impl Sink for MemSink {
    ghost use Rattle.std.specs.Prelude.{◌≡◌, ◌⊎◌, Some, Ok, IfOk, OnErr, IsErr, IsTrue, length};
    ghost use Rattle.std.specs.Io.{WritesAtMost};
    ghost use Rattle.std.specs.Io.KnownBytes.{WriteAppends};
    ghost use Rattle.ken_io.specs.Calls.{fails_next};
    ghost use Rattle.ken_io.specs.Memory.{taken, after_write, after_failed_write};
    ghost use Rattle.ken_io.specs.Causes.{HasCause};

    ghost took = { λ s. Some s.took };

    ghost faults = { λ s. s.calls.faults };

    fn write(&mut self, bytes: &[u8]) -> Result<usize, Failed>
        ensures bound { WritesAtMost result bytes.now }
        ensures bytes { WriteAppends (Some self.old.took) (Some self.new.took) result bytes.now }
        ensures some { result ≡ Ok 0 → length bytes.now ≡ 0 }
        ensures cause { HasCause self.old.calls.faults self.new.calls.faults result }

        // A call on the list fails, and so does one that finds no room. Each other takes as much as it may.
        ensures fails { IsTrue (fails_next self.old.calls) → IsErr result }
        ensures failed { OnErr result
            (IsTrue (fails_next self.old.calls) ⊎ (length self.old.took ≡ self.old.room)) }
        ensures count { IfOk result (λ n. n ≡ taken self.old (length bytes.now)) }
        ensures ok { IfOk result (λ n. self.new ≡ after_write self.old bytes.now n) }
        ensures err { OnErr result (self.new ≡ after_failed_write self.old) }
    {
        self.calls.begin()?;
        let room = self.room - self.bytes.len();
        let count = bytes.len().min(self.piece).min(room);
        if count == 0 && !bytes.is_empty() {
            return Err(self.calls.fail());
        }
        self.bytes.extend_from_slice(&bytes[..count]).unwrap();
        Ok(count)
    }
}
