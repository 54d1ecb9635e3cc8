ghost use Rattle.std.specs.Prelude.{◌≡◌, ℕ, List, length, Ok, OnOk, OnErr};
ghost use Rattle.std.specs.declared.option.Option.{Option};
ghost use Rattle.std.specs.Io.{WritesAtMost};
ghost use Rattle.std.specs.Io.KnownBytes.{Appends, WriteAppends};
ghost use Rattle.ken_io.specs.Causes.{HasCause};
ghost use Rattle.ken_io.specs.Transfers.{AppendsFront};

use crate::Failed;

/// What bytes are written to. It counts the calls that fail.
pub trait Sink {
    /// The bytes that it has taken, where the sink tells.
    ghost took: { Self → Option (List ℕ) };

    /// How many calls have failed. An implementation may let the count stand at 2^64 - 1.
    ghost faults: { Self → ℕ };

    /// Takes some bytes from the front of `bytes`, and answers how many: at least 1 where there is one. After an error
    /// it took none.
    fn write(&mut self, bytes: &[u8]) -> Result<usize, Failed>
        ensures bound { WritesAtMost result bytes.now }
        ensures bytes { WriteAppends (took self.old) (took self.new) result bytes.now }
        ensures some { result ≡ Ok 0 → length bytes.now ≡ 0 }
        ensures cause { HasCause (faults self.old) (faults self.new) result };
}

/// Writes all of `bytes`. After an error a front of them is out.
#[tactic(auto, using(crate::proofs::Moved::moved))]
pub fn write_all<K: Sink>(sink: &mut K, bytes: &[u8]) -> Result<(), Failed>
    ensures ok { OnOk result (Appends (K.took sink.old) (K.took sink.new) bytes.now) }
    ensures err { OnErr result (AppendsFront (K.took sink.old) (K.took sink.new) bytes.now) }
    ensures cause { HasCause (K.faults sink.old) (K.faults sink.new) result }
{
    let mut done = 0;
    while done < bytes.len() {
        done += sink.write(&bytes[done..])?;
    }
    Ok(())
}
