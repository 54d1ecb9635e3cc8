// A text is written.
ghost use Rattle.std.specs.Prelude.{◌≡◌, ◌≢◌, ◌≤◌};
ghost use Rattle.ken_io.specs.Causes.{Rose};
ghost use Rattle.ken_top.specs.Headline.{IsTextOut};

use crate::status::Status;
use ken_io::{Sink, write_all};

/// Writes a text, and answers this status once all of it is out.
pub(crate) fn written<K: Sink>(sink: &mut K, text: &[u8], done: Status) -> Status
    requires { done ≢ Status.Write }
    ensures out { IsTextOut text.now done (K.took sink.old) (K.took sink.new) result }
    ensures write { result ≡ Status.Write → Rose (K.faults sink.old) (K.faults sink.new) }
    ensures no_failed_write { result ≢ Status.Write → K.faults sink.new ≡ K.faults sink.old }
    ensures faults { K.faults sink.old ≤ K.faults sink.new }
{
    match write_all(sink, text) {
        Ok(()) => done,
        Err(_) => Status::Write,
    }
}
