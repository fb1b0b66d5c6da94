//! Where a text goes: to `out`, or to `err`, whose faults change nothing.
ghost use Rattle.std.specs.Prelude.{◌≡◌, ◌≢◌, codes};
ghost use Rattle.gdp_io.specs.Causes.{Rose, one_more_fault};
ghost use Rattle.gdp_io.specs.Sink.{grown, WrotePrefix};
ghost use Rattle.gdp_commands.specs.Messages.{line};
ghost use Rattle.gdp_commands.specs.Replies.{text_of};
ghost use Rattle.gdp_commands.specs.Statuses.{IsOut};
ghost use Rattle.gdp_commands.specs.Streams.{Sent};

use crate::replies::Reply;
use crate::status::Status;
use gdp_io::{Sink, write_all};

/// Writes to `err`. A fault there changes nothing.
pub fn say<E: Sink>(err: &mut E, text: &[u8])
    ensures { Sent (E.written err.old) (E.written err.new) (E.faults err.old) (E.faults err.new) text.now }
{
    let _ = write_all(err, text);
}

/// Writes a reply where its status sends it, and answers that status, or `Write` where `out` failed. After that nothing
/// more goes to `out`.
pub fn deliver<K: Sink, E: Sink>(reply: &Reply, out: &mut K, err: &mut E) -> Status
    ensures status { result ≢ reply.now.status → (IsOut reply.now.status × (result ≡ Status.Write)) }
    ensures same { result ≢ Status.Write → result ≡ reply.now.status }
    ensures out { IsOut result → (K.written out.new ≡ grown (K.written out.old) (text_of reply.now)) × (E.written err.new ≡ E.written err.old) }
    ensures err { ¬ IsOut reply.now.status → (K.written out.new ≡ K.written out.old) × Sent (E.written err.old) (E.written err.new) (E.faults err.old) (E.faults err.new) (text_of reply.now) }
    ensures write { result ≢ reply.now.status → Rose (K.faults out.old) (K.faults out.new) × WrotePrefix (K.written out.old) (K.written out.new) (text_of reply.now)
        × Sent (E.written err.old) (E.written err.new) (E.faults err.old) (E.faults err.new) (line (codes "write fault")) }
    ensures unfailed { result ≢ Status.Write → K.faults out.new ≡ K.faults out.old }
    ensures stopped { result ≢ reply.now.status → (K.faults out.new ≡ one_more_fault (K.faults out.old)) × K.has_failed out.new }
{
    let text = reply.text.as_slice();
    if !reply.status.goes_out() {
        say(err, text);
        return reply.status;
    }
    match write_all(out, text) {
        Ok(()) => reply.status,
        Err(_) => {
            say(err, b"write fault\n");
            Status::Write
        }
    }
}
