//! What is written to: a trait with three meanings, and the call that writes a whole text.
ghost use Rattle.std.specs.Prelude.{◌≡◌, ℕ, ◌<◌, ◌≤◌, ◌↔◌, List, length, take, Option, IfOk, IsErr, OnOk, OnErr};
ghost use Rattle.gdp_io.specs.Causes.{Rose, count_after};
ghost use Rattle.gdp_io.specs.Sink.{grown, WrotePrefix};

use crate::shelves::Failed;

/// Something that takes bytes. Those that it took may be hidden.
pub trait Sink {
    /// The bytes written, where they are revealed.
    ghost written: { Self → Option (List ℕ) };

    /// A count of faults, which never falls.
    ghost faults: { Self → ℕ };

    /// Whether the last write failed.
    ghost has_failed: { Self → Type 0 };

    /// Takes at least one byte of the piece, from its front, or none and fails.
    fn write(&mut self, piece: &[u8]) -> Result<usize, Failed>
        requires { 0 < length piece.now }
        ensures bound { IfOk result (λ n. (0 < n) × (n ≤ length piece.now)) }
        ensures bytes { IfOk result (λ n. written self.new ≡ grown (written self.old) (take n piece.now)) }
        ensures none { OnErr result (written self.new ≡ written self.old) }
        ensures last { IsErr result ↔ has_failed self.new }
        ensures count { faults self.new ≡ count_after result (faults self.old) }
        ensures later { faults self.old ≤ faults self.new }
        ensures cause { OnErr result (Rose (faults self.old) (faults self.new)) };
}

/// A text was not written whole: a call of the sink failed.
#[derive(Clone, Copy, Debug, PartialEq, Eq)]
pub struct WriteFault;

/// Writes a text whole. After a fault what was written is a part of it, from its front, and nothing more is written.
pub fn write_all<K: Sink>(sink: &mut K, text: &[u8]) -> Result<(), WriteFault>
    ensures whole { OnOk result (K.written sink.new ≡ grown (K.written sink.old) text.now) }
    ensures part { OnErr result (WrotePrefix (K.written sink.old) (K.written sink.new) text.now) }
    ensures later { K.faults sink.old ≤ K.faults sink.new }
    ensures cause { OnErr result (Rose (K.faults sink.old) (K.faults sink.new)) }

    // One write failed at most, and it was the last one.
    ensures count { K.faults sink.new ≡ count_after result (K.faults sink.old) }
    ensures last { OnErr result (K.has_failed sink.new) }
{
    let mut at = 0;
    'pieces: while at < text.len() {
        match sink.write(&text[at..]) {
            Ok(count) => at += count,
            Err(_) => return Err(WriteFault),
        }
    }
    Ok(())
}
