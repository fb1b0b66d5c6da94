//! What a text is written to.

ghost use Rattle.std.specs.Prelude.{◌≡◌, ℕ, List, Option, OnOk, OnErr};
ghost use Rattle.gdp_io.specs.Sink.{grown};
ghost use Rattle.text_printer.specs.Outputs.{IsCutShort};

use gdp_io::Text;
use outcomes::Memory;
use std::alloc::Global;

/// Something that a text is written to, piece by piece: a text in memory, or what passes the pieces on.
pub trait Output {
    /// The bytes put so far, where they are revealed.
    ghost written: { Self → Option (List ℕ) };

    /// Why it takes no more.
    type Stop;

    /// Puts a piece behind what was put before. Where it stops, a part of both is there.
    fn put(&mut self, alloc: Global, piece: &[u8]) -> Result<(), Self::Stop>
        ensures whole { OnOk result (written self.new ≡ grown (written self.old) piece.now) }
        ensures part { OnErr result (IsCutShort (written self.old) (written self.new) piece.now) };
}

impl Output for Text {
    ghost use Rattle.std.specs.Prelude.{Some};

    ghost written = { λ text. Some text };

    type Stop = Memory;

    fn put(&mut self, alloc: Global, piece: &[u8]) -> Result<(), Memory> {
        self.append(alloc, piece)
    }
}
