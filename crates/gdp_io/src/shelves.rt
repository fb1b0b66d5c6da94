//! What is read from: a trait with five meanings, and the call that reads a whole text.
ghost use Rattle.std.specs.Prelude.{◌≡◌, ℕ, ◌<◌, ◌≤◌, ◌+◌, List, [], ◌∷◌, length, take, IfOk, OnOk, OnErr, IsErrOf};
ghost use Rattle.std.specs.Io.{ReadsAtMost};
ghost use Rattle.gdp_io.specs.Causes.{Rose, NoneFell};
ghost use Rattle.gdp_io.specs.Shelf.{Contents, SameContents, SameOpen, Begins, Reads, OpensNone, OpensOne, OpensFirst, IsBehind, IsPast};

use crate::texts::Text;
use outcomes::Memory;
use std::alloc::Global;

/// A call of a shelf or a sink failed.
#[derive(Clone, Copy, Debug, PartialEq, Eq)]
pub struct Failed;

/// Something that holds contents behind names. The contents, the place and the names that were opened may be hidden.
pub trait Shelf {
    /// The contents behind each name, where they are revealed.
    ghost contents: { Self → Contents };

    /// Whether the place is this offset in the contents of this name. Where it is hidden, no name and offset is.
    ghost is_at: { Self → List ℕ → ℕ → Type 0 };

    /// Which names are open.
    ghost is_open: { Self → List ℕ → Type 0 };

    /// Whether these are the names that were opened so far, in order. Where they are hidden, no list is. A call of
    /// `begin` that fails may or may not count.
    ghost is_opened: { Self → List (List ℕ) → Type 0 };

    /// For each name a count of faults, which never falls.
    ghost faults: { Self → List ℕ → ℕ };

    /// Opens a name, at its front.
    fn begin(&mut self, name: &str) -> Result<(), Failed>
        ensures opens { OnOk result (is_open self.new name.now) }
        ensures begins { OnOk result (Begins (contents self.old) (is_at self.new) name.now) }
        ensures closed { OnErr result ((other : List ℕ) → is_open self.new other → ⊥) }
        ensures opened { OnOk result (OpensOne (is_opened self.old) (is_opened self.new) name.now) }
        ensures tried { OnErr result (OpensFirst (is_opened self.old) (is_opened self.new) (name.now ∷ [])) }
        ensures contents { SameContents (contents self.old) (contents self.new) }
        ensures later { NoneFell (faults self.old) (faults self.new) }
        ensures cause { OnErr result (Rose (faults self.old name.now) (faults self.new name.now)) };

    /// Reads from the place on: at least one byte of what is left, and 0 only at the end.
    fn read(&mut self, into: &mut [u8]) -> Result<usize, Failed>
        requires is_open { (name : List ℕ) × is_open self.old name }
        requires room { 0 < length into.old }
        ensures bound { ReadsAtMost result into.new }
        ensures reads { IfOk result (λ n. Reads (contents self.old) (is_at self.old) (is_at self.new) (take n into.new)) }
        ensures is_open { SameOpen (is_open self.old) (is_open self.new) }
        ensures opened { OpensNone (is_opened self.old) (is_opened self.new) }
        ensures contents { SameContents (contents self.old) (contents self.new) }
        ensures later { NoneFell (faults self.old) (faults self.new) }
        ensures cause { OnErr result ((name : List ℕ) → is_open self.old name → Rose (faults self.old name) (faults self.new name)) };
}

/// Why a text was not read: a call of the shelf failed, the text is longer than the limit, or memory ran out.
#[derive(Clone, Copy, Debug, PartialEq, Eq)]
pub enum ReadAllError {
    Read,
    TooLong,
    Memory,
}

/// Reads the text behind a name whole, up to a limit of bytes. One byte past it is read, and refuses it.
pub fn read_all<S: Shelf>(
    alloc: Global,
    shelf: &mut S,
    name: &str,
    limit: u64,
) -> Result<Text, ReadAllError>
    // What was read is all the contents.
    ensures text { IfOk result (λ text. IsBehind (S.contents shelf.old) name.now text) }
    ensures within { IfOk result (λ text. length text ≤ limit) }
    ensures too_long { IsErrOf result ReadAllError.TooLong → IsPast (S.contents shelf.old) (S.is_at shelf.new) name.now limit }
    ensures read { IsErrOf result ReadAllError.Read → Rose (S.faults shelf.old name.now) (S.faults shelf.new name.now) }
    ensures contents { SameContents (S.contents shelf.old) (S.contents shelf.new) }
    ensures later { NoneFell (S.faults shelf.old) (S.faults shelf.new) }

    // The name is opened once, and no other.
    ensures opened { OnOk result (OpensOne (S.is_opened shelf.old) (S.is_opened shelf.new) name.now) }
    ensures tried { OnErr result (OpensFirst (S.is_opened shelf.old) (S.is_opened shelf.new) (name.now ∷ [])) }
{
    let mut text = Text::new(alloc);
    let mut piece = [0u8; PIECE];
    match shelf.begin(name) {
        Ok(()) => {}
        Err(_) => return Err(ReadAllError::Read),
    }
    'pieces: loop {
        let left = limit - text.len() as u64;
        let room = room_for(left);
        let count = match shelf.read(&mut piece[..room]) {
            Ok(count) => count,
            Err(_) => return Err(ReadAllError::Read),
        };
        if count == 0 {
            return Ok(text);
        }
        if count as u64 > left {
            return Err(ReadAllError::TooLong);
        }
        match text.append(alloc, &piece[..count]) {
            Ok(()) => {}
            Err(Memory) => return Err(ReadAllError::Memory),
        }
    }
}

/// How many bytes are read at a time.
const PIECE: usize = 65_536;

/// The size of the next piece: no more than one byte past what is left up to the limit.
fn room_for(left: u64) -> usize
    ensures some { 0 < result }
    ensures within { result ≤ PIECE }
    ensures no_more { result ≤ left + 1 }
{
    if left < PIECE as u64 {
        left as usize + 1
    } else {
        PIECE
    }
}
