//! The forms that never fail: their count of faults is the constant 0.
ghost use Rattle.std.specs.Prelude.{◌≡◌, ℕ, ◌<◌, ◌≤◌, ◌||◌, List, [], Some, None, Ok, length, false, IfOk, IsSome, OnOk, OnErr, ⊤};
ghost use Rattle.std.specs.Str.{bytes_eq};
ghost use Rattle.gdp_io.specs.Folder.{contents_of, IsAt, Puts};
ghost use Rattle.gdp_io.specs.Host.{HiddenOpenings};
ghost use Rattle.gdp_io.specs.Names.{NamesGrow, SameNames};
ghost use Rattle.gdp_io.specs.Shelf.{SameContents};

use crate::folders::Folder;
use crate::shelves::{Failed, Shelf};
use crate::sinks::Sink;
use outcomes::Memory;
use std::alloc::Global;

/// Files in memory that are always read. A name that isn't there reads as empty.
#[derive(Debug, Drop)]
pub struct SureShelf {
    folder: Folder,
}

impl SureShelf {
    ghost use Rattle.gdp_io.specs.SureShelf.{has_name};

    /// A shelf without files.
    pub fn new(alloc: Global) -> SureShelf
        ensures { (name : List ℕ) → has_name result name ≡ false }
    {
        SureShelf {
            folder: Folder::new(alloc),
        }
    }

    /// Whether a file has this name.
    pub fn has(&self, name: &str) -> bool
        ensures known { result ≡ has_name self.now name.now }
        ensures told { IsSome (⟦<SureShelf as Shelf>⟧.contents self.now name.now) }
        ensures unknown { result ≡ false → ⟦<SureShelf as Shelf>⟧.contents self.now name.now ≡ Some [] }
    {
        self.folder.has(name)
    }

    /// Adds a file. Its name is not there yet.
    pub fn put(&mut self, alloc: Global, name: &str, bytes: &[u8]) -> Result<(), Memory>
        requires { has_name self.old name.now ≡ false }
        ensures puts { OnOk result (Puts (⟦<SureShelf as Shelf>⟧.contents self.old) (⟦<SureShelf as Shelf>⟧.contents self.new) name.now bytes.now) }
        ensures names { OnOk result (NamesGrow (has_name self.old) (has_name self.new) name.now) }
        ensures err { OnErr result (SameContents (⟦<SureShelf as Shelf>⟧.contents self.old) (⟦<SureShelf as Shelf>⟧.contents self.new)
            × SameNames (has_name self.old) (has_name self.new)) }
    {
        self.folder.put(alloc, name, bytes)
    }
}

impl Shelf for SureShelf {
    ghost contents = { λ s. contents_of s.folder };

    ghost is_at = { λ s. IsAt s.folder };

    ghost is_open = { λ s _. ⊤ };

    ghost is_opened = { λ s. HiddenOpenings };

    ghost faults = { λ s _. 0 };

    fn begin(&mut self, name: &str) -> Result<(), Failed> {
        let _ = self.folder.begin(name);
        Ok(())
    }

    fn read(&mut self, into: &mut [u8]) -> Result<usize, Failed> {
        Ok(self.folder.read(into))
    }
}

/// Takes each piece whole, and keeps nothing.
#[derive(Debug, Drop)]
pub struct SureSink;

impl SureSink {
    /// A sink that has taken nothing.
    pub fn new() -> SureSink
        ensures { result ≡ record {} }
    {
        SureSink
    }
}

impl Sink for SureSink {
    ghost written = { λ s. None };

    ghost faults = { λ s. 0 };

    ghost has_failed = { λ s. ⊥ };

    fn write(&mut self, piece: &[u8]) -> Result<usize, Failed>
        ensures { result ≡ Ok (length piece.now) }
    {
        Ok(piece.len())
    }
}
