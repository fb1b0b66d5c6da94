//! The host's files and streams: the trusted edge. What they hold is revealed by no contract.
ghost use Rattle.std.specs.Prelude.{◌≡◌, ℕ, ◌<◌, ◌≤◌, ◌↔◌, List, [], ◌∷◌, length, take, None, true, false, IsTrue, IsSome, IfOk, IsErr, OnOk, OnErr};
ghost use Rattle.std.specs.Io.{ReadsAtMost};
ghost use Rattle.std.specs.Io.KnownBytes.{ReadConsumes, WriteAppends};
ghost use Rattle.gdp_io.specs.Causes.{Rose, count_after};
ghost use Rattle.gdp_io.specs.Host.{left_of, hidden_contents, HiddenPlace, HiddenOpenings};
ghost use Rattle.gdp_io.specs.Shelf.{Begins, SameOpen, Reads, OpensOne, OpensFirst};

use crate::shelves::{Failed, Shelf};
use crate::sinks::Sink;
use std::fs;
use std::io::Read;
use std::rt::Files;

/// The host's files. Each error of the host is counted.
#[derive(Drop)]
pub struct FileShelf<'a, R: Files> {
    rt: &'a R,
    file: Option<R::File>,
    faults: u64,
}

impl<'a, R: Files> FileShelf<'a, R> {
    /// The files that this runtime opens.
    pub fn new(rt: &'a R) -> FileShelf<'a, R>
        ensures closed { (name : List ℕ) → ¬ ⟦<FileShelf<'a, R> as Shelf>⟧.is_open result name }
        ensures count { (name : List ℕ) → ⟦<FileShelf<'a, R> as Shelf>⟧.faults result name ≡ 0 }
    {
        FileShelf {
            rt,
            file: None,
            faults: 0,
        }
    }
}

impl<'a, R: Files> Shelf for FileShelf<'a, R> {
    ghost contents = { λ s. hidden_contents };

    ghost is_at = { λ s. HiddenPlace };

    ghost is_open = { λ s _. IsSome s.file };

    ghost is_opened = { λ s. HiddenOpenings };

    ghost faults = { λ s _. s.faults };

    fn begin(&mut self, name: &str) -> Result<(), Failed>
        ensures opens { OnOk result (IsSome self.new.file) }
        ensures begins { OnOk result (Begins hidden_contents HiddenPlace name.now) }
        ensures closed { OnErr result ((other : List ℕ) → ¬ IsSome self.new.file) }
        ensures opened { OnOk result (OpensOne HiddenOpenings HiddenOpenings name.now) }
        ensures tried { OnErr result (OpensFirst HiddenOpenings HiddenOpenings (name.now ∷ [])) }
        ensures count { self.new.faults ≡ count_after result self.old.faults }
        ensures later { self.old.faults ≤ self.new.faults }
        ensures cause { OnErr result (Rose self.old.faults self.new.faults) }
    {
        match fs::open(self.rt, name) {
            Ok(file) => {
                self.file = Some(file);
                Ok(())
            }
            Err(_) => {
                self.file = None;
                self.faults = self.faults.saturating_add(1);
                Err(Failed)
            }
        }
    }

    fn read(&mut self, into: &mut [u8]) -> Result<usize, Failed>
        // The open file gave these bytes.
        ensures host { ReadConsumes (left_of R.File.remaining self.old.file) (left_of R.File.remaining self.new.file) result into.new }
        ensures bound { ReadsAtMost result into.new }
        ensures reads { IfOk result (λ n. Reads hidden_contents HiddenPlace HiddenPlace (take n into.new)) }
        ensures is_open { SameOpen (λ _. IsSome self.old.file) (λ _. IsSome self.new.file) }
        ensures count { self.new.faults ≡ count_after result self.old.faults }
        ensures later { self.old.faults ≤ self.new.faults }
        ensures cause { OnErr result ((name : List ℕ) → IsSome self.old.file → Rose self.old.faults self.new.faults) }
    {
        if let Some(file) = &mut self.file {
            if let Ok(count) = file.read(into) {
                return Ok(count);
            }
        }
        self.faults = self.faults.saturating_add(1);
        Err(Failed)
    }
}

/// A stream of the host, as standard output. Each error, and each write that takes nothing, is counted.
#[derive(Drop)]
pub struct OutSink<W: std::io::Write + Drop> {
    to: W,
    faults: u64,
    has_failed: bool,
}

impl<W: std::io::Write + Drop> OutSink<W> {
    /// What this stream takes.
    pub fn new(to: W) -> OutSink<W>
        ensures { ⟦<OutSink<W> as Sink>⟧.faults result ≡ 0 }
    {
        OutSink {
            to,
            faults: 0,
            has_failed: false,
        }
    }
}

impl<W: std::io::Write + Drop> Sink for OutSink<W> {
    ghost written = { λ s. None };

    ghost faults = { λ s. s.faults };

    ghost has_failed = { λ s. IsTrue s.has_failed };

    fn write(&mut self, piece: &[u8]) -> Result<usize, Failed>
        // The stream took these bytes.
        ensures host { WriteAppends (W.contents self.old.to) (W.contents self.new.to) result piece.now }
        ensures bound { IfOk result (λ n. (0 < n) × (n ≤ length piece.now)) }
        ensures last { IsErr result ↔ IsTrue self.new.has_failed }
        ensures count { self.new.faults ≡ count_after result self.old.faults }
        ensures later { self.old.faults ≤ self.new.faults }
        ensures cause { OnErr result (Rose self.old.faults self.new.faults) }
    {
        match self.to.write(piece) {
            Ok(count) if 0 < count => {
                self.has_failed = false;
                Ok(count)
            }
            _ => {
                self.has_failed = true;
                self.faults = self.faults.saturating_add(1);
                Err(Failed)
            }
        }
    }
}
