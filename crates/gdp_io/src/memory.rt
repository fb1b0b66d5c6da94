//! The forms in memory, with calls that fail by their number: what tests read from and write to.
ghost use Rattle.std.specs.Prelude.{◌≡◌, ℕ, ◌+◌, ◌-◌, ◌<◌, ◌≤◌, ◌⊎◌, ◌↔◌, ◌++◌, List, [], take, length, min, Some, None, false, IfOk, IsErr, OnOk, OnErr, IsSome, IsTrue, vec_len, vec_capacity};
ghost use Rattle.std.specs.Io.{ReadsAtMost};
ghost use Rattle.gdp_io.specs.Calls.{FailsAfter, one_more};
ghost use Rattle.gdp_io.specs.Causes.{Rose, count_after};
ghost use Rattle.gdp_io.specs.Folder.{contents_of, IsAt, Puts};
ghost use Rattle.gdp_io.specs.Host.{HiddenOpenings};
ghost use Rattle.gdp_io.specs.Names.{NamesGrow, SameNames};
ghost use Rattle.gdp_io.specs.Shelf.{SameContents, SameOpen, Reads};

use crate::calls::Calls;
use crate::folders::Folder;
use crate::shelves::{Failed, Shelf};
use crate::sinks::Sink;
use outcomes::Memory;
use std::alloc::Global;

/// Files in memory. The calls of the trait are numbered from 1, `begin` and `read` together; those that are
/// listed fail, and after 4,294,967,295 calls each call. A `begin` of a name that isn't there fails too.
#[derive(Debug, Drop)]
pub struct MemShelf {
    folder: Folder,
    calls: Calls,
    faults: u64,
}

impl MemShelf {
    ghost use Rattle.gdp_io.specs.MemShelf.{has_name, failing_calls, calls_made};

    /// A shelf without files, whose calls of these numbers fail.
    pub fn new(alloc: Global, failing: &[u32]) -> Result<MemShelf, Memory>
        ensures empty { IfOk result (λ shelf. (name : List ℕ) → has_name shelf name ≡ false) }
        ensures failing { IfOk result (λ shelf. failing_calls shelf ≡ failing.now) }
        ensures made { IfOk result (λ shelf. calls_made shelf ≡ 0) }
        ensures closed { IfOk result (λ shelf. (name : List ℕ) → ¬ ⟦<MemShelf as Shelf>⟧.is_open shelf name) }
        ensures count { IfOk result (λ shelf. (name : List ℕ) → ⟦<MemShelf as Shelf>⟧.faults shelf name ≡ 0) }
    {
        let calls = Calls::new(alloc, failing)?;
        Ok(MemShelf {
            folder: Folder::new(alloc),
            calls,
            faults: 0,
        })
    }

    /// Whether a file has this name.
    pub fn has(&self, name: &str) -> bool
        ensures known { result ≡ has_name self.now name.now }
        ensures told { IsSome (⟦<MemShelf as Shelf>⟧.contents self.now name.now) }
    {
        self.folder.has(name)
    }

    /// Adds a file. Its name is not there yet.
    pub fn put(&mut self, alloc: Global, name: &str, bytes: &[u8]) -> Result<(), Memory>
        requires { has_name self.old name.now ≡ false }
        ensures puts { OnOk result (Puts (⟦<MemShelf as Shelf>⟧.contents self.old) (⟦<MemShelf as Shelf>⟧.contents self.new) name.now bytes.now) }
        ensures names { OnOk result (NamesGrow (has_name self.old) (has_name self.new) name.now) }
        ensures err { OnErr result (SameContents (⟦<MemShelf as Shelf>⟧.contents self.old) (⟦<MemShelf as Shelf>⟧.contents self.new)
            × SameNames (has_name self.old) (has_name self.new)) }
        ensures calls { (failing_calls self.new ≡ failing_calls self.old) × (calls_made self.new ≡ calls_made self.old) }
        ensures faults { (other : List ℕ) → ⟦<MemShelf as Shelf>⟧.faults self.new other ≡ ⟦<MemShelf as Shelf>⟧.faults self.old other }
        ensures open { SameOpen (⟦<MemShelf as Shelf>⟧.is_open self.old) (⟦<MemShelf as Shelf>⟧.is_open self.new) }
    {
        self.folder.put(alloc, name, bytes)
    }
}

impl Shelf for MemShelf {
    ghost use Rattle.gdp_io.specs.MemShelf.{has_name, failing_calls, calls_made};

    ghost contents = { λ s. contents_of s.folder };

    ghost is_at = { λ s. IsAt s.folder };

    ghost is_open = { λ s _. IsSome s.folder.opened };

    ghost is_opened = { λ s. HiddenOpenings };

    ghost faults = { λ s _. s.faults };

    fn begin(&mut self, name: &str) -> Result<(), Failed>
        ensures fails { IsErr result ↔ (FailsAfter (failing_calls self.old) (calls_made self.old) ⊎ (has_name self.old name.now ≡ false)) }
        ensures counted { calls_made self.new ≡ one_more (calls_made self.old) }
        ensures listed { failing_calls self.new ≡ failing_calls self.old }
        ensures names { SameNames (has_name self.old) (has_name self.new) }
        ensures opens { OnOk result (IsSome self.new.folder.opened) }
        ensures begins { OnOk result (IsAt self.new.folder name.now 0) }
        ensures closed { OnErr result ((other : List ℕ) → ¬ IsSome self.new.folder.opened) }
        ensures contents { SameContents (contents_of self.old.folder) (contents_of self.new.folder) }
        ensures count { self.new.faults ≡ count_after result self.old.faults }
        ensures later { self.old.faults ≤ self.new.faults }
        ensures cause { OnErr result (Rose self.old.faults self.new.faults) }
    {
        if !self.calls.next_fails() && self.folder.begin(name) {
            return Ok(());
        }
        self.folder.close();
        self.faults = self.faults.saturating_add(1);
        Err(Failed)
    }

    fn read(&mut self, into: &mut [u8]) -> Result<usize, Failed>
        requires { 0 < length into.old }
        ensures fails { IsErr result ↔ FailsAfter (failing_calls self.old) (calls_made self.old) }
        ensures counted { calls_made self.new ≡ one_more (calls_made self.old) }
        ensures listed { failing_calls self.new ≡ failing_calls self.old }
        ensures names { SameNames (has_name self.old) (has_name self.new) }
        ensures bound { ReadsAtMost result into.new }
        ensures reads { IfOk result (λ n. Reads (contents_of self.old.folder) (IsAt self.old.folder) (IsAt self.new.folder) (take n into.new)) }
        ensures is_open { SameOpen (λ _. IsSome self.old.folder.opened) (λ _. IsSome self.new.folder.opened) }
        ensures contents { SameContents (contents_of self.old.folder) (contents_of self.new.folder) }
        ensures count { self.new.faults ≡ count_after result self.old.faults }
        ensures later { self.old.faults ≤ self.new.faults }
        ensures cause { OnErr result ((name : List ℕ) → IsSome self.old.folder.opened → Rose self.old.faults self.new.faults) }
    {
        if self.calls.next_fails() {
            self.faults = self.faults.saturating_add(1);
            return Err(Failed);
        }
        Ok(self.folder.read(into))
    }
}

/// A writer into memory that has been taken beforehand. The calls are numbered from 1; those that are listed fail,
/// and after 4,294,967,295 calls each call. A call where the room is full fails too.
#[derive(Debug, Drop)]
pub struct MemSink {
    bytes: Vec<u8>,
    most: usize,
    room: usize,
    calls: Calls,
    faults: u64,
    has_failed: bool,
    ghost takes_some: { 0 < most },
    ghost within: { vec_len bytes ≤ room },
    ghost had: { room ≤ vec_capacity bytes },
}

impl MemSink {
    ghost use Rattle.gdp_io.specs.MemSink.{most_of, room_of, failing_calls as failing_writes, calls_made as writes_made};

    /// An empty sink that takes at most `most` bytes a call and `room` in all, and whose calls of these numbers fail.
    pub fn new(alloc: Global, most: usize, room: usize, failing: &[u32]) -> Result<MemSink, Memory>
        requires { 0 < most }
        ensures empty { IfOk result (λ sink. ⟦<MemSink as Sink>⟧.written sink ≡ Some []) }
        ensures limits { IfOk result (λ sink. (most_of sink ≡ most) × (room_of sink ≡ room)) }
        ensures failing { IfOk result (λ sink. failing_writes sink ≡ failing.now) }
        ensures made { IfOk result (λ sink. writes_made sink ≡ 0) }
        ensures count { IfOk result (λ sink. ⟦<MemSink as Sink>⟧.faults sink ≡ 0) }
    {
        let calls = Calls::new(alloc, failing)?;
        let bytes = Vec::with_capacity(alloc, room)?;
        Ok(MemSink {
            bytes,
            most,
            room,
            calls,
            faults: 0,
            has_failed: false,
        })
    }

    /// The bytes written.
    pub fn bytes(&self) -> &[u8]
        ensures { ⟦<MemSink as Sink>⟧.written self.now ≡ Some result.now }
    {
        self.bytes.as_slice()
    }
}

impl Sink for MemSink {
    ghost use Rattle.gdp_io.specs.MemSink.{most_of, room_of, failing_calls as failing_writes, calls_made as writes_made};

    ghost written = { λ s. Some s.bytes.items };

    ghost faults = { λ s. s.faults };

    ghost has_failed = { λ s. IsTrue s.has_failed };

    fn write(&mut self, piece: &[u8]) -> Result<usize, Failed>
        requires { 0 < length piece.now }
        ensures fails { IsErr result ↔ (FailsAfter (failing_writes self.old) (writes_made self.old) ⊎ (room_of self.old ≤ vec_len self.old.bytes)) }
        ensures takes { IfOk result (λ n. n ≡ min (min (length piece.now) (most_of self.old)) (room_of self.old - vec_len self.old.bytes)) }
        ensures counted { writes_made self.new ≡ one_more (writes_made self.old) }
        ensures kept { (failing_writes self.new ≡ failing_writes self.old) × (most_of self.new ≡ most_of self.old) × (room_of self.new ≡ room_of self.old) }
        ensures bound { IfOk result (λ n. (0 < n) × (n ≤ length piece.now)) }
        ensures bytes { IfOk result (λ n. self.new.bytes.items ≡ self.old.bytes.items ++ take n piece.now) }
        ensures none { OnErr result (self.new.bytes.items ≡ self.old.bytes.items) }
        ensures last { IsErr result ↔ IsTrue self.new.has_failed }
        ensures count { self.new.faults ≡ count_after result self.old.faults }
        ensures later { self.old.faults ≤ self.new.faults }
        ensures cause { OnErr result (Rose self.old.faults self.new.faults) }
    {
        let count = piece.len().min(self.most).min(self.room - self.bytes.len());
        self.has_failed = self.calls.next_fails() || count == 0;
        if self.has_failed {
            self.faults = self.faults.saturating_add(1);
            return Err(Failed);
        }
        self.bytes.extend_from_slice(&piece[..count]).unwrap();
        Ok(count)
    }
}
