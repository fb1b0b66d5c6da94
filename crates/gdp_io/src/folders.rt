//! Texts behind names, in memory: what `MemShelf` and `SureShelf` read from.
ghost use Rattle.std.specs.Prelude.{◌≡◌, ◌≢◌, ℕ, ◌<◌, ◌≤◌, ◌||◌, List, [], length, take, drop, min, Some, None, false, IfOk, IfSome, IfNone, OnOk, OnErr, IsSome, IsTrue, ◌↔◌, is_some};
ghost use Rattle.std.specs.Str.{bytes_eq};
ghost use Rattle.gdp_io.specs.Folder.{has, behind, bytes_at, bytes_of, contents_of, IsAt, Puts};
ghost use Rattle.gdp_io.specs.Shelf.{Reads};

use crate::names::Name;
use crate::texts::Text;
use outcomes::Memory;
use std::alloc::Global;

/// A file: a name, and the bytes behind it.
#[derive(Debug, Drop)]
pub(crate) struct File {
    name: Name,
    bytes: Text,
}

/// Files of different names, the index of the one that is open, and the offset in it that is read next.
#[derive(Debug, Drop)]
pub(crate) struct Folder {
    files: Vec<File>,
    opened: Option<usize>,
    at: usize,
}

impl Folder {
    /// A folder without files.
    pub(crate) fn new(alloc: Global) -> Folder
        ensures empty { result.files.items ≡ [] }
        ensures closed { result.opened ≡ None }
    {
        Folder {
            files: Vec::new(alloc),
            opened: None,
            at: 0,
        }
    }

    /// Whether a file has this name.
    pub(crate) fn has(&self, name: &str) -> bool
        ensures known { result ≡ has self.now.files.items name.now }
        ensures unknown { result ≡ false → behind self.now.files.items name.now ≡ [] }
    {
        find(self.files.as_slice(), name).is_some()
    }

    /// Adds a file.
    pub(crate) fn put(&mut self, alloc: Global, name: &str, bytes: &[u8]) -> Result<(), Memory>
        requires { has self.old.files.items name.now ≡ false }
        ensures puts { OnOk result (Puts (contents_of self.old) (contents_of self.new) name.now bytes.now) }
        ensures names { OnOk result ((other : List ℕ) → has self.new.files.items other ≡ (has self.old.files.items other || bytes_eq name.now other)) }
        ensures err { OnErr result (self.new.files.items ≡ self.old.files.items) }
        ensures open { (self.new.opened ≡ self.old.opened) × (self.new.at ≡ self.old.at) }
    {
        let name = Name::from_str(alloc, name)?;
        let bytes = Text::from_slice(alloc, bytes)?;
        self.files.push(File { name, bytes })?;
        Ok(())
    }

    /// Opens the file of this name at its front, and says whether there is one. Where there is none, none is open.
    pub(crate) fn begin(&mut self, name: &str) -> bool
        ensures found { result ≡ has self.old.files.items name.now }
        ensures opened { result ≡ is_some self.new.opened }
        ensures begins { IsAt self.new name.now 0 }
        ensures files { self.new.files.items ≡ self.old.files.items }
    {
        self.opened = find(self.files.as_slice(), name);
        self.at = 0;
        self.opened.is_some()
    }

    /// Leaves no file open.
    pub(crate) fn close(&mut self)
        ensures closed { self.new.opened ≡ None }
        ensures files { self.new.files.items ≡ self.old.files.items }
    {
        self.opened = None;
    }

    /// Reads as much of what is left of the file that is open as there is room for; nothing where none is.
    pub(crate) fn read(&mut self, into: &mut [u8]) -> usize
        requires { 0 < length into.old }
        ensures bound { result ≤ length into.new }
        ensures reads { Reads (contents_of self.old) (IsAt self.old) (IsAt self.new) (take result into.new) }
        ensures opened { self.new.opened ≡ self.old.opened }
        ensures files { self.new.files.items ≡ self.old.files.items }
    {
        let bytes = file_bytes(self.files.as_slice(), self.opened);
        let count = copy_front(into, rest_from(bytes, self.at));
        self.at += count;
        count
    }
}

/// The index of the first file of this name.
fn find(files: &[File], name: &str) -> Option<usize>
    ensures known { is_some result ≡ has files.now name.now }
    ensures found { bytes_at files.now result ≡ behind files.now name.now }
{
    'files: for (index, file) in files.iter().enumerate() {
        if file.name.as_str() == name {
            return Some(index);
        }
    }
    None
}

/// The bytes of the file that is open; none where none is.
fn file_bytes(files: &[File], opened: Option<usize>) -> &[u8]
    ensures { result.now ≡ bytes_at files.now opened }
{
    match opened {
        None => &[],
        Some(index) => match files.get(index) {
            None => &[],
            Some(file) => file.bytes.as_slice(),
        },
    }
}

/// The bytes from an offset on; none past the end.
fn rest_from(bytes: &[u8], at: usize) -> &[u8]
    ensures { result.now ≡ drop at bytes.now }
{
    if at < bytes.len() { &bytes[at..] } else { &[] }
}

/// Copies as much as there is room for, from the front, and says how much.
fn copy_front(into: &mut [u8], from: &[u8]) -> usize
    ensures count { result ≡ min (length from.now) (length into.old) }
    ensures copied { take result into.new ≡ take result from.now }
{
    let count = from.len().min(into.len());
    into[..count].copy_from_slice(&from[..count]);
    count
}
