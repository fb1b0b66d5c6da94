//! The lines that read and write over shelves and sinks in memory.

use crate::words::bytes_text;
use gdp_io::{MemShelf, MemSink, Name, Shelf, SureShelf, SureSink, Text, read_all, write_all};
use script::{Trouble, id, shown};
use std::alloc::Global;

/// What is written to a sink.
const WHOLE: &[u8] = b"0123456789";

/// The bytes of a long text.
const LONG: u32 = 200_000;

/// What these words ask of shelves and sinks.
pub fn ask_shelf(alloc: Global, words: &[&str]) -> Result<String, Trouble> {
    match words {
        ["read", failing, name, limit] => read(alloc, id(failing)?, name, limit),
        ["read_sure", name, limit] => read_sure(alloc, name, limit),
        ["read_long", limit] => read_long(alloc, limit),
        ["write", most, room, failing] => write(alloc, id(most)?, id(room)?, id(failing)?),
        ["write_sure"] => shown(alloc, &write_all(&mut SureSink::new(), WHOLE).is_ok()),
        ["name_of", word] => name_text(alloc, word),
        ["join", first, second] => joined(alloc, first, second),
        _ => Err(Trouble::Line),
    }
}

/// The text behind a name, or why it is not read.
pub fn read_text<S: Shelf>(
    alloc: Global,
    shelf: &mut S,
    name: &str,
    limit: &str,
) -> Result<String, Trouble> {
    let Ok(limit) = limit.parse::<u64>() else {
        return Err(Trouble::Line);
    };
    match read_all(alloc, shelf, name, limit) {
        Ok(text) => bytes_text(alloc, text.as_slice()),
        Err(error) => {
            let text = format!(in alloc; "{error:?}")?;
            Ok(text)
        }
    }
}

// Reads from a shelf where `a` has two bytes and `b` none, and whose call of this number fails.
fn read(alloc: Global, failing: u32, name: &str, limit: &str) -> Result<String, Trouble> {
    let mut shelf = MemShelf::new(alloc, &[failing])?;
    shelf.put(alloc, "a", b"xy")?;
    if shelf.has("b") {
        return Err(Trouble::Line);
    }
    shelf.put(alloc, "b", b"")?;
    read_text(alloc, &mut shelf, name, limit)
}

fn read_sure(alloc: Global, name: &str, limit: &str) -> Result<String, Trouble> {
    let mut shelf = SureShelf::new(alloc);
    shelf.put(alloc, "a", b"xy")?;
    read_text(alloc, &mut shelf, name, limit)
}

// How many bytes of a long text are read, and whether they are those that were put.
fn read_long(alloc: Global, limit: &str) -> Result<String, Trouble> {
    let mut long = Text::new(alloc);
    for index in 0..LONG {
        long.push(alloc, (index % 251) as u8)?;
    }
    let mut shelf = SureShelf::new(alloc);
    shelf.put(alloc, "long", long.as_slice())?;
    let Ok(limit) = limit.parse::<u64>() else {
        return Err(Trouble::Line);
    };
    match read_all(alloc, &mut shelf, "long", limit) {
        Ok(text) => {
            let (len, is_same) = (text.len(), text.as_slice() == long.as_slice());
            let text = format!(in alloc; "{len} {is_same}")?;
            Ok(text)
        }
        Err(error) => {
            let text = format!(in alloc; "{error:?}")?;
            Ok(text)
        }
    }
}

// What a sink has that takes that many bytes a call and in all, and whether it took the whole.
fn write(alloc: Global, most: u32, room: u32, failing: u32) -> Result<String, Trouble> {
    if most == 0 {
        return Err(Trouble::Line);
    }
    let mut sink = MemSink::new(alloc, most as usize, room as usize, &[failing])?;
    let is_whole = write_all(&mut sink, WHOLE).is_ok();
    let written = bytes_text(alloc, sink.bytes())?;
    let text = format!(in alloc; "{written} {is_whole}")?;
    Ok(text)
}

fn name_text(alloc: Global, word: &str) -> Result<String, Trouble> {
    let name = Name::from_str(alloc, word)?;
    let (bytes, text, len) = (
        bytes_text(alloc, name.as_slice())?,
        name.as_str(),
        name.len(),
    );
    let text = format!(in alloc; "{bytes} {text} {len}")?;
    Ok(text)
}

// A text that is made of one word and then another.
fn joined(alloc: Global, first: &str, second: &str) -> Result<String, Trouble> {
    let mut text = Text::from_slice(alloc, first.as_bytes())?;
    text.append(alloc, second.as_bytes())?;
    let (bytes, len) = (bytes_text(alloc, text.as_slice())?, text.len());
    let is_empty = text.is_empty();
    let text = format!(in alloc; "{bytes} {len} {is_empty}")?;
    Ok(text)
}
