//! The lines that call `run`.

use crate::texts::{Texts, spelled};
use crate::watched::Watched;
use gdp_commands::run;
use gdp_io::{MemShelf, MemSink, Name};
use script::{Trouble, add_to, id};
use std::alloc::Global;

/// How many bytes a sink takes a call.
const MOST: usize = 8;

/// How many bytes a sink takes in all.
const ROOM: usize = 2_000;

/// Which call fails on the shelf, on `out` and on `err`; 0 where none does.
#[derive(Clone, Copy, Debug)]
struct Faults {
    shelf: u32,
    out: u32,
    err: u32,
}

/// What `run` answers where these calls fail, for the words after them.
pub fn ask(alloc: Global, texts: &Texts, words: &[&str]) -> Result<String, Trouble> {
    match words {
        [shelf, out, err, words @ ..] => {
            let faults = Faults {
                shelf: id(shelf)?,
                out: id(out)?,
                err: id(err)?,
            };
            answer(alloc, texts, faults, words)
        }
        _ => Err(Trouble::Line),
    }
}

// The status, what was written to `out` and to `err`, and the names that were opened.
fn answer(alloc: Global, texts: &Texts, faults: Faults, words: &[&str]) -> Result<String, Trouble> {
    let words = owned(alloc, words)?;
    let mut shelf = Watched::new(alloc, shelf_of(alloc, texts, faults.shelf)?);
    let mut out = MemSink::new(alloc, MOST, ROOM, &[faults.out])?;
    let mut err = MemSink::new(alloc, MOST, ROOM, &[faults.err])?;
    let status = run(alloc, words.as_slice(), &mut shelf, &mut out, &mut err).code();
    let mut answer = written(alloc, status, out.bytes(), err.bytes())?;
    for name in shelf.names() {
        add_to(&mut answer, name.as_str())?;
    }
    Ok(answer)
}

fn written(alloc: Global, status: u8, out: &[u8], err: &[u8]) -> Result<String, Trouble> {
    let out = spelled(alloc, out)?;
    let err = spelled(alloc, err)?;
    let text = format!(in alloc; "{status} [{out}] [{err}]")?;
    Ok(text)
}

// The words, each of its own.
fn owned(alloc: Global, words: &[&str]) -> Result<Vec<String>, Trouble> {
    let mut owned = Vec::new(alloc);
    for word in words {
        owned.push(String::from_str(alloc, word)?)?;
    }
    Ok(owned)
}

// A shelf with both texts, whose call of this number fails.
fn shelf_of(alloc: Global, texts: &Texts, failing: u32) -> Result<MemShelf, Trouble> {
    let mut shelf = MemShelf::new(alloc, &[failing])?;
    shelf.put(alloc, "M", texts.model.as_slice())?;
    if shelf.has("P") {
        return Err(Trouble::Line);
    }
    shelf.put(alloc, "P", texts.point.as_slice())?;
    Ok(shelf)
}
