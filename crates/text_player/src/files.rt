//! The lines that read and write the host's files and streams.

use crate::shelves::read_text;
use gdp_io::{FileShelf, OutSink, write_all};
use script::{Trouble, shown, split};
use std::fs;

/// What a line asks of the host, or none where it asks something else.
pub fn ask_host(rt: &HostRuntime, line: &str) -> Result<Option<String>, Trouble> {
    let words = split(rt.alloc(), line)?;
    let answer = match words.as_slice() {
        ["write_file", name, word] => {
            let mut sink = OutSink::new(fs::create(rt, *name)?);
            shown(rt.alloc(), &write_all(&mut sink, word.as_bytes()).is_ok())?
        }
        ["read_file", name, limit] => {
            read_text(rt.alloc(), &mut FileShelf::new(rt), name, limit)?
        }
        ["remove_file", name] => {
            fs::remove_file(rt, *name)?;
            shown(rt.alloc(), &"removed")?
        }
        ["write_error", word] => {
            let mut sink = OutSink::new(rt.stderr());
            shown(rt.alloc(), &write_all(&mut sink, word.as_bytes()).is_ok())?
        }
        _ => return Ok(None),
    };
    Ok(Some(answer))
}
