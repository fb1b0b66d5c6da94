//! Texts in one line, with `|` for a newline.

use script::Trouble;
use std::alloc::Global;

/// The bytes of the text that a line spells.
pub fn bytes_of(alloc: Global, line: &str) -> Result<Vec<u8>, Trouble> {
    let mut bytes = Vec::new(alloc);
    for byte in line.bytes() {
        bytes.push(if byte == b'|' { b'\n' } else { byte })?;
    }
    Ok(bytes)
}

/// The line that spells a text.
pub fn line_of(alloc: Global, text: &[u8]) -> Result<String, Trouble> {
    let mut line = Vec::new(alloc);
    for byte in text {
        line.push(if *byte == b'\n' { b'|' } else { *byte })?;
    }
    match std::str::from_utf8(line.as_slice()) {
        Ok(line) => {
            let line = String::from_str(alloc, line)?;
            Ok(line)
        }
        Err(_) => Err(Trouble::Line),
    }
}
