//! Bytes of texts, as a script spells them.

use script::Trouble;
use std::alloc::Global;

// The byte that stands for `\n`, `\r`, `\t` or, as one that is no ASCII, `\x`.
fn escaped(byte: u8) -> Result<u8, Trouble> {
    match byte {
        b'n' => Ok(b'\n'),
        b'r' => Ok(b'\r'),
        b't' => Ok(b'\t'),
        b'x' => Ok(0xC8),
        _ => Err(Trouble::Line),
    }
}

/// The bytes of a text, which spells line ends and the like behind a backslash.
pub fn bytes(alloc: Global, text: &str) -> Result<Vec<u8>, Trouble> {
    let mut bytes = Vec::new(alloc);
    let mut is_escaped = false;
    for byte in text.bytes() {
        if is_escaped {
            bytes.push(escaped(byte)?)?;
            is_escaped = false;
        } else if byte == b'\\' {
            is_escaped = true;
        } else {
            bytes.push(byte)?;
        }
    }
    Ok(bytes)
}

/// Bytes as a text in brackets.
pub fn bytes_text(alloc: Global, bytes: &[u8]) -> Result<String, Trouble> {
    match std::str::from_utf8(bytes) {
        Ok(text) => {
            let text = format!(in alloc; "[{text}]")?;
            Ok(text)
        }
        Err(_) => Err(Trouble::Line),
    }
}
