//! The texts behind the names `M` and `P`, and how a script spells them.

use script::{Trouble, first_word};
use std::alloc::Global;

/// What stands behind `M` and behind `P`.
#[derive(Debug, Drop)]
pub struct Texts {
    pub model: Vec<u8>,
    pub point: Vec<u8>,
}

impl Texts {
    /// Two empty texts.
    pub fn new(alloc: Global) -> Texts {
        Texts {
            model: Vec::new(alloc),
            point: Vec::new(alloc),
        }
    }
}

/// The bytes of a text, which spells the end of a line as `\n`.
pub fn bytes(alloc: Global, text: &str) -> Result<Vec<u8>, Trouble> {
    let mut bytes = Vec::new(alloc);
    let mut is_escaped = false;
    for byte in text.bytes() {
        match (is_escaped, byte) {
            (false, b'\\') => is_escaped = true,
            (false, _) => bytes.push(byte)?,
            (true, b'n') => {
                bytes.push(b'\n')?;
                is_escaped = false;
            }
            (true, _) => return Err(Trouble::Line),
        }
    }
    Ok(bytes)
}

/// Adds a text that many times, where the first word is how often.
pub fn add_often(alloc: Global, bytes: &mut Vec<u8>, words: &str) -> Result<(), Trouble> {
    let (count, text) = first_word(words);
    let Ok(count) = count.parse::<usize>() else {
        return Err(Trouble::Line);
    };
    let more = self::bytes(alloc, text)?;
    for _ in 0..count {
        bytes.extend_from_slice(more.as_slice())?;
    }
    Ok(())
}

/// A text of that many blanks.
pub fn blanks(alloc: Global, count: &str) -> Result<Vec<u8>, Trouble> {
    let Ok(count) = count.parse::<usize>() else {
        return Err(Trouble::Line);
    };
    let bytes = vec![in alloc; b' '; count]?;
    Ok(bytes)
}

/// Bytes as a script spells them.
pub fn spelled(alloc: Global, bytes: &[u8]) -> Result<String, Trouble> {
    let Ok(text) = std::str::from_utf8(bytes) else {
        return Err(Trouble::Line);
    };
    let mut spelled = String::new(alloc);
    for letter in text.chars() {
        match letter {
            '\n' => spelled.push_str("\\n")?,
            _ => spelled.push(letter)?,
        }
    }
    Ok(spelled)
}
