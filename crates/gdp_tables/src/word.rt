//! Keywords: spellings with their codes.

ghost use Rattle.std.specs.Prelude.{◌≡◌, ◌≤◌, true};

/// The most bytes of a spelling.
pub const LONGEST_SPELLING: usize = 16;

/// A spelling and its code.
#[derive(Clone, Copy)]
pub struct Word {
    bytes: [u8; LONGEST_SPELLING],
    length: usize,
    code: u8,
    ghost room: { length ≤ 16 },
}

impl Word {
    ghost use Rattle.gdp_tables.specs.Keywords.{keyword_of, is_spelling};

    /// The word of this spelling with this code. A spelling has 1 to 16 bytes, each from 33 to 126.
    pub fn new(spelling: &str, code: u8) -> Word
        requires { is_spelling spelling.now ≡ true }
        ensures { keyword_of result ≡ record { spelling = spelling.now; code = code } }
    {
        let text = spelling.as_bytes();
        let mut bytes = [0; LONGEST_SPELLING];
        bytes[..text.len()].copy_from_slice(text);
        Word {
            bytes,
            length: text.len(),
            code,
        }
    }

    /// The bytes of the spelling.
    pub(crate) fn spelling(&self) -> &[u8]
        ensures { result.now ≡ (keyword_of self.now).spelling }
    {
        &self.bytes[..self.length]
    }

    /// The code.
    pub(crate) fn code(&self) -> u8
        ensures { result ≡ (keyword_of self.now).code }
    {
        self.code
    }
}
