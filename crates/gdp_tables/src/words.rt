//! Tables of keywords.

ghost use Rattle.std.specs.Prelude.{◌≡◌, ◌<◌, ◌^◌, if◌then◌else◌};
ghost use Rattle.gdp_tables.specs.Keywords.{
  keywords_of,
  are_equal as equal_words,
  is_keyword as is_one_of,
  are_distinct as distinct,
  code_of,
  first_code,
  spelled_by,
  IsCodeOf,
};

use crate::word::Word;
use std::marker::Model;

/// A table of keywords of which no two are equal, the case of ASCII letters ignored where it says so.
#[derive(Drop)]
pub struct Words<'a, const N: usize> {
    table: &'a [Word; N],
    fold: bool,
}

impl<'a, const N: usize> Model for Words<'a, N> {
    ghost use Rattle.std.specs.Prelude.{◌≡◌, ◌<◌, ◌^◌, true};
    ghost use Rattle.gdp_tables.specs.Keywords.{Table, keywords_of, are_distinct};

    ghost Value = { Table };

    ghost view = { λ w. record { keywords = keywords_of w.table.now; fold = w.fold } };

    ghost invariant = { λ w. (are_distinct w.fold (keywords_of w.table.now) ≡ true) × (N < 2 ^ 58) };
}

impl<'a, const N: usize> Words<'a, N> {
    /// The table of these words, or None where two of their spellings are equal: where `fold`, but for the case of
    /// letters of ASCII. A table fits memory, as one of fewer than 2^58 words does.
    pub fn new(table: &'a [Word; N], fold: bool) -> Option<Words<'a, N>>
        requires { N < 2 ^ 58 }
        ensures { result ≡ (if distinct fold (keywords_of table.now) then Some (record { keywords = keywords_of table.now; fold = fold }) else None) }
    {
        if are_distinct(table, fold) {
            Some(Words { table, fold })
        } else {
            None
        }
    }

    /// The code of the one keyword that the word spells, or None where it spells none.
    pub fn find(&self, word: &[u8]) -> Option<u8>
        ensures code { result ≡ code_of self.now word.now }
        ensures one { IsCodeOf self.now word.now result }
    {
        let table = self.table;
        code_in(word, table, self.fold)
    }
}

// The code of the first keyword that the word spells.
fn code_in(word: &[u8], words: &[Word], fold: bool) -> Option<u8>
    ensures { result ≡ first_code (spelled_by fold word.now (keywords_of words.now)) }
{
    for keyword in words {
        if are_equal(word, keyword.spelling(), fold) {
            return Some(keyword.code());
        }
    }
    None
}

// Whether no two of the spellings are equal.
fn are_distinct(words: &[Word], fold: bool) -> bool
    ensures { result ≡ distinct fold (keywords_of words.now) }
{
    for (place, word) in words.iter().enumerate() {
        if is_keyword(word.spelling(), &words[place + 1..], fold) {
            return false;
        }
    }
    true
}

// Whether the word is one of the spellings.
fn is_keyword(word: &[u8], words: &[Word], fold: bool) -> bool
    ensures { result ≡ is_one_of fold word.now (keywords_of words.now) }
{
    for keyword in words {
        if are_equal(word, keyword.spelling(), fold) {
            return true;
        }
    }
    false
}

// Whether two words are equal.
fn are_equal(a: &[u8], b: &[u8], fold: bool) -> bool
    ensures { result ≡ equal_words fold a.now b.now }
{
    if fold {
        a.eq_ignore_ascii_case(b)
    } else {
        a == b
    }
}
