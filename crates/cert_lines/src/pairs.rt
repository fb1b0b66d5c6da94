//! The multipliers of a node's line.

ghost use Rattle.std.specs.Prelude.{◌≡◌, None, true, nat_le, OnOk, IfOk};
ghost use Rattle.std.specs.Option.{MatchOption};
ghost use Rattle.text_grammar.specs.Digits.{value_of};
ghost use Rattle.cert_grammar.specs.Nodes.{pair_of, pairs_from};
ghost use Rattle.cert_grammar.specs.Wholes.{is_exact as is_exact_spelling};
ghost use Rattle.cert_lines.specs.Pairs.{is_row, least_of, pairs_read, pair_with, kept_mults, kept_fits, is_none, IsNext};

use crate::number::{Natural, Whole, is_exact, is_less, read_natural, read_whole};
use crate::words::Words;
use lp_frame::Mults;
use outcomes::Memory;
use std::alloc::Global;
use text_reader::{ByteTest, split_front};

/// What stands before a colon.
pub struct RowBytes;

impl ByteTest for RowBytes {
    ghost use Rattle.cert_lines.specs.Pairs.{is_row_byte};

    ghost test = { is_row_byte };

    fn holds(byte: u8) -> bool {
        byte != b':'
    }
}

/// The multipliers of a line.
#[derive(Drop)]
pub enum Pairs {
    /// The words spell none.
    Malformed,
    /// A number doesn't fit.
    Wide,
    /// The multipliers.
    Are(Mults),
}

// The row and the multiplier of a word, where the row is spelled exactly and a colon follows.
#[tactic(auto, using(crate::proofs::Pairing::cut_none, crate::proofs::Pairing::cut_last, crate::proofs::Pairing::cut_some))]
fn cut_pair(word: &[u8]) -> Option<(&[u8], &[u8])>
    ensures { MatchOption result (pair_of word.now ≡ None) (λ cut. (is_exact_spelling cut.0.now ≡ true) × (pair_of word.now ≡ pair_with (value_of cut.0.now) cut.1.now)) }
{
    let (row, rest) = split_front::<RowBytes>(word);
    if !is_exact(row) {
        return None;
    }
    match rest {
        [] => None,
        [_, behind @ ..] => Some((row, behind)),
    }
}

// Whether a row comes behind the last one, if there is one.
#[tactic(auto, using(crate::proofs::Pairing::first_row, crate::proofs::Pairing::further_row, crate::proofs::Pairing::last_exact))]
fn is_behind(last: &[u8], row: &[u8]) -> bool
    requires last { is_row last.now ≡ true }
    requires row { is_exact_spelling row.now ≡ true }
    ensures { result ≡ nat_le (least_of last.now) (value_of row.now) }
{
    match last {
        [] => true,
        _ => is_less(last, row),
    }
}

/// One multiplier, as it is read.
#[derive(Clone, Copy, PartialEq, Eq)]
pub enum Next {
    /// The word spells none that may come next.
    Malformed,
    /// A number doesn't fit.
    Wide,
    /// The row and the multiplier.
    Is(u32, i128),
}

// The multiplier that a word spells behind the last row, and the digits of its row.
#[tactic(auto, using(crate::proofs::Nexts::none_cut, crate::proofs::Nexts::none_behind, crate::proofs::Nexts::none_spelled, crate::proofs::Nexts::none_zero, crate::proofs::Nexts::wide_multiplier, crate::proofs::Nexts::wide_row, crate::proofs::Nexts::both_fit, crate::proofs::Nexts::never_malformed))]
fn next_pair<'a>(last: &[u8], word: &'a [u8]) -> (Next, &'a [u8])
    requires { is_row last.now ≡ true }
    ensures { IsNext (least_of last.now) word.now result.1.now result.0 }
{
    let Some((row, multiplier)) = cut_pair(word) else {
        return (Next::Malformed, word);
    };
    if !is_behind(last, row) {
        return (Next::Malformed, word);
    }
    match read_whole(multiplier) {
        Whole::Malformed => (Next::Malformed, word),
        Whole::Wide => (Next::Wide, row),
        Whole::Is(number) => {
            if number == 0 {
                return (Next::Malformed, word);
            }
            match read_natural(row) {
                Natural::Malformed => (Next::Malformed, word),
                Natural::Wide => (Next::Wide, row),
                Natural::Is(place) => (Next::Is(place, number), row),
            }
        }
    }
}

// Whether there is none.
fn is_malformed(next: Next) -> bool
    ensures { result ≡ is_none next }
{
    match next {
        Next::Malformed => true,
        _ => false,
    }
}

// Keeps a multiplier, and says whether all fit so far.
fn keep(alloc: Global, mults: &mut Mults, fits: bool, next: Next) -> Result<bool, Memory>
    ensures mults { OnOk result (mults.new ≡ kept_mults mults.old next) }
    ensures fits { IfOk result (λ now. now ≡ kept_fits fits next) }
{
    match next {
        Next::Malformed => Ok(fits),
        Next::Wide => Ok(false),
        Next::Is(row, number) => {
            mults.push(alloc, (row, number))?;
            Ok(fits)
        }
    }
}

/// The multipliers that words spell.
#[tactic(auto, using(crate::proofs::Nexts::read_start, crate::proofs::Nexts::read_end_fits, crate::proofs::Nexts::read_end_wide))]
pub fn read_pairs(alloc: Global, words: Words<'_>) -> Result<Pairs, Memory>
    ensures { IfOk result (λ pairs. pairs ≡ pairs_read (pairs_from 0 words.entry)) }
{
    let mut left = words;
    let mut mults = Mults::new(alloc);
    let mut fits = true;
    let mut last: &[u8] = &[];
    'words: while let Some(word) = left.next() {
        let (next, row) = next_pair(last, word);
        if is_malformed(next) {
            return Ok(Pairs::Malformed);
        }
        fits = keep(alloc, &mut mults, fits, next)?;
        last = row;
    }
    if fits {
        return Ok(Pairs::Are(mults));
    }
    Ok(Pairs::Wide)
}
