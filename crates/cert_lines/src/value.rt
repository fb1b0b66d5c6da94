//! The value of an answer.

ghost use Rattle.std.specs.Prelude.{◌≡◌, ◌==◌, unsigned_abs};
ghost use Rattle.fractions.specs.Lowest.{common_divisor};
ghost use Rattle.fractions.specs.Fraction.{IsLowest};
ghost use Rattle.cert_grammar.specs.Claims.{spelled_value};
ghost use Rattle.cert_grammar.specs.Wholes.{whole_of};
ghost use Rattle.cert_lines.specs.ValueReads.{fraction_of, whole_result, quotient_result, quotient_at};

use crate::number::{Whole, is_exact, read_whole};
use cert_grammar::CertCause;
use fractions::Frac;
use fractions::divisors::gcd_of_magnitudes;
use text_reader::{ByteTest, size_of, split_front};

/// What stands before a stroke.
pub struct OverBytes;

impl ByteTest for OverBytes {
    ghost use Rattle.cert_lines.specs.ValueReads.{is_over_byte};

    ghost test = { is_over_byte };

    fn holds(byte: u8) -> bool {
        byte != b'/'
    }
}

// A value without a stroke.
fn whole_value(over: Whole) -> Result<(i128, i128), CertCause>
    ensures { fraction_of result ≡ whole_result over }
{
    match over {
        Whole::Malformed => Err(CertCause::Form),
        Whole::Wide => Err(CertCause::Number),
        Whole::Is(number) => Ok((number, 1)),
    }
}

// Whether no number above 1 divides both.
fn is_lowest(over: i128, under: u128) -> bool
    ensures { result ≡ (common_divisor (unsigned_abs over) under == 1) }
{
    gcd_of_magnitudes(over.unsigned_abs(), under) == 1
}

// The value of a number over a denominator.
fn quotient(over: Whole, under: u128) -> Result<(i128, i128), CertCause>
    ensures { fraction_of result ≡ quotient_result over under }
{
    match over {
        Whole::Malformed => Err(CertCause::Form),
        Whole::Wide => {
            if under < 2 {
                Err(CertCause::Form)
            } else {
                Err(CertCause::Number)
            }
        }
        Whole::Is(number) => {
            if under < 2 {
                return Err(CertCause::Form);
            }
            if under >= 170_141_183_460_469_231_731_687_303_715_884_105_728 {
                return Err(CertCause::Number);
            }
            if is_lowest(number, under) {
                Ok((number, under as i128))
            } else {
                Err(CertCause::Form)
            }
        }
    }
}

/// The value that a number and the digits behind a stroke spell.
#[tactic(auto, using(crate::proofs::ValueReads::quotient_is, crate::proofs::ValueReads::quotient_inexact, crate::proofs::ValueReads::huge_none, crate::proofs::ValueReads::huge_wide, crate::proofs::ValueReads::huge_is))]
pub fn read_quotient(over: &[u8], digits: &[u8]) -> Result<(i128, i128), CertCause>
    ensures { fraction_of result ≡ quotient_at (whole_of over.now) digits.now }
{
    if !is_exact(digits) {
        return Err(CertCause::Form);
    }
    match size_of(digits) {
        Some(under) => quotient(read_whole(over), under),
        None => match read_whole(over) {
            Whole::Malformed => Err(CertCause::Form),
            Whole::Wide => Err(CertCause::Number),
            Whole::Is(_) => Err(CertCause::Number),
        },
    }
}

// The numerator and the denominator that a word spells.
#[tactic(auto, using(crate::proofs::ValueReads::value_whole, crate::proofs::ValueReads::value_quotient))]
fn read_parts(word: &[u8]) -> Result<(i128, i128), CertCause>
    ensures { fraction_of result ≡ spelled_value word.now }
{
    let (over, rest) = split_front::<OverBytes>(word);
    match rest {
        [] => whole_value(read_whole(over)),
        [_, digits @ ..] => read_quotient(over, digits),
    }
}

// The fraction with these parts.
fn lowest(num: i128, den: i128) -> Frac
    requires { IsLowest (record { num = num; den = den }) }
    ensures { result ≡ record { num = num; den = den } }
{
    Frac::reduced(num, den)
}

/// The value that a word spells.
#[tactic(auto, using(crate::proofs::Lowest::parts_lowest))]
pub fn read_value(word: &[u8]) -> Result<Frac, CertCause>
    ensures { result ≡ spelled_value word.now }
{
    match read_parts(word) {
        Err(cause) => Err(cause),
        Ok((num, den)) => Ok(lowest(num, den)),
    }
}
