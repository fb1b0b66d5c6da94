//! Words and numbers.

ghost use Rattle.std.specs.Prelude.{◌≡◌, [], ◌∷◌, ◌++◌, OnOk, pos, ◌<ℤ◌, int_lt};
ghost use Rattle.std.specs.Fmt.{decimal};
ghost use Rattle.gdp_grammar.specs.Canonical.{size_word, number_word};
ghost use Rattle.text_grammar.specs.Printing.{minus_word, sign_word};
ghost use Rattle.gdp_grammar.specs.Lowest.{over};

use fractions::Frac;
use gdp_io::Text;
use itoa::Buffer;
use outcomes::Memory;
use std::alloc::Global;

/// A number over a scale, in lowest terms.
pub fn quotient(number: i128, scale: i128) -> Frac
    requires { pos 0 <ℤ scale }
    ensures { result ≡ over scale number }
{
    Frac::reduced(number, scale)
}

/// A blank and a word.
pub fn put_word(alloc: Global, text: &mut Text, word: &[u8]) -> Result<(), Memory>
    ensures { OnOk result (text.new ≡ text.old ++ 32 ∷ word.now) }
{
    text.push(alloc, b' ')?;
    text.append(alloc, word)
}

/// The digits of a number.
pub fn put_digits(alloc: Global, text: &mut Text, number: u128) -> Result<(), Memory>
    ensures { OnOk result (text.new ≡ text.old ++ decimal number) }
{
    let mut digits = Buffer::new();
    text.append(alloc, digits.format(number).as_bytes())
}

// The magnitude of a number: `p`, or `p/q`.
fn put_size(alloc: Global, text: &mut Text, number: &Frac) -> Result<(), Memory>
    ensures { OnOk result (text.new ≡ text.old ++ size_word number.now) }
{
    let den = number.den().unsigned_abs();
    put_digits(alloc, text, number.num().unsigned_abs())?;
    if den == 1 {
        return Ok(());
    }
    text.push(alloc, b'/')?;
    put_digits(alloc, text, den)
}

// Whether a number is negative.
fn is_negative(number: i128) -> bool
    ensures { result ≡ int_lt number (pos 0) }
{
    number < 0
}

// A `-` where the number is negative.
fn put_minus(alloc: Global, text: &mut Text, number: i128) -> Result<(), Memory>
    ensures { OnOk result (text.new ≡ text.old ++ minus_word number) }
{
    if is_negative(number) {
        return text.append(alloc, b"-");
    }
    Ok(())
}

/// A blank and a number, with a `-` directly before it where it is negative.
pub fn put_number(alloc: Global, text: &mut Text, number: &Frac) -> Result<(), Memory>
    ensures { OnOk result (text.new ≡ text.old ++ 32 ∷ number_word number.now) }
{
    text.push(alloc, b' ')?;
    put_minus(alloc, text, number.num())?;
    put_size(alloc, text, number)
}

// The sign before a further term, between blanks.
fn put_sign(alloc: Global, text: &mut Text, number: i128) -> Result<(), Memory>
    ensures { OnOk result (text.new ≡ text.old ++ 32 ∷ sign_word number ++ 32 ∷ []) }
{
    if is_negative(number) {
        return text.append(alloc, b" - ");
    }
    text.append(alloc, b" + ")
}

/// The sign of a number and its magnitude, each after a blank.
pub fn put_signed(alloc: Global, text: &mut Text, number: &Frac) -> Result<(), Memory>
    ensures { OnOk result (text.new ≡ text.old ++ 32 ∷ sign_word number.now.num ++ 32 ∷ size_word number.now) }
{
    put_sign(alloc, text, number.num())?;
    put_size(alloc, text, number)
}
