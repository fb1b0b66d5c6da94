//! Writes the words of texts.
//!
//! Its contract in one sentence: each call puts what its definition says into an output, whole or, where that stops, a part
//! of it from its front.
//!
//! Every writer of texts stands on it. A line is a call for each of its words and one for its end.
//! Read `output.rt` first.
#![tactic(auto)]

ghost use Rattle.std.specs.Prelude.{◌≡◌, ◌∷◌, [], ◌++◌, OnOk, OnErr, pos, int_lt};
ghost use Rattle.std.specs.Fmt.{decimal};
ghost use Rattle.gdp_io.specs.Sink.{grown};
ghost use Rattle.text_grammar.specs.Printing.{minus_word, sign_word, whole_word};
ghost use Rattle.text_printer.specs.Outputs.{IsCutShort};

mod output;

use itoa::Buffer;
pub use output::Output;
use std::alloc::Global;

/// The end of a line.
pub fn end_line<O: Output>(alloc: Global, out: &mut O) -> Result<(), O::Stop>
    ensures whole { OnOk result (O.written out.new ≡ grown (O.written out.old) (10 ∷ [])) }
    ensures part { OnErr result (IsCutShort (O.written out.old) (O.written out.new) (10 ∷ [])) }
{
    out.put(alloc, b"\n")
}

/// A blank and a word.
pub fn put_word<O: Output>(alloc: Global, out: &mut O, word: &[u8]) -> Result<(), O::Stop>
    ensures whole { OnOk result (O.written out.new ≡ grown (O.written out.old) (32 ∷ word.now)) }
    ensures part { OnErr result (IsCutShort (O.written out.old) (O.written out.new) (32 ∷ word.now)) }
{
    out.put(alloc, b" ")?;
    out.put(alloc, word)
}

/// The digits of a number.
pub fn put_digits<O: Output>(alloc: Global, out: &mut O, number: u128) -> Result<(), O::Stop>
    ensures whole { OnOk result (O.written out.new ≡ grown (O.written out.old) (decimal number)) }
    ensures part { OnErr result (IsCutShort (O.written out.old) (O.written out.new) (decimal number)) }
{
    let mut digits = Buffer::new();
    out.put(alloc, digits.format(number).as_bytes())
}

/// A blank and a natural number.
pub fn put_natural<O: Output>(alloc: Global, out: &mut O, number: u128) -> Result<(), O::Stop>
    ensures whole { OnOk result (O.written out.new ≡ grown (O.written out.old) (32 ∷ decimal number)) }
    ensures part { OnErr result (IsCutShort (O.written out.old) (O.written out.new) (32 ∷ decimal number)) }
{
    out.put(alloc, b" ")?;
    put_digits(alloc, out, number)
}

/// A blank, a mark and a natural number directly behind it, as `x7`.
pub fn put_numbered<O: Output>(
    alloc: Global,
    out: &mut O,
    mark: u8,
    number: u128,
) -> Result<(), O::Stop>
    ensures whole { OnOk result (O.written out.new ≡ grown (O.written out.old) (32 ∷ mark ∷ decimal number)) }
    ensures part { OnErr result (IsCutShort (O.written out.old) (O.written out.new) (32 ∷ mark ∷ decimal number)) }
{
    out.put(alloc, &[b' ', mark])?;
    put_digits(alloc, out, number)
}

/// Whether a number is negative.
pub fn is_negative(number: i128) -> bool
    ensures { result ≡ int_lt number (pos 0) }
{
    number < 0
}

/// A `-` where the number is negative.
pub fn put_minus<O: Output>(alloc: Global, out: &mut O, number: i128) -> Result<(), O::Stop>
    ensures whole { OnOk result (O.written out.new ≡ grown (O.written out.old) (minus_word number)) }
    ensures part { OnErr result (IsCutShort (O.written out.old) (O.written out.new) (minus_word number)) }
{
    out.put(alloc, if is_negative(number) { b"-" } else { b"" })
}

/// A blank and a whole number, with a `-` directly before it where it is negative.
pub fn put_whole<O: Output>(alloc: Global, out: &mut O, number: i128) -> Result<(), O::Stop>
    ensures whole { OnOk result (O.written out.new ≡ grown (O.written out.old) (32 ∷ whole_word number)) }
    ensures part { OnErr result (IsCutShort (O.written out.old) (O.written out.new) (32 ∷ whole_word number)) }
{
    out.put(alloc, b" ")?;
    put_minus(alloc, out, number)?;
    put_digits(alloc, out, number.unsigned_abs())
}

/// A blank and the sign before a term.
pub fn put_sign<O: Output>(alloc: Global, out: &mut O, number: i128) -> Result<(), O::Stop>
    ensures whole { OnOk result (O.written out.new ≡ grown (O.written out.old) (32 ∷ sign_word number)) }
    ensures part { OnErr result (IsCutShort (O.written out.old) (O.written out.new) (32 ∷ sign_word number)) }
{
    put_word(alloc, out, if is_negative(number) { b"-" } else { b"+" })
}
