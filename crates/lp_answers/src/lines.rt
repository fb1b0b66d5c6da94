//! The lines of answers.

ghost use Rattle.std.specs.Prelude.{◌≡◌, ◌∷◌, ◌++◌, [], OnOk, codes};
ghost use Rattle.int_linear.specs.Sums.{at as at_place};
ghost use Rattle.text_grammar.specs.Printing.{line_of, text_of, whole_word};
ghost use Rattle.cert_grammar.specs.Claims.{value_word};
ghost use Rattle.lp_answers.specs.Texts.{number_lines, point_lines};

use crate::points::number_at;
use fractions::Frac;
use gdp_io::Text;
use lp_rows::Point;
use lp_tokens::Names;
use outcomes::Memory;
use std::alloc::Global;
use text_printer::{end_line, put_digits, put_whole, put_word};

/// A blank and a value: `p`, or `p/q`.
pub fn put_value(alloc: Global, text: &mut Text, value: Frac) -> Result<(), Memory>
    ensures { OnOk result (text.new ≡ text.old ++ 32 ∷ value_word value) }
{
    put_whole(alloc, text, value.num())?;
    let under = value.den().unsigned_abs();
    if under == 1 {
        return Ok(());
    }
    text.push(alloc, b'/')?;
    put_digits(alloc, text, under)
}

// The line of a name and its number.
fn put_number(
    alloc: Global,
    text: &mut Text,
    word: &[u8],
    name: &[u8],
    number: i128,
) -> Result<(), Memory>
    ensures { OnOk result (text.new ≡ text.old ++ line_of word.now (name.now ∷ whole_word number ∷ []) ++ 10 ∷ []) }
{
    text.append(alloc, word)?;
    put_word(alloc, text, name)?;
    put_whole(alloc, text, number)?;
    end_line(alloc, text)
}

/// A line for each name, with its number.
pub(crate) fn put_numbers(
    alloc: Global,
    text: &mut Text,
    word: &[u8],
    names: &Names,
    numbers: &[i128],
) -> Result<(), Memory>
    ensures { OnOk result (text.new ≡ text.old ++ text_of (number_lines word.now 0 names.now (at_place numbers.now))) }
{
    for place in 0..names.len() {
        let Some(name) = names.get(place) else {
            unreachable!()
        };
        put_number(alloc, text, word, name, number_at(numbers, place))?;
    }
    Ok(())
}

/// The lines of a point: its denominator, and a line for each name.
pub(crate) fn put_point(
    alloc: Global,
    text: &mut Text,
    names: &Names,
    at: &Point,
) -> Result<(), Memory>
    ensures { OnOk result (text.new ≡ text.old ++ text_of (point_lines names.now at.now)) }
{
    text.append(alloc, b"over")?;
    put_whole(alloc, text, at.over())?;
    end_line(alloc, text)?;
    put_numbers(alloc, text, b"val", names, at.nums())
}
