//! The text of an answer: its claim, and the lines of a point.

ghost use Rattle.std.specs.Prelude.{◌≡◌, [], ◌∷◌, ◌++◌, OnOk, IfOk, codes, length, true};
ghost use Rattle.std.specs.List.{list_all};
ghost use Rattle.fractions.specs.Width.{fits};
ghost use Rattle.answers.specs.declared.claim.Claim.TheVariants.{Best, Endless};
ghost use Rattle.text_grammar.specs.Printing.{line_of, whole_word};
ghost use Rattle.cert_grammar.specs.Answers.{answer_text_of, SpellsAnswer};
ghost use Rattle.cert_grammar.specs.Claims.{named_lines, on_lines, value_word, point_lines, claim_lines};
ghost use Rattle.cert_grammar.specs.Laws.{AreNamed, is_value, IsPointOf, IsFittingProof, IsClaim};
ghost use Rattle.cert_writer.specs.Lengths.{IsLong};
ghost use Rattle.cert_writer.specs.Parts.{words_text, empty_lines};

use crate::tree::put_tree;
use crate::word::{put_route, put_signed};
use answers::{Answer, Claim};
use fractions::Frac;
use gdp_io::{Name, Text};
use lp_rows::Point;
use outcomes::Memory;
use proof_tree::Proof;
use std::alloc::Global;
use text_printer::{end_line, put_digits, put_whole, put_word};

// The line of a name and its number.
fn put_named(
    alloc: Global,
    text: &mut Text,
    first: &[u8],
    name: &[u8],
    number: i128,
) -> Result<(), Memory>
    ensures { OnOk result (text.new ≡ text.old ++ line_of first.now (name.now ∷ whole_word number ∷ []) ++ 10 ∷ []) }
{
    text.append(alloc, first)?;
    put_word(alloc, text, name)?;
    put_whole(alloc, text, number)?;
    end_line(alloc, text)
}

// A line for each name with its number.
#[tactic(auto, using(crate::proofs::Fitting::numbers_start, crate::proofs::Fitting::numbers_more, crate::proofs::Fitting::numbers_all))]
fn put_numbers(
    alloc: Global,
    text: &mut Text,
    first: &[u8],
    names: &[Name],
    numbers: &[i128],
) -> Result<(), Memory>
    requires { length numbers.now ≡ length names.now }
    ensures text { OnOk result (text.new ≡ text.old ++ words_text (named_lines first.now names.now numbers.now)) }
    ensures fits { OnOk result (list_all fits numbers.now ≡ true) }
{
    for (place, name) in names.iter().enumerate() {
        put_named(alloc, text, first, name.as_slice(), numbers[place])?;
    }
    Ok(())
}

// The line of a Boolean that is true.
fn put_on(alloc: Global, text: &mut Text, name: &[u8]) -> Result<(), Memory>
    ensures { OnOk result (text.new ≡ text.old ++ line_of (codes "on") (name.now ∷ []) ++ 10 ∷ []) }
{
    text.append(alloc, b"on")?;
    put_word(alloc, text, name)?;
    end_line(alloc, text)
}

// A line for each Boolean that is true.
fn put_truths(
    alloc: Global,
    text: &mut Text,
    booleans: &[Name],
    truths: &[bool],
) -> Result<(), Memory>
    requires { length truths.now ≡ length booleans.now }
    ensures { OnOk result (text.new ≡ text.old ++ words_text (on_lines booleans.now truths.now)) }
{
    for (place, name) in booleans.iter().enumerate() {
        if truths[place] {
            put_on(alloc, text, name.as_slice())?;
        }
    }
    Ok(())
}

// A value.
#[tactic(auto, using(crate::proofs::Fitting::value_written))]
fn put_value(alloc: Global, text: &mut Text, value: Frac) -> Result<(), Memory>
    ensures text { OnOk result (text.new ≡ text.old ++ value_word value) }
    ensures fits { OnOk result (is_value value ≡ true) }
{
    put_signed(alloc, text, value.num())?;
    let under = value.den().unsigned_abs();
    if under == 1 {
        return Ok(());
    }
    text.push(alloc, b'/')?;
    put_digits(alloc, text, under)
}

// The lines of a point.
#[tactic(auto, using(crate::proofs::Fitting::point_of))]
fn put_point(
    alloc: Global,
    text: &mut Text,
    names: &[Name],
    booleans: &[Name],
    point: &Point,
    truths: &[bool],
) -> Result<(), Memory>
    requires names { length point.now.nums ≡ length names.now }
    requires booleans { length truths.now ≡ length booleans.now }
    ensures text { OnOk result (text.new ≡ text.old ++ words_text (point_lines names.now booleans.now point.now truths.now)) }
    ensures point { OnOk result (IsPointOf names.now booleans.now point.now truths.now) }
{
    text.append(alloc, b"over")?;
    put_whole(alloc, text, point.over())?;
    end_line(alloc, text)?;
    put_numbers(alloc, text, b"val", names, point.nums())?;
    put_truths(alloc, text, booleans, truths)
}

// The lines of the claim that a point is best.
fn put_best(
    alloc: Global,
    text: &mut Text,
    names: &[Name],
    booleans: &[Name],
    point: &Point,
    truths: &[bool],
    value: Frac,
    proof: &Proof,
) -> Result<(), Memory>
    requires names { length point.now.nums ≡ length names.now }
    requires booleans { length truths.now ≡ length booleans.now }
    ensures text { OnOk result (text.new ≡ text.old ++ words_text (claim_lines names.now booleans.now (Best point.now truths.now value proof.now))) }
    ensures claim { OnOk result (IsClaim names.now booleans.now (Best point.now truths.now value proof.now)) }
{
    text.append(alloc, b"best ")?;
    put_value(alloc, text, value)?;
    end_line(alloc, text)?;
    put_point(alloc, text, names, booleans, point, truths)?;
    put_tree(alloc, text, proof)
}

// The lines of the claim that there is no point.
fn put_empty(alloc: Global, text: &mut Text, proof: &Proof) -> Result<(), Memory>
    ensures text { OnOk result (text.new ≡ text.old ++ words_text (empty_lines proof.now)) }
    ensures proof { OnOk result (IsFittingProof proof.now) }
{
    text.append(alloc, b"empty\n")?;
    put_tree(alloc, text, proof)
}

// The lines of the claim that the goal improves without end.
fn put_endless(
    alloc: Global,
    text: &mut Text,
    names: &[Name],
    booleans: &[Name],
    point: &Point,
    truths: &[bool],
    ray: &[i128],
) -> Result<(), Memory>
    requires names { length point.now.nums ≡ length names.now }
    requires booleans { length truths.now ≡ length booleans.now }
    requires ray { length ray.now ≡ length names.now }
    ensures text { OnOk result (text.new ≡ text.old ++ words_text (claim_lines names.now booleans.now (Endless point.now truths.now ray.now))) }
    ensures claim { OnOk result (IsClaim names.now booleans.now (Endless point.now truths.now ray.now)) }
{
    text.append(alloc, b"endless\n")?;
    put_point(alloc, text, names, booleans, point, truths)?;
    put_numbers(alloc, text, b"step", names, ray)?;
    text.append(alloc, b"end\n")
}

// The lines of a claim.
fn put_claim(
    alloc: Global,
    text: &mut Text,
    names: &[Name],
    booleans: &[Name],
    claim: &Claim,
) -> Result<(), Memory>
    requires { IsLong (length names.now) (length booleans.now) claim.now }
    ensures text { OnOk result (text.new ≡ text.old ++ words_text (claim_lines names.now booleans.now claim.now)) }
    ensures claim { OnOk result (IsClaim names.now booleans.now claim.now) }
{
    match claim {
        Claim::Best {
            at,
            truths,
            value,
            proof,
        } => put_best(
            alloc,
            text,
            names,
            booleans,
            at,
            truths.as_slice(),
            *value,
            proof,
        ),
        Claim::Empty { proof } => put_empty(alloc, text, proof),
        Claim::Endless { at, truths, ray } => put_endless(
            alloc,
            text,
            names,
            booleans,
            at,
            truths.as_slice(),
            ray.as_slice(),
        ),
    }
}

/// The text of an answer over variables and Booleans with these names.
pub fn answer_text(
    alloc: Global,
    names: &[Name],
    booleans: &[Name],
    answer: &Answer,
) -> Result<Text, Memory>
    requires { IsLong (length names.now) (length booleans.now) answer.now.claim }
    ensures text { IfOk result (λ text. text ≡ answer_text_of names.now booleans.now answer.now) }
    ensures spells { IfOk result (λ text. AreNamed names.now booleans.now → SpellsAnswer names.now booleans.now text answer.now) }
{
    let mut text = Text::from_slice(alloc, b"gdp-answer 1\nroute")?;
    put_route(alloc, &mut text, answer.route)?;
    end_line(alloc, &mut text)?;
    put_claim(alloc, &mut text, names, booleans, &answer.claim)?;
    Ok(text)
}
