//! Propositions.

ghost use Rattle.std.specs.Prelude.{◌≡◌, ◌∷◌, [], ◌++◌, OnOk, codes, if◌then◌else◌};
ghost use Rattle.std.specs.Fmt.{decimal};
ghost use Rattle.propositions.specs.View.{prop_tree, prop_trees};
ghost use Rattle.model_tree.specs.Values.{model_tree};
ghost use Rattle.gdp_grammar.specs.Canonical.{name_in, boolean_names};
ghost use Rattle.text_grammar.specs.Printing.{line_of};
ghost use Rattle.gdp_grammar.specs.PropNames.{named_in, all_named_in, prop_text, arguments_text};

use crate::numbers::put_digits;
use gdp_io::Text;
use model_tree::Model;
use outcomes::Memory;
use propositions::Prop;
use std::alloc::Global;

// The name of a Boolean.
fn put_atom(alloc: Global, text: &mut Text, model: &Model, id: u32) -> Result<(), Memory>
    ensures { OnOk result (text.new ≡ text.old ++ name_in (boolean_names (model_tree model.now)) id) }
{
    match model.booleans().get(id as usize) {
        Some(boolean) => text.append(alloc, boolean.0.as_slice()),
        None => text.append(alloc, b""),
    }
}

// What stands before an argument: nothing before the first, a comma and a blank before a further one.
fn separator(is_first: bool) -> &'static [u8]
    ensures { result.now ≡ (if is_first then [] else codes ", ") }
{
    if is_first {
        return b"";
    }
    b", "
}

// The parenthesis that closes.
fn put_close(alloc: Global, text: &mut Text) -> Result<(), Memory>
    ensures { OnOk result (text.new ≡ text.old ++ codes ")") }
{
    text.append(alloc, b")")
}

// What is written before the first argument of a counting operator: its word and its number.
fn put_count(alloc: Global, text: &mut Text, word: &[u8], number: u32) -> Result<(), Memory>
    ensures { OnOk result (text.new ≡ text.old ++ (word.now ++ (codes "(" ++ (decimal number ++ codes ", ")))) }
{
    text.append(alloc, word)?;
    text.append(alloc, b"(")?;
    put_digits(alloc, text, u128::from(number))?;
    text.append(alloc, b", ")
}

/// The text of a proposition.
#[cycle(props)]
pub fn put_prop(alloc: Global, text: &mut Text, model: &Model, prop: &Prop) -> Result<(), Memory>
    ensures { OnOk result (text.new
        ≡ text.old ++ prop_text (named_in (boolean_names (model_tree model.now)) (prop_tree prop.now))) }
{
    match prop {
        Prop::Atom(id) => put_atom(alloc, text, model, *id),
        Prop::Not(inner) => {
            put_after(alloc, text, model, b"not(", inner)?;
            put_close(alloc, text)
        }
        Prop::And(props) => put_list(alloc, text, model, b"and(", props),
        Prop::Or(props) => put_list(alloc, text, model, b"or(", props),
        Prop::Implies(first, second) => {
            put_after(alloc, text, model, b"implies(", first)?;
            put_after(alloc, text, model, b", ", second)?;
            put_close(alloc, text)
        }
        Prop::Equivalent(first, second) => {
            put_after(alloc, text, model, b"equivalent(", first)?;
            put_after(alloc, text, model, b", ", second)?;
            put_close(alloc, text)
        }
        Prop::Xor(first, second) => {
            put_after(alloc, text, model, b"xor(", first)?;
            put_after(alloc, text, model, b", ", second)?;
            put_close(alloc, text)
        }
        Prop::Exactly(number, props) => {
            put_count(alloc, text, b"exactly", *number)?;
            put_list(alloc, text, model, b"", props)
        }
        Prop::AtLeast(number, props) => {
            put_count(alloc, text, b"atleast", *number)?;
            put_list(alloc, text, model, b"", props)
        }
        Prop::AtMost(number, props) => {
            put_count(alloc, text, b"atmost", *number)?;
            put_list(alloc, text, model, b"", props)
        }
    }
}

// These bytes and a proposition.
#[cycle(props)]
fn put_after(
    alloc: Global,
    text: &mut Text,
    model: &Model,
    before: &[u8],
    prop: &Prop,
) -> Result<(), Memory>
    ensures { OnOk result (text.new ≡ text.old
        ++ (before.now ++ prop_text (named_in (boolean_names (model_tree model.now)) (prop_tree prop.now)))) }
{
    text.append(alloc, before)?;
    put_prop(alloc, text, model, prop)
}

// These bytes, propositions with a comma and a blank between them, and the parenthesis that closes.
#[cycle(props)]
fn put_list(
    alloc: Global,
    text: &mut Text,
    model: &Model,
    before: &[u8],
    props: &[Prop],
) -> Result<(), Memory>
    ensures { OnOk result (text.new ≡ text.old ++ (before.now
        ++ (arguments_text (all_named_in (boolean_names (model_tree model.now)) (prop_trees props.now)) ++ codes ")"))) }
{
    text.append(alloc, before)?;
    let mut is_first = true;
    for prop in props {
        put_after(alloc, text, model, separator(is_first), prop)?;
        is_first = false;
    }
    put_close(alloc, text)
}

/// The line of a proposition.
pub fn put_prop_line(
    alloc: Global,
    text: &mut Text,
    model: &Model,
    prop: &(Prop, u32),
) -> Result<(), Memory>
    ensures { OnOk result (text.new ≡ text.old ++ (line_of (codes "logic")
        (prop_text (named_in (boolean_names (model_tree model.now)) (prop_tree prop.now.0)) ∷ []) ++ 10 ∷ [])) }
{
    text.append(alloc, b"logic ")?;
    put_prop(alloc, text, model, &prop.0)?;
    text.push(alloc, b'\n')
}
