//! Sums of a row or a goal.

ghost use Rattle.std.specs.Prelude.{◌≡◌, [], ◌∷◌, ◌++◌, OnOk, pos, ◌<ℤ◌};
ghost use Rattle.model_tree.specs.Values.{model_tree};
ghost use Rattle.gdp_grammar.specs.Canonical.{var_names, name_in, terms_over, further_terms, sum_words, constant_words, goal_words};
ghost use Rattle.text_grammar.specs.Printing.{spaced};
ghost use Rattle.gdp_grammar.specs.Lowest.{over};

use crate::numbers::{put_number, put_signed, put_word, quotient};
use gdp_io::Text;
use model_tree::Model;
use outcomes::Memory;
use std::alloc::Global;

// A blank and the name of a variable.
fn put_name(alloc: Global, text: &mut Text, model: &Model, id: u32) -> Result<(), Memory>
    ensures { OnOk result (text.new ≡ text.old ++ 32 ∷ name_in (var_names (model_tree model.now)) id) }
{
    match model.vars().get(id as usize) {
        Some(variable) => put_word(alloc, text, variable.0.as_slice()),
        None => put_word(alloc, text, b""),
    }
}

// The first term of a sum.
fn put_first(
    alloc: Global,
    text: &mut Text,
    model: &Model,
    term: (u32, i128),
    scale: i128,
) -> Result<(), Memory>
    requires { pos 0 <ℤ scale }
    ensures { OnOk result (text.new
        ≡ text.old ++ spaced (sum_words (var_names (model_tree model.now)) ((term.0, over scale term.1) ∷ []))) }
{
    put_number(alloc, text, &quotient(term.1, scale))?;
    put_name(alloc, text, model, term.0)
}

// A further term of a sum.
fn put_further(
    alloc: Global,
    text: &mut Text,
    model: &Model,
    term: (u32, i128),
    scale: i128,
) -> Result<(), Memory>
    requires { pos 0 <ℤ scale }
    ensures { OnOk result (text.new
        ≡ text.old ++ spaced (further_terms (var_names (model_tree model.now)) ((term.0, over scale term.1) ∷ []))) }
{
    put_signed(alloc, text, &quotient(term.1, scale))?;
    put_name(alloc, text, model, term.0)
}

// The terms of a sum after the first.
fn put_others(
    alloc: Global,
    text: &mut Text,
    model: &Model,
    terms: &[(u32, i128)],
    scale: i128,
) -> Result<(), Memory>
    requires { pos 0 <ℤ scale }
    ensures { OnOk result (text.new
        ≡ text.old ++ spaced (further_terms (var_names (model_tree model.now)) (terms_over scale terms.now))) }
{
    for term in terms {
        put_further(alloc, text, model, *term, scale)?;
    }
    Ok(())
}

/// The terms of a sum over a scale, or `0` without terms.
pub fn put_sum(
    alloc: Global,
    text: &mut Text,
    model: &Model,
    terms: &[(u32, i128)],
    scale: i128,
) -> Result<(), Memory>
    requires { pos 0 <ℤ scale }
    ensures { OnOk result (text.new
        ≡ text.old ++ spaced (sum_words (var_names (model_tree model.now)) (terms_over scale terms.now))) }
{
    match terms {
        [] => put_word(alloc, text, b"0"),
        [first, others @ ..] => {
            put_first(alloc, text, model, *first, scale)?;
            put_others(alloc, text, model, others, scale)
        }
    }
}

// A constant other than 0 at the end of a goal.
fn put_constant(alloc: Global, text: &mut Text, constant: i128, scale: i128) -> Result<(), Memory>
    requires { pos 0 <ℤ scale }
    ensures { OnOk result (text.new ≡ text.old ++ spaced (constant_words (over scale constant))) }
{
    let constant = quotient(constant, scale);
    if constant.num() == 0 {
        return Ok(());
    }
    put_signed(alloc, text, &constant)
}

// What a goal's numbers are divided by.
fn goal_scale(model: &Model) -> i128
    ensures scale { result ≡ model.now.goal.scale }
    ensures positive { pos 0 <ℤ result }
{
    let _ = model.vars();
    model.scale()
}

/// The terms of a goal and its constant over its scale, or the constant alone.
pub fn put_goal_sum(alloc: Global, text: &mut Text, model: &Model) -> Result<(), Memory>
    ensures { OnOk result (text.new
        ≡ text.old ++ spaced (goal_words (var_names (model_tree model.now))
        (terms_over model.now.goal.scale model.now.goal.terms) (over model.now.goal.scale model.now.goal.constant))) }
{
    let scale = goal_scale(model);
    if model.terms().is_empty() {
        return put_number(alloc, text, &quotient(model.constant(), scale));
    }
    put_sum(alloc, text, model, model.terms(), scale)?;
    put_constant(alloc, text, model.constant(), scale)
}
