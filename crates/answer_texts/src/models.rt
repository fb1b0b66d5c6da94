//! Answers over a model, and their texts.

ghost use Rattle.std.specs.Prelude.{◌≡◌, IfOk, IfErr};
ghost use Rattle.answer_texts.specs.ModelNames.{variable_names as names_of_variables, boolean_names as names_of_booleans, IsOver, IsClaimOver, IsModelRefusal};
ghost use Rattle.cert_grammar.specs.Answers.{answer_text_of, SpellsAnswer};

use answers::Answer;
use cert_reader::{CertError, read_answer};
use cert_writer::answer_text;
use gdp_io::{Name, Text};
use item_lists::List;
use model_tree::Model;
use outcomes::Memory;
use std::alloc::Global;

/// The names of a model's variables, in order.
pub fn variable_names(alloc: Global, model: &Model) -> Result<List<Name>, Memory>
    ensures { IfOk result (λ names. names ≡ names_of_variables model.now) }
{
    let mut names = List::new(alloc);
    let variables = model.vars();
    for variable in variables {
        names.push(alloc, Name::from_str(alloc, variable.0.as_str())?)?;
    }
    Ok(names)
}

/// The names of a model's Booleans, in order.
pub fn boolean_names(alloc: Global, model: &Model) -> Result<List<Name>, Memory>
    ensures { IfOk result (λ names. names ≡ names_of_booleans model.now) }
{
    let mut names = List::new(alloc);
    let booleans = model.booleans();
    for boolean in booleans {
        names.push(alloc, Name::from_str(alloc, boolean.0.as_str())?)?;
    }
    Ok(names)
}

/// The text of an answer over a model.
#[tactic(auto, using(crate::proofs::Named::model_names))]
pub fn model_answer_text(alloc: Global, model: &Model, answer: &Answer) -> Result<Text, Memory>
    requires { IsOver model.now answer.now.claim }
    ensures text { IfOk result (λ text. text ≡ answer_text_of (names_of_variables model.now) (names_of_booleans model.now) answer.now) }
    ensures spells { IfOk result (λ text. SpellsAnswer (names_of_variables model.now) (names_of_booleans model.now) text answer.now) }
{
    let _sound = model.vars();
    let variables = variable_names(alloc, model)?;
    let booleans = boolean_names(alloc, model)?;
    answer_text(alloc, variables.as_slice(), booleans.as_slice(), answer)
}

/// The answer over a model whose text this is.
pub fn read_model_answer(alloc: Global, model: &Model, text: &[u8]) -> Result<Answer, CertError>
    ensures spells { IfOk result (λ answer. SpellsAnswer (names_of_variables model.now) (names_of_booleans model.now) text.now answer) }
    ensures sound { IfOk result (λ answer. IsClaimOver model.now answer.claim) }
    ensures canonical { IfOk result (λ answer. text.now ≡ answer_text_of (names_of_variables model.now) (names_of_booleans model.now) answer) }
    ensures refused { IfErr result (λ error. IsModelRefusal model.now text.now error) }
{
    let Ok(variables) = variable_names(alloc, model) else {
        return Err(CertError::Memory);
    };
    let Ok(booleans) = boolean_names(alloc, model) else {
        return Err(CertError::Memory);
    };
    read_answer(alloc, variables.as_slice(), booleans.as_slice(), text)
}
