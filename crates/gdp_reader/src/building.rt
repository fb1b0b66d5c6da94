//! What a line adds to the model that is being built.

ghost use Rattle.std.specs.Prelude.{◌≡◌, ◌<◌, length, map, IfOk, IfSome};
ghost use Rattle.std.specs.Option.{option_map};
ghost use Rattle.model_builder.specs.Nesting.{boolean_outcome, open_disjunction_outcome, open_disjunct_outcome, close_outcome};
ghost use Rattle.model_builder.specs.Standing.{stands_for};
ghost use Rattle.gdp_grammar.specs.Reading.{
  coefficient as coefficient_in,
  after_call,
  terms_of,
  with_var,
  with_goal,
  with_row,
  with_logic,
  with_form,
};
ghost use Rattle.gdp_lines.specs.Gives.{Gives};
ghost use Rattle.gdp_lines.specs.Lines.{signed, summand, form};
ghost use Rattle.gdp_lines.specs.Tokens.{spelled};
ghost use Rattle.gdp_reader.specs.steps.Terms.{is_marked, with_mark, terms_value, one_term_more};

use fractions::Frac;
use gdp_grammar::ReadCause;
use gdp_lines::fault::LineError;
use gdp_lines::form::{Form, Signed, Summand};
use gdp_lines::token::{Numeral, Tokens};
use gdp_lines::value::{constant_value, end, signed_whole, value};
use lp_rows::{Kind, Rel, Sense};
use model_builder::ModelBuilder;
use model_tree::{Bound, Mode};
use outcomes::Memory;
use prop_reader::logic::line_prop;
use std::alloc::Global;

/// Declares a variable.
#[tactic(auto, unfolding(gdp_grammar::specs::Reading::with_var))]
fn add_var(
    alloc: Global,
    builder: &mut ModelBuilder,
    line: u32,
    name: &str,
    kind: Kind,
    low: &Option<Signed<'_>>,
    high: &Option<Signed<'_>>,
) -> Result<(), LineError>
    ensures { Gives (λ _. stands_for builder.new) result (with_var (stands_for builder.old) line name.now kind (option_map signed low.now) (option_map signed high.now)) }
{
    if !builder.is_at_root() {
        return Err(LineError::Refused(ReadCause::Form));
    }
    if builder.is_taken(name) {
        return Err(LineError::Refused(ReadCause::NameTwice));
    }
    let low = end(low)?;
    let high = end(high)?;
    builder.var(alloc, name, kind, Bound { low, high }, line)?;
    Ok(())
}

/// The coefficient of a term, if it is in range.
fn coefficient(is_negative: bool, size: &Option<Numeral<'_>>) -> Option<Frac>
    ensures { result ≡ coefficient_in is_negative (option_map spelled size.now) }
{
    match size {
        None => Some(signed_whole(is_negative, 1)),
        Some(size) => value(is_negative, size),
    }
}

/// Marks the variable, where there is one, and says whether it was marked before.
fn mark(seen: &mut [bool], id: Option<u32>) -> bool
    requires { IfSome id (λ k. k < length seen.old) }
    ensures before { result ≡ is_marked seen.old id }
    ensures after { seen.new ≡ with_mark seen.old id }
{
    let Some(id) = id else {
        return false;
    };
    let was_marked = seen[id as usize];
    seen[id as usize] = true;
    was_marked
}

/// The terms with one more, or the first cause against them: a name that is unknown, and then a number out of range.
fn with_term(
    terms: Result<Vec<(u32, Frac)>, ReadCause>,
    id: Option<u32>,
    coefficient: Option<Frac>,
) -> Result<Result<Vec<(u32, Frac)>, ReadCause>, Memory>
    ensures { IfOk result (λ more. terms_value more ≡ one_term_more (terms_value terms) id coefficient) }
{
    let Some(id) = id else {
        return Ok(Err(ReadCause::NameUnknown));
    };
    match (terms, coefficient) {
        (Ok(mut terms), Some(coefficient)) => {
            terms.push((id, coefficient))?;
            Ok(Ok(terms))
        }
        (Ok(_), None) => Ok(Err(ReadCause::Number)),
        (Err(cause), _) => Ok(Err(cause)),
    }
}

/// The terms of a sum: no variable stands twice in it, each name is known, and each number is in range. Each name is
/// looked up once.
fn read_terms(
    alloc: Global,
    builder: &ModelBuilder,
    sum: &[Summand<'_>],
) -> Result<Vec<(u32, Frac)>, LineError>
    ensures { Gives (λ terms. terms.items) result (terms_of (stands_for builder.now).vars (map summand sum.now)) }
{
    let mut seen = vec![in alloc; false; builder.var_count()]?;
    let mut terms = Ok(Vec::with_capacity(alloc, sum.len())?);
    'terms: for term in sum {
        let id = builder.var_id(term.name);
        if mark(seen.as_mut_slice(), id) {
            return Err(LineError::Refused(ReadCause::NameTwice));
        }
        terms = with_term(terms, id, coefficient(term.is_negative, &term.size))?;
    }
    Ok(terms?)
}

/// Adds a row.
#[tactic(auto, unfolding(gdp_grammar::specs::Reading::with_row))]
fn add_row(
    alloc: Global,
    builder: &mut ModelBuilder,
    line: u32,
    sum: &[Summand<'_>],
    rel: Rel,
    right: &Signed<'_>,
) -> Result<(), LineError>
    ensures { Gives (λ _. stands_for builder.new) result (with_row (stands_for builder.old) line (map summand sum.now) rel (signed right.now)) }
{
    if builder.is_in_disjunction() {
        return Err(LineError::Refused(ReadCause::Form));
    }
    let terms = read_terms(alloc, builder, sum)?;
    let Some(right) = value(right.is_negative, &right.size) else {
        return Err(LineError::Refused(ReadCause::Number));
    };
    builder.row(alloc, terms.as_slice(), rel, right, line)?;
    Ok(())
}

/// Sets the goal.
#[tactic(auto, unfolding(gdp_grammar::specs::Reading::with_goal))]
fn add_goal(
    alloc: Global,
    builder: &mut ModelBuilder,
    line: u32,
    sense: Sense,
    sum: &[Summand<'_>],
    constant: &Option<Signed<'_>>,
) -> Result<(), LineError>
    ensures { Gives (λ _. stands_for builder.new) result (with_goal (stands_for builder.old) line sense (map summand sum.now) (option_map signed constant.now)) }
{
    if !builder.is_at_root() || builder.has_goal() {
        return Err(LineError::Refused(ReadCause::Form));
    }
    let terms = read_terms(alloc, builder, sum)?;
    let Some(constant) = constant_value(constant) else {
        return Err(LineError::Refused(ReadCause::Number));
    };
    builder.goal(alloc, sense, terms.as_slice(), constant, line)?;
    Ok(())
}

/// Adds a proposition.
fn add_logic(
    alloc: Global,
    builder: &mut ModelBuilder,
    line: u32,
    tokens: &Tokens<'_>,
) -> Result<(), LineError>
    ensures { Gives (λ _. stands_for builder.new) result (with_logic (stands_for builder.old) line tokens.now) }
{
    if builder.is_in_disjunction() {
        return Err(LineError::Refused(ReadCause::Form));
    }
    let prop = line_prop(alloc, builder, tokens)?;
    builder.prop(alloc, &prop, line)?;
    Ok(())
}

/// Adds a Boolean.
fn add_boolean(
    alloc: Global,
    builder: &mut ModelBuilder,
    line: u32,
    name: &str,
) -> Result<(), LineError>
    ensures { Gives (λ _. stands_for builder.new) result (after_call (boolean_outcome name.now line (stands_for builder.old))) }
{
    builder.boolean(alloc, name, line)?;
    Ok(())
}

/// Opens a disjunction.
fn open_disjunction(
    alloc: Global,
    builder: &mut ModelBuilder,
    line: u32,
    mode: Mode,
) -> Result<(), LineError>
    ensures { Gives (λ _. stands_for builder.new) result (after_call (open_disjunction_outcome mode line (stands_for builder.old))) }
{
    builder.open_disjunction(alloc, mode, line)?;
    Ok(())
}

/// Opens a disjunct.
fn open_disjunct(
    alloc: Global,
    builder: &mut ModelBuilder,
    line: u32,
    name: &str,
) -> Result<(), LineError>
    ensures { Gives (λ _. stands_for builder.new) result (after_call (open_disjunct_outcome name.now line (stands_for builder.old))) }
{
    builder.open_disjunct(alloc, name, line)?;
    Ok(())
}

/// Closes the innermost that is open.
fn close(alloc: Global, builder: &mut ModelBuilder) -> Result<(), LineError>
    ensures { Gives (λ _. stands_for builder.new) result (after_call (close_outcome (stands_for builder.old))) }
{
    builder.close(alloc)?;
    Ok(())
}

/// Adds what a line of this form says.
pub fn add(
    alloc: Global,
    builder: &mut ModelBuilder,
    line: u32,
    read: &Form<'_>,
) -> Result<(), LineError>
    ensures { Gives (λ _. stands_for builder.new) result (with_form (stands_for builder.old) line (form read.now)) }
{
    match read {
        Form::Var(name, kind, low, high) => add_var(alloc, builder, line, name, *kind, low, high),
        Form::Boolean(name) => add_boolean(alloc, builder, line, name),
        Form::Goal(sense, sum, constant) => add_goal(alloc, builder, line, *sense, sum, constant),
        Form::Row(sum, rel, right) => add_row(alloc, builder, line, sum, *rel, right),
        Form::Logic(tokens) => add_logic(alloc, builder, line, tokens),
        Form::Disjunction(mode) => open_disjunction(alloc, builder, line, *mode),
        Form::Disjunct(name) => open_disjunct(alloc, builder, line, name),
        Form::End => close(alloc, builder),
    }
}
