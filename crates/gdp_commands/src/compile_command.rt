//! `compile CHOICE MODEL`: the program of a model, as LP text.
ghost use Rattle.std.specs.Prelude.{◌≡◌, ◌++◌, ℕ, List, [], ◌∷◌, IfOk, OnOk, length, map};
ghost use Rattle.gdp_grammar.specs.Canonical.{name_in, var_names};
ghost use Rattle.gdp_io.specs.Shelf.{OpensFirst};
ghost use Rattle.hybrid_rewrite.specs.Chosen.{flagging};
ghost use Rattle.hybrid_rewrite.specs.Compiled.{compiled};
ghost use Rattle.model_tree.specs.Values.{model_tree};
ghost use Rattle.text_grammar.specs.Printing.{text_of};
ghost use Rattle.gdp_commands.specs.Answers.{IsReplyTo};
ghost use Rattle.gdp_commands.specs.Compile.{CompileSays, CompiledSays, RefusedSays, compiled_text, name_line, name_lines};
ghost use Rattle.gdp_commands.specs.Messages.{no_bound_at};
ghost use Rattle.gdp_commands.specs.Replies.{text_of as reply_text};
ghost use Rattle.gdp_commands.specs.Statuses.{IsWorked};
ghost use Rattle.gdp_commands.specs.Table.{IsOne};
ghost use Rattle.gdp_commands.specs.Texts.{IsLong};
ghost use Rattle.gdp_commands.specs.Words.Form.{Compile};

use crate::fetched::{Fetched, fetch};
use crate::messages::{make_line, make_place};
use crate::replies::{Reply, read_failed, refuse_at};
use crate::status::Status;
use gdp_io::{Name, Shelf, Text};
use gdp_reader::ReadError;
use hybrid_rewrite::{Choice, CompileError, compile};
use lp_rows::Kind;
use lp_writer::put_milp;
use milps::Milp;
use model_tree::{Bound, Model};
use outcomes::Memory;
use std::alloc::Global;
use text_printer::{end_line, put_numbered, put_word};

/// Fetches the model's text, and answers by it.
pub fn compile_command<S: Shelf>(
    alloc: Global,
    shelf: &mut S,
    choice: Choice,
    model: &str,
) -> Result<Reply, Memory>
    ensures replies { IfOk result (λ reply. IsReplyTo (Compile choice model.now) (S.contents shelf.old) (S.faults shelf.old) (S.faults shelf.new) reply.status (reply_text reply)) }
    ensures opens { OpensFirst (S.is_opened shelf.old) (S.is_opened shelf.new) (model.now ∷ []) }
{
    match fetch(alloc, shelf, model) {
        Ok(text) => compile_text(alloc, choice, model, &text),
        Err(error) => read_failed(alloc, error, model),
    }
}

/// What a text that was fetched answers.
fn compile_text(alloc: Global, choice: Choice, model: &str, text: &Fetched) -> Result<Reply, Memory>
    requires within { ¬ IsLong text.now }
    ensures worked { IfOk result (λ reply. IsWorked reply.status) }
    ensures says { IfOk result (λ reply. CompileSays choice model.now text.now reply.status (reply_text reply)) }
{
    match text.model(alloc) {
        Ok(read) => compile_model(alloc, choice, &read),
        Err(ReadError::At { line, cause }) => refuse_at(alloc, model, line, cause),
        Err(ReadError::Memory) => Err(Memory),
    }
}

/// What compiling a model answers.
fn compile_model(alloc: Global, choice: Choice, model: &Model) -> Result<Reply, Memory>
    ensures worked { IfOk result (λ reply. IsWorked reply.status) }
    ensures says { IfOk result (λ reply. CompiledSays (model_tree model.now) (compiled (model_tree model.now) (flagging choice (model_tree model.now))) reply.status (reply_text reply)) }
{
    match compile(alloc, model, choice) {
        Ok(compiled) => Ok(Reply {
            status: Status::Done,
            text: make_compiled(alloc, model, compiled.milp())?,
        }),
        Err(error) => refuse(alloc, model, error),
    }
}

/// The answer of a refusal.
pub fn refuse(alloc: Global, model: &Model, error: CompileError) -> Result<Reply, Memory>
    ensures worked { IfOk result (λ reply. IsWorked reply.status) }
    ensures says { IfOk result (λ reply. RefusedSays (model_tree model.now) error reply.status (reply_text reply)) }
{
    let text = match error {
        CompileError::NoBound { mark, var } => make_no_bound(alloc, mark, name_of(model, var))?,
        CompileError::MTooWide { mark } => make_place(alloc, b"too wide at line ", mark)?,
        CompileError::TooBig => make_line(alloc, b"too big", b"")?,
        CompileError::Memory => return Err(Memory),
    };
    Ok(Reply {
        status: Status::Rewrite,
        text,
    })
}

/// The name of a variable.
fn name_of(model: &Model, var: u32) -> &str
    ensures { result.now ≡ name_in (var_names (model_tree model.now)) var }
{
    match model.vars().get(var as usize) {
        Some(found) => found.0.as_str(),
        None => "",
    }
}

/// The line that names a variable of which a bound is missing.
fn make_no_bound(alloc: Global, mark: u32, name: &str) -> Result<Text, Memory>
    ensures { IfOk result (λ text. text ≡ no_bound_at mark name.now) }
{
    let number = mark.to_string(alloc)?;
    let mut text = Text::new(alloc);
    text.append(alloc, b"no bound at line ")?;
    text.append(alloc, number.as_bytes())?;
    text.append(alloc, b" for ")?;
    text.append(alloc, name.as_bytes())?;
    text.push(alloc, b'\n')?;
    Ok(text)
}

/// The names of a model's columns, and the text of its program.
fn make_compiled(alloc: Global, model: &Model, milp: &Milp) -> Result<Text, Memory>
    ensures { IfOk result (λ text. text ≡ compiled_text (model_tree model.now) milp.now) }
{
    let vars = model.vars();
    let mut text = Text::new(alloc);
    put_vars(alloc, &mut text, vars)?;
    put_booleans(alloc, &mut text, vars.len(), model.booleans())?;
    put_milp(alloc, &mut text, milp)?;
    Ok(text)
}

/// A line for each variable.
fn put_vars(alloc: Global, text: &mut Text, vars: &[(Name, Kind, Bound, u32)]) -> Result<(), Memory>
    ensures { OnOk result (text.new ≡ text.old ++ text_of (name_lines 0 (map (λ v. v.0) vars.now))) }
{
    for (column, var) in vars.iter().enumerate() {
        put_name(alloc, text, column as u128, var.0.as_str())?;
    }
    Ok(())
}

/// A line for each Boolean, the first of which has this column.
fn put_booleans(
    alloc: Global,
    text: &mut Text,
    first: usize,
    booleans: &[(Name, u32)],
) -> Result<(), Memory>
    ensures { OnOk result (text.new ≡ text.old ++ text_of (name_lines first (map (λ b. b.0) booleans.now))) }
{
    for (place, boolean) in booleans.iter().enumerate() {
        let column = first as u128 + place as u128;
        put_name(alloc, text, column, boolean.0.as_str())?;
    }
    Ok(())
}

/// The line that names a column.
fn put_name(alloc: Global, text: &mut Text, column: u128, name: &str) -> Result<(), Memory>
    ensures { OnOk result (text.new ≡ text.old ++ name_line column name.now ++ 10 ∷ []) }
{
    text.append(alloc, b"\\")?;
    put_numbered(alloc, text, b'x', column)?;
    put_word(alloc, text, name.as_bytes())?;
    end_line(alloc, text)
}

/// A text has at most one answer.
pub fn one_compile()
    ensures { (choice : Choice) (model model_text : List ℕ) → IsOne (CompileSays choice model model_text) }
{}
