//! The lines about the tokens of a line, and about how a text is cut into lines.

use crate::words::{bytes, bytes_text};
use gdp_grammar::ReadCause;
use gdp_lines::value::value;
use gdp_lines::{LineError, Token, Tokens, are_words, first_line, without_comment};
use model_builder::ModelBuilder;
use prop_reader::opened::Reading;
use prop_reader::read::read_prop;
use prop_reader::size::Size;
use propositions::{Prop, depth, greatest_number, most_arguments, node_count};
use script::{Trouble, first_word, shown};
use std::alloc::Global;

// A builder with the Booleans p and q.
fn builder(alloc: Global) -> Result<ModelBuilder, Trouble> {
    let mut builder = ModelBuilder::new(alloc);
    for name in ["p", "q"] {
        if builder.boolean(alloc, name, 1).is_err() {
            return Err(Trouble::Line);
        }
    }
    Ok(builder)
}

// What is read of a proposition of p and q.
fn read(alloc: Global, text: &str) -> Result<Result<Reading, LineError>, Trouble> {
    let builder = builder(alloc)?;
    Ok(read_prop(alloc, &builder, &mut Tokens::new(text.as_bytes())))
}

/// The size of a proposition of p and q as it is read, and then that of its tree, or the cause against it.
pub fn logic(alloc: Global, text: &str) -> Result<String, Trouble> {
    let text = match read(alloc, text)? {
        Ok(Reading { size, prop }) => {
            let (size, tree) = (size_text(alloc, &size)?, tree_text(alloc, &prop)?);
            format!(in alloc; "{size}, {tree}")?
        }
        Err(error) => format!(in alloc; "{error:?}")?,
    };
    Ok(text)
}

fn size_text(alloc: Global, size: &Size) -> Result<String, Trouble> {
    let (known, greatest, depth) = (size.known, size.greatest, size.depth);
    let (nodes, most) = (size.nodes, size.most);
    let text = format!(in alloc; "{known} {greatest} {depth} {nodes} {most}")?;
    Ok(text)
}

fn tree_text(alloc: Global, prop: &Result<Prop, ReadCause>) -> Result<String, Trouble> {
    let text = match prop {
        Ok(prop) => {
            let (greatest, deep) = (greatest_number(prop), depth(prop));
            let (nodes, most) = (node_count(prop), most_arguments(prop));
            format!(in alloc; "{greatest} {deep} {nodes} {most}")?
        }
        Err(cause) => format!(in alloc; "{cause:?}")?,
    };
    Ok(text)
}

/// Whether each name in a proposition is p or q.
pub fn known(alloc: Global, text: &str) -> Result<String, Trouble> {
    match read(alloc, text)? {
        Ok(Reading { size, .. }) => shown(alloc, &size.known),
        Err(_) => Err(Trouble::Line),
    }
}

/// Reads that many negations of p, without and with the closing parentheses: depth, nodes and most arguments.
pub fn deep(alloc: Global, count: u32) -> Result<String, Trouble> {
    let mut text = String::new(alloc);
    for _ in 0..count {
        text.push_str("not(")?;
    }
    let open = match read(alloc, text.as_str())? {
        Ok(Reading { size, .. }) => size_text(alloc, &size)?,
        Err(error) => format!(in alloc; "{error:?}")?,
    };
    text.push_str("p")?;
    for _ in 0..count {
        text.push_str(")")?;
    }
    let Ok(Reading { size, .. }) = read(alloc, text.as_str())? else {
        return Err(Trouble::Line);
    };
    let (depth, nodes, most) = (size.depth, size.nodes, size.most);
    let text = format!(in alloc; "{open}, {depth} {nodes} {most}")?;
    Ok(text)
}

/// What the number at the front of a text is worth behind a minus, or none.
pub fn worth(alloc: Global, text: &str) -> Result<String, Trouble> {
    let Some(Token::Number(number)) = Tokens::new(text.as_bytes()).next() else {
        return shown(alloc, &"none");
    };
    match value(true, &number) {
        Some(fraction) => {
            let (num, den) = (fraction.num(), fraction.den());
            let text = format!(in alloc; "{num}/{den}")?;
            Ok(text)
        }
        None => shown(alloc, &"none"),
    }
}

/// The first line of a text, the rest, and whether the line's words but for its comment are the two that lead.
pub fn cut(alloc: Global, text: &str) -> Result<String, Trouble> {
    let (first, text) = first_word(text);
    let (second, text) = first_word(text);
    let bytes = bytes(alloc, text)?;
    if bytes.is_empty() {
        return Err(Trouble::Line);
    }
    let (line, rest) = first_line(bytes.as_slice());
    let are_these = are_words(without_comment(line), first.as_bytes(), second.as_bytes());
    let (line, rest) = (bytes_text(alloc, line)?, bytes_text(alloc, rest)?);
    let text = format!(in alloc; "{line} {rest} {are_these}")?;
    Ok(text)
}
