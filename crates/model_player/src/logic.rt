//! The lines that ask about the proposition that stands last.

use crate::bench::Bench;
use crate::words::{tri_text, tris};
use propositions::{
    Prop, depth, greatest_number, has_empty_list, has_ids_below, most_arguments, node_count, tri,
    truth,
};
use script::{Trouble, id, shown, truths};
use std::alloc::Global;

/// What these words ask about the last proposition, or none where they ask something else.
pub fn ask_prop(alloc: Global, bench: &Bench, words: &[&str]) -> Result<Option<String>, Trouble> {
    let answer = match (words, bench.props.last()) {
        (["nodes"], Some(prop)) => shown(alloc, &node_count(prop))?,
        (["sizes"], Some(prop)) => sizes(alloc, prop)?,
        (["below", count], Some(prop)) => {
            let count = id(count)? as usize;
            shown(alloc, &has_ids_below(prop, count))?
        }
        (["tri", word], Some(prop)) => reading(alloc, prop, word)?,
        (["truth", word], Some(prop)) => truth_at(alloc, prop, word)?,
        _ => return Ok(None),
    };
    Ok(Some(answer))
}

// The greatest number, the depth, the nodes, the most arguments, and whether a list is empty.
fn sizes(alloc: Global, prop: &Prop) -> Result<String, Trouble> {
    let (greatest, deep) = (greatest_number(prop), depth(prop));
    let (nodes, most) = (node_count(prop), most_arguments(prop));
    let is_empty = has_empty_list(prop);
    let text = format!(in alloc; "{greatest} {deep} {nodes} {most} {is_empty}")?;
    Ok(text)
}

// What is known of the proposition, or none where a Boolean of it has no value here.
fn reading(alloc: Global, prop: &Prop, word: &str) -> Result<String, Trouble> {
    let tris = tris(alloc, word)?;
    if !has_ids_below(prop, tris.len()) {
        return shown(alloc, &"none");
    }
    tri_text(alloc, tri(prop, tris.as_slice()))
}

// The proposition's truth, or none where a Boolean of it has no value here.
fn truth_at(alloc: Global, prop: &Prop, word: &str) -> Result<String, Trouble> {
    let truths = truths(alloc, word)?;
    if !has_ids_below(prop, truths.len()) {
        return shown(alloc, &"none");
    }
    shown(alloc, &truth(prop, truths.as_slice()))
}
