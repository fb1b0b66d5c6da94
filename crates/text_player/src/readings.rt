//! The lines that read a text of a model or a point.

use crate::words::bytes;
use gdp_reader::{read_model, read_point};
use model_tree::{Model, ModelPoint};
use script::{Trouble, add_to, shown, terms_text};
use std::alloc::Global;

/// The most bytes of a text.
const LONGEST: usize = 1_000_000;

/// Reads a model and keeps it, or says where and why it is refused.
pub fn model(alloc: Global, kept: &mut Option<Model>, text: &str) -> Result<String, Trouble> {
    let bytes = bytes(alloc, text)?;
    if bytes.len() > LONGEST {
        return Err(Trouble::Line);
    }
    match read_model(alloc, bytes.as_slice()) {
        Ok(model) => {
            *kept = Some(model);
            shown(alloc, &"read")
        }
        Err(error) => shown(alloc, &error),
    }
}

/// Reads a point of the model, or says where and why it is refused.
pub fn point(alloc: Global, kept: &Option<Model>, text: &str) -> Result<String, Trouble> {
    let Some(model) = kept else {
        return Err(Trouble::Line);
    };
    let bytes = bytes(alloc, text)?;
    if bytes.len() > LONGEST {
        return Err(Trouble::Line);
    }
    match read_point(alloc, model, bytes.as_slice()) {
        Ok(point) => point_text(alloc, &point),
        Err(error) => shown(alloc, &error),
    }
}

// The denominator of a point, its numerators and its truth values.
fn point_text(alloc: Global, point: &ModelPoint) -> Result<String, Trouble> {
    let mut text = shown(alloc, &point.at.over())?;
    for number in point.at.nums() {
        add_to(&mut text, shown(alloc, number)?.as_str())?;
    }
    for truth in point.truths.as_slice() {
        add_to(&mut text, shown(alloc, truth)?.as_str())?;
    }
    Ok(text)
}

/// The goal of the model: its terms, its constant, its scale and its mark.
pub fn goal(alloc: Global, kept: &Option<Model>) -> Result<String, Trouble> {
    let Some(model) = kept else {
        return Err(Trouble::Line);
    };
    let terms = terms_text(alloc, model.terms())?;
    let (constant, scale, mark) = (model.constant(), model.scale(), model.goal_mark());
    let text = format!(in alloc; "{terms} constant {constant} scale {scale} at {mark}")?;
    Ok(text)
}
