//! The texts of answers.

use crate::trouble::Trouble;
use std::alloc::Global;
use std::fmt;

/// A value as it is printed.
pub fn shown<T: fmt::Display>(alloc: Global, value: &T) -> Result<String, Trouble> {
    let text = format!(in alloc; "{value}")?;
    Ok(text)
}

/// Adds an item to a text, after a blank where it is not the first.
pub fn add_to(text: &mut String, item: &str) -> Result<(), Trouble> {
    if !text.is_empty() {
        text.push_str(" ")?;
    }
    text.push_str(item)?;
    Ok(())
}

/// Terms as a script writes them.
pub fn terms_text(alloc: Global, terms: &[(u32, i128)]) -> Result<String, Trouble> {
    let mut text = String::new(alloc);
    for (column, coefficient) in terms {
        let term = format!(in alloc; "{column}:{coefficient}")?;
        add_to(&mut text, term.as_str())?;
    }
    Ok(text)
}
