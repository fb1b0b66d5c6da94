//! The words of a line.

use crate::trouble::Trouble;
use fractions::Frac;
use std::alloc::Global;

/// The words of a line, which stand between white space.
pub fn split(alloc: Global, line: &str) -> Result<Vec<&str>, Trouble> {
    let words = line.split_whitespace().collect(alloc)?;
    Ok(words)
}

/// The first word and what stands after the blank behind it.
pub fn first_word(text: &str) -> (&str, &str) {
    match text.split_once(' ') {
        Some((word, rest)) => (word, rest),
        None => (text, ""),
    }
}

/// A whole number.
pub fn number(word: &str) -> Result<i128, Trouble> {
    match word.parse::<i128>() {
        Ok(number) => Ok(number),
        Err(_) => Err(Trouble::Line),
    }
}

/// A count, a mark or the number of a variable, a column or a Boolean.
pub fn id(word: &str) -> Result<u32, Trouble> {
    match word.parse::<u32>() {
        Ok(id) => Ok(id),
        Err(_) => Err(Trouble::Line),
    }
}

/// A fraction as `-3/5`, or a whole number.
pub fn frac(word: &str) -> Result<Frac, Trouble> {
    let (num, den) = match word.split_once('/') {
        Some((num, den)) => (number(num)?, number(den)?),
        None => (number(word)?, 1),
    };
    match Frac::new(num, den) {
        Some(fraction) => Ok(fraction),
        None => Err(Trouble::Line),
    }
}

/// The numbers among the words: those that are no terms.
pub fn numbers(alloc: Global, words: &[&str]) -> Result<Vec<i128>, Trouble> {
    let mut numbers = Vec::new(alloc);
    for word in words {
        if word.split_once(':').is_none() {
            numbers.push(number(word)?)?;
        }
    }
    Ok(numbers)
}

/// The terms among the words, as `2:-5` for the coefficient -5 of the column 2.
pub fn terms(alloc: Global, words: &[&str]) -> Result<Vec<(u32, i128)>, Trouble> {
    let mut terms = Vec::new(alloc);
    for word in words {
        if let Some((column, coefficient)) = word.split_once(':') {
            terms.push((id(column)?, number(coefficient)?))?;
        }
    }
    Ok(terms)
}

/// A truth value for each byte, `y` or another. A dash stands for none.
pub fn truths(alloc: Global, word: &str) -> Result<Vec<bool>, Trouble> {
    let mut truths = Vec::new(alloc);
    for byte in word.bytes() {
        if byte != b'-' {
            truths.push(byte == b'y')?;
        }
    }
    Ok(truths)
}
