//! The lines on logs: a route, events and a stop, each a word with its numbers behind colons.

use crate::texts::line_of;
use answers::{Route, Stop};
use exact_simplex::{Event, Log};
use log_writer::log_text;
use lp_rows::WideAt;
use script::{Trouble, id, split};
use std::alloc::Global;

// The word before the first colon, and what stands behind it.
fn cut(word: &str) -> (&str, &str) {
    match word.split_once(':') {
        Some((head, rest)) => (head, rest),
        None => (word, ""),
    }
}

// Two numbers, with a colon between them.
fn two(numbers: &str) -> Result<(u32, u32), Trouble> {
    let (first, second) = cut(numbers);
    Ok((id(first)?, id(second)?))
}

// The route, none for the program of a file.
fn route(word: &str) -> Result<Option<Route>, Trouble> {
    match word {
        "lp" => Ok(None),
        "bigm" => Ok(Some(Route::BigM)),
        "hull" => Ok(Some(Route::Hull)),
        "hybrid" => Ok(Some(Route::Hybrid)),
        "logic" => Ok(Some(Route::Logic)),
        _ => Err(Trouble::Line),
    }
}

// An event: `root`, `first:0` and `second:0` for the halves of a node, `move:3:4`.
fn event(word: &str) -> Result<Event, Trouble> {
    let (call, rest) = cut(word);
    match call {
        "root" => Ok(Event::OpenRoot),
        "first" => Ok(Event::Open {
            parent: id(rest)?,
            second: false,
        }),
        "second" => Ok(Event::Open {
            parent: id(rest)?,
            second: true,
        }),
        "move" => {
            let (enter, leave) = two(rest)?;
            Ok(Event::Move { enter, leave })
        }
        _ => Err(Trouble::Line),
    }
}

// Where a number is wide.
fn place(call: &str, rest: &str) -> Result<WideAt, Trouble> {
    match call {
        "entry" => {
            let (row, column) = two(rest)?;
            Ok(WideAt::Entry { row, column })
        }
        "over" => Ok(WideAt::Over { row: id(rest)? }),
        "ray" => Ok(WideAt::Ray { row: id(rest)? }),
        "leaf" => {
            let (row, column) = two(rest)?;
            Ok(WideAt::Leaf { row, column })
        }
        "sum" => Ok(WideAt::Sum { mark: id(rest)? }),
        "raysum" => Ok(WideAt::RaySum { mark: id(rest)? }),
        "value" => Ok(WideAt::Value),
        _ => Err(Trouble::Line),
    }
}

// Why the search stopped: `steps`, or where a number is wide.
fn stop(word: &str) -> Result<Stop, Trouble> {
    if word == "steps" {
        return Ok(Stop::Steps);
    }
    let (call, rest) = cut(word);
    Ok(Stop::Wide(place(call, rest)?))
}

// The log with these events.
fn log_of(alloc: Global, words: &[&str]) -> Result<Log, Trouble> {
    let mut log = Log::new(alloc, 1000)?;
    for word in words {
        if log.spare() == 0 {
            return Err(Trouble::Line);
        }
        log.push(event(word)?);
    }
    Ok(log)
}

/// The text of the log that a line spells: its route, its events and its stop.
pub fn log(alloc: Global, line: &str) -> Result<String, Trouble> {
    let words = split(alloc, line)?;
    let [first, events @ .., last] = words.as_slice() else {
        return Err(Trouble::Line);
    };
    let log = log_of(alloc, events)?;
    let text = log_text(alloc, route(first)?, &log, stop(last)?)?;
    line_of(alloc, text.as_slice())
}
