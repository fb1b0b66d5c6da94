//! The text of a log.

ghost use Rattle.std.specs.Prelude.{◌≡◌, [], ◌∷◌, ◌++◌, OnOk, IfOk};
ghost use Rattle.std.specs.Fmt.{decimal};
ghost use Rattle.text_grammar.specs.Printing.{spaced, line_of, text_of};
ghost use Rattle.log_writer.specs.Logs.{log_route_word, half_word, event_line, event_lines, place_words, stop_words, log_text_of};

use answers::{Route, Stop};
use cert_writer::put_route;
use exact_simplex::{Event, Log};
use gdp_io::Text;
use lp_rows::WideAt;
use outcomes::Memory;
use std::alloc::Global;
use text_printer::{end_line, put_natural, put_word};

// A blank and the word of a route.
fn put_log_route(alloc: Global, text: &mut Text, route: Option<Route>) -> Result<(), Memory>
    ensures { OnOk result (text.new ≡ text.old ++ 32 ∷ log_route_word route) }
{
    match route {
        None => put_word(alloc, text, b"lp"),
        Some(route) => put_route(alloc, text, route),
    }
}

// A blank and the number of a half.
fn put_half(alloc: Global, text: &mut Text, second: bool) -> Result<(), Memory>
    ensures { OnOk result (text.new ≡ text.old ++ 32 ∷ half_word second) }
{
    if second {
        return put_word(alloc, text, b"2");
    }
    put_word(alloc, text, b"1")
}

// The line of an event, without its end.
fn put_event(alloc: Global, text: &mut Text, event: Event) -> Result<(), Memory>
    ensures { OnOk result (text.new ≡ text.old ++ event_line event) }
{
    match event {
        Event::OpenRoot => text.append(alloc, b"open root"),
        Event::Open { parent, second } => {
            text.append(alloc, b"open")?;
            put_natural(alloc, text, parent as u128)?;
            put_half(alloc, text, second)
        }
        Event::Move { enter, leave } => {
            text.append(alloc, b"move")?;
            put_natural(alloc, text, enter as u128)?;
            put_natural(alloc, text, leave as u128)
        }
    }
}

// A line for each event.
fn put_events(alloc: Global, text: &mut Text, events: &[Event]) -> Result<(), Memory>
    ensures { OnOk result (text.new ≡ text.old ++ text_of (event_lines events.now)) }
{
    for event in events {
        put_event(alloc, text, *event)?;
        end_line(alloc, text)?;
    }
    Ok(())
}

// A blank, a word, a blank and a number.
fn put_one(alloc: Global, text: &mut Text, word: &[u8], number: u32) -> Result<(), Memory>
    ensures { OnOk result (text.new ≡ text.old ++ spaced (word.now ∷ decimal number ∷ [])) }
{
    put_word(alloc, text, word)?;
    put_natural(alloc, text, number as u128)
}

// A blank, a word, and two numbers with a blank before each.
fn put_two(
    alloc: Global,
    text: &mut Text,
    word: &[u8],
    first: u32,
    second: u32,
) -> Result<(), Memory>
    ensures { OnOk result (text.new ≡ text.old ++ spaced (word.now ∷ decimal first ∷ decimal second ∷ [])) }
{
    put_word(alloc, text, word)?;
    put_natural(alloc, text, first as u128)?;
    put_natural(alloc, text, second as u128)
}

// The words of a place, with a blank before each.
fn put_place(alloc: Global, text: &mut Text, place: WideAt) -> Result<(), Memory>
    ensures { OnOk result (text.new ≡ text.old ++ spaced (place_words place)) }
{
    match place {
        WideAt::Entry { row, column } => put_two(alloc, text, b"entry", row, column),
        WideAt::Over { row } => put_one(alloc, text, b"over", row),
        WideAt::Ray { row } => put_one(alloc, text, b"ray", row),
        WideAt::Leaf { row, column } => put_two(alloc, text, b"leaf", row, column),
        WideAt::Sum { mark } => put_one(alloc, text, b"sum", mark),
        WideAt::RaySum { mark } => put_one(alloc, text, b"raysum", mark),
        WideAt::Value => put_word(alloc, text, b"value"),
    }
}

// The words that say why a search stopped, with a blank before each.
fn put_stop(alloc: Global, text: &mut Text, stop: Stop) -> Result<(), Memory>
    ensures { OnOk result (text.new ≡ text.old ++ spaced (stop_words stop)) }
{
    match stop {
        Stop::Steps => put_word(alloc, text, b"steps"),
        Stop::Wide(place) => put_place(alloc, text, place),
    }
}

/// The text of a log.
pub fn log_text(alloc: Global, route: Option<Route>, log: &Log, stop: Stop) -> Result<Text, Memory>
    ensures { IfOk result (λ text. text ≡ log_text_of route log.now.events stop) }
{
    let mut text = Text::from_slice(alloc, b"gdp-log 1\nroute")?;
    put_log_route(alloc, &mut text, route)?;
    end_line(alloc, &mut text)?;
    put_events(alloc, &mut text, log.events())?;
    text.append(alloc, b"stop")?;
    put_stop(alloc, &mut text, stop)?;
    end_line(alloc, &mut text)?;
    Ok(text)
}
