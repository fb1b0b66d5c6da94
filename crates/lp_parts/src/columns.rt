//! Columns with their bounds.

ghost use Rattle.std.specs.Prelude.{◌≡◌, Some, None};
ghost use Rattle.lp_grammar.specs.Taking.{new_column as one_new_column, bounded_by, freed};
ghost use Rattle.lp_grammar.specs.Reading.{integer_change};

use fractions::Frac;
use lp_grammar::Column;
use lp_rows::Rel;
use lp_tokens::value::whole_number;

/// A column without a bound.
pub fn new_column() -> Column
    ensures { result ≡ one_new_column }
{
    Column {
        is_integer: false,
        low: Some(whole_number(0)),
        high: None,
    }
}

/// The column with a bound.
pub fn bounded(rel: Rel, bound: Option<Frac>, column: Column) -> Column
    ensures { result ≡ bounded_by rel bound column }
{
    match rel {
        Rel::AtMost => Column {
            high: bound,
            ..column
        },
        Rel::AtLeast => Column {
            low: bound,
            ..column
        },
        Rel::Equal => {
            let low = bound;
            Column {
                is_integer: column.is_integer,
                low,
                high: bound,
            }
        }
    }
}

/// The column without bounds.
pub fn unbounded(column: Column) -> Column
    ensures { result ≡ freed column }
{
    Column {
        is_integer: column.is_integer,
        low: None,
        high: None,
    }
}

/// The column as an integer or a binary one.
pub fn made_integer(is_binary: bool, column: Column) -> Column
    ensures { result ≡ integer_change is_binary column }
{
    if is_binary {
        Column {
            is_integer: true,
            low: Some(whole_number(0)),
            high: Some(whole_number(1)),
        }
    } else {
        Column {
            is_integer: true,
            low: column.low,
            high: column.high,
        }
    }
}
