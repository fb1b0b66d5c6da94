//! The words that answers and logs share.

ghost use Rattle.std.specs.Prelude.{◌≡◌, ◌∷◌, ◌++◌, OnOk};
ghost use Rattle.text_grammar.specs.Printing.{whole_word};
ghost use Rattle.cert_grammar.specs.Claims.{route_word};

use answers::Route;
use gdp_io::Text;
use outcomes::Memory;
use std::alloc::Global;
use text_printer::{put_digits, put_minus, put_word};

// A whole number.
pub(crate) fn put_signed(alloc: Global, text: &mut Text, number: i128) -> Result<(), Memory>
    ensures { OnOk result (text.new ≡ text.old ++ whole_word number) }
{
    put_minus(alloc, text, number)?;
    put_digits(alloc, text, number.unsigned_abs())
}

/// A blank and the word of a route.
pub fn put_route(alloc: Global, text: &mut Text, route: Route) -> Result<(), Memory>
    ensures { OnOk result (text.new ≡ text.old ++ 32 ∷ route_word route) }
{
    match route {
        Route::BigM => put_word(alloc, text, b"bigm"),
        Route::Hull => put_word(alloc, text, b"hull"),
        Route::Hybrid => put_word(alloc, text, b"hybrid"),
        Route::Logic => put_word(alloc, text, b"logic"),
    }
}
