//! The signs and the number before a name.

ghost use Rattle.std.specs.Prelude.{◌≡◌, IfSome, true};
ghost use Rattle.lp_rows.specs.Rows.{is_storable};
ghost use Rattle.lp_grammar.specs.Taking.{nothing_pending, with_sign as with_one_sign, with_size as with_one_size, or_one, coefficient_of};

use fractions::Frac;
use lp_grammar::Pending;
use lp_tokens::value::{signed_one, signed_or_one};

/// Nothing stands before a name.
pub fn no_pending() -> Pending
    ensures { result ≡ nothing_pending }
{
    Pending {
        is_open: false,
        is_negative: false,
        size: None,
    }
}

/// The coefficient of a name.
pub fn coefficient(pending: Pending) -> Frac
    ensures { result ≡ coefficient_of pending }
{
    match pending.size {
        None => signed_one(pending.is_negative),
        Some(size) => size,
    }
}

/// One more sign, before a number.
pub fn push_sign(is_negative: bool, pending: Pending) -> Pending
    ensures { result ≡ with_one_sign is_negative pending }
{
    Pending {
        is_open: true,
        is_negative: if is_negative {
            !pending.is_negative
        } else {
            pending.is_negative
        },
        size: None,
    }
}

/// A number behind signs, or 1 in place of one that is out of range.
pub fn sized(pending: Pending, value: Option<Frac>) -> Pending
    requires { IfSome value (λ f. is_storable f.num ≡ true) }
    ensures { result ≡ with_one_size (or_one value) pending }
{
    Pending {
        is_open: true,
        is_negative: pending.is_negative,
        size: Some(signed_or_one(pending.is_negative, value)),
    }
}
