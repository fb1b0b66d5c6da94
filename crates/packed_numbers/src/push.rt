//! Numbers are appended to bytes.

ghost use Rattle.std.specs.Prelude.{◌≡◌, ◌++◌, OnOk, OnErr, take, length};
ghost use Rattle.packed_numbers.specs.Packed.{packed_natural, packed_number, folded};

use outcomes::Memory;

// Appends the digits of a number; a refused one may leave some of them.
fn push_digits(bytes: &mut Vec<u8>, number: u128) -> Result<(), Memory>
    ensures ok { OnOk result (bytes.new.items ≡ bytes.old.items ++ packed_natural number) }
    ensures before { take (length bytes.old.items) bytes.new.items ≡ bytes.old.items }
{
    let mut high = number;
    while high >= 128 {
        bytes.push((high % 128) as u8 + 128)?;
        high /= 128;
    }
    bytes.push(high as u8)?;
    Ok(())
}

// Appends a natural number; a refused one changes nothing.
fn push_wide(bytes: &mut Vec<u8>, number: u128) -> Result<(), Memory>
    ensures ok { OnOk result (bytes.new.items ≡ bytes.old.items ++ packed_natural number) }
    ensures err { OnErr result (bytes.new.items ≡ bytes.old.items) }
{
    let length = bytes.len();
    let pushed = push_digits(bytes, number);
    if pushed.is_err() {
        bytes.truncate(length);
    }
    pushed
}

/// Appends a natural number; a refused one changes nothing.
pub fn push_natural(bytes: &mut Vec<u8>, number: u64) -> Result<(), Memory>
    ensures ok { OnOk result (bytes.new.items ≡ bytes.old.items ++ packed_natural number) }
    ensures err { OnErr result (bytes.new.items ≡ bytes.old.items) }
{
    push_wide(bytes, u128::from(number))
}

// A whole number as a natural one, with the sign as the lowest bit.
pub(crate) fn fold(number: i128) -> u128
    ensures { result ≡ folded number }
{
    if number < 0 {
        2 * ((-(number + 1)) as u128) + 1
    } else {
        2 * (number as u128)
    }
}

/// Appends a whole number; a refused one changes nothing.
pub fn push_number(bytes: &mut Vec<u8>, number: i128) -> Result<(), Memory>
    ensures ok { OnOk result (bytes.new.items ≡ bytes.old.items ++ packed_number number) }
    ensures err { OnErr result (bytes.new.items ≡ bytes.old.items) }
{
    push_wide(bytes, fold(number))
}
