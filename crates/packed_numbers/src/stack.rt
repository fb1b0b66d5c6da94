//! Numbers on top of a stack of bytes, which reads from its end.

ghost use Rattle.std.specs.Prelude.{◌≡◌, ◌<◌, ◌^◌, ◌++◌, OnOk, OnErr, length, reverse, take};
ghost use Rattle.std.specs.Int.RustNames.{FitsSigned};
ghost use mir.Syntax.{w128};
ghost use Rattle.packed_numbers.specs.Packed.{packed_natural, packed_number, natural_in, number_in};

use crate::push::fold;
use crate::read::unfold;
use outcomes::Memory;

// Puts the digits of a number, the last first; a refused one may leave some of them.
fn put_digits(bytes: &mut Vec<u8>, number: u128) -> Result<(), Memory>
    ensures ok { OnOk result (reverse bytes.new.items ≡ packed_natural number ++ reverse bytes.old.items) }
    ensures before { take (length bytes.old.items) bytes.new.items ≡ bytes.old.items }
{
    if number < 128 {
        bytes.push(number as u8)?;
    } else {
        put_digits(bytes, number / 128)?;
        bytes.push((number % 128) as u8 + 128)?;
    }
    Ok(())
}

// Puts a natural number; a refused one changes nothing.
fn put_wide(bytes: &mut Vec<u8>, number: u128) -> Result<(), Memory>
    ensures ok { OnOk result (reverse bytes.new.items ≡ packed_natural number ++ reverse bytes.old.items) }
    ensures err { OnErr result (bytes.new.items ≡ bytes.old.items) }
{
    let length = bytes.len();
    let put = put_digits(bytes, number);
    if put.is_err() {
        bytes.truncate(length);
    }
    put
}

/// Puts a natural number on top; a refused one changes nothing.
pub fn put_natural(bytes: &mut Vec<u8>, number: u64) -> Result<(), Memory>
    ensures ok { OnOk result (reverse bytes.new.items ≡ packed_natural number ++ reverse bytes.old.items) }
    ensures err { OnErr result (bytes.new.items ≡ bytes.old.items) }
{
    put_wide(bytes, u128::from(number))
}

/// Puts a whole number on top; a refused one changes nothing.
pub fn put_number(bytes: &mut Vec<u8>, number: i128) -> Result<(), Memory>
    ensures ok { OnOk result (reverse bytes.new.items ≡ packed_number number ++ reverse bytes.old.items) }
    ensures err { OnErr result (bytes.new.items ≡ bytes.old.items) }
{
    put_wide(bytes, fold(number))
}

// Takes the natural number on top away.
fn take_wide(bytes: &mut Vec<u8>) -> u128
    requires { (natural_in (reverse bytes.old.items)).0 < 2 ^ 128 }
    ensures number { result ≡ (natural_in (reverse bytes.old.items)).0 }
    ensures rest { reverse bytes.new.items ≡ (natural_in (reverse bytes.old.items)).1 }
{
    let Some(digit) = bytes.pop() else {
        return 0;
    };
    let digit = u128::from(digit);
    if digit < 128 {
        return digit;
    }
    128 * take_wide(bytes) + (digit - 128)
}

/// Takes the natural number on top away, which has 64 bits.
pub fn take_natural(bytes: &mut Vec<u8>) -> u64
    requires { (natural_in (reverse bytes.old.items)).0 < 2 ^ 64 }
    ensures number { result ≡ (natural_in (reverse bytes.old.items)).0 }
    ensures rest { reverse bytes.new.items ≡ (natural_in (reverse bytes.old.items)).1 }
{
    take_wide(bytes) as u64
}

/// Takes the whole number on top away, which has 128 bits.
#[tactic(auto, using(crate::proofs::Reading::unfolds_narrow))]
pub fn take_number(bytes: &mut Vec<u8>) -> i128
    requires { FitsSigned w128 (number_in (reverse bytes.old.items)).0 }
    ensures number { result ≡ (number_in (reverse bytes.old.items)).0 }
    ensures rest { reverse bytes.new.items ≡ (number_in (reverse bytes.old.items)).1 }
{
    unfold(take_wide(bytes))
}
