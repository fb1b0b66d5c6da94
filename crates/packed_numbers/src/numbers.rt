//! Packed numbers that stand one behind the other.

ghost use Rattle.std.specs.Prelude.{◌≡◌, ◌<◌, ◌^◌, ◌==◌, length};
ghost use Rattle.std.specs.Int.RustNames.{FitsSigned};
ghost use Rattle.packed_numbers.specs.Packed.{natural_in, number_in};
ghost use mir.Syntax.{w128};

use crate::read::{read_natural, read_number};
use std::marker::Model;

/// The numbers that are left to read, which contracts see as their bytes.
#[derive(Drop)]
pub struct Numbers<'a> {
    bytes: &'a [u8],
}

impl<'a> Model for Numbers<'a> {
    ghost use Rattle.std.specs.Prelude.{ℕ, List};

    ghost Value = { List ℕ };

    ghost view = { λ n. n.bytes.now };
}

impl<'a> Numbers<'a> {
    /// The numbers that these bytes are.
    pub fn new(bytes: &'a [u8]) -> Numbers<'a>
        ensures { result ≡ bytes.now }
    {
        Numbers { bytes }
    }

    /// The same numbers, to be read apart from here.
    pub fn again(&self) -> Numbers<'a>
        ensures { result ≡ self.now }
    {
        Numbers { bytes: self.bytes }
    }

    /// Whether none is left.
    pub fn is_empty(&self) -> bool
        ensures { result ≡ (length self.now == 0) }
    {
        self.bytes.is_empty()
    }

    /// Takes the next one, a natural number of 64 bits.
    pub fn natural(&mut self) -> u64
        requires { (natural_in self.old).0 < 2 ^ 64 }
        ensures number { result ≡ (natural_in self.old).0 }
        ensures rest { self.new ≡ (natural_in self.old).1 }
    {
        let (number, rest) = read_natural(self.bytes);
        self.bytes = rest;
        number
    }

    /// Takes the next one, a whole number of 128 bits.
    pub fn number(&mut self) -> i128
        requires { FitsSigned w128 (number_in self.old).0 }
        ensures number { result ≡ (number_in self.old).0 }
        ensures rest { self.new ≡ (number_in self.old).1 }
    {
        let (number, rest) = read_number(self.bytes);
        self.bytes = rest;
        number
    }
}
