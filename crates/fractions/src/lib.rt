//! Exact fractions of 128-bit integers.
//!
//! Each call gives the exact value, or says that a number left 128 bits. Read `wide.rt` with `specs/Width.antt` (what
//! fits), then `divisors.rt`, and `frac.rt` with `specs/Fraction.antt`. What lowest terms are is said there alone:
//! `IsLowest` of a fraction, `IsReduced` of the quotient that it is. `specs/Lowest.antt` computes that quotient.
#![tactic(auto)]

pub mod divisors;
pub mod frac;
pub mod laws;
pub mod quotients;
pub mod sums;
pub mod wide;

pub use divisors::{divisor_of_both, exact_quotient, gcd, lcm};
pub use frac::Frac;
pub use laws::{lowest_is_reduced, one_lowest_form};
pub use quotients::compare_quotients;
pub use sums::add_product;
pub use wide::Wide;

#[cfg(test)]
mod tests;
