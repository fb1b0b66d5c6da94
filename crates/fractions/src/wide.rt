//! A number outside 128 bits.

/// A number outside the range of `i128` came up, and the exact value could not be had.
#[derive(Clone, Copy, Debug, PartialEq, Eq)]
pub struct Wide;
