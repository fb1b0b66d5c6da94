//! Numbers as bytes.
//!
//! Its contract in one sentence: a number is appended as the bytes of a prefix code, one byte where it is small, and bytes
//! that begin with it give it back with what follows; so does a stack of bytes that has one on its top.
//!
//! Read `specs/Packed.antt`, then `push.rt`, `read.rt`, `numbers.rt` and `stack.rt`.
#![tactic(auto)]

mod numbers;
mod push;
mod read;
mod stack;

pub use numbers::Numbers;
pub use push::{push_natural, push_number};
pub use read::{read_natural, read_number, reads_again};
pub use stack::{put_natural, put_number, take_natural, take_number};
