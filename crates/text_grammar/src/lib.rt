//! What texts of every kind have in common: lines, words, tokens, numbers as they are written, and grammars that are
//! read line by line.
//!
//! Its contract in one sentence: every text of every grammar spells one value or has one first bad line with one cause.
//!
//! There is no code in it. Read `specs/` in the order Bytes, Lines, Lexers, Words, Digits, Printing, Outcomes, Grammars.
//! A text language is one value of `Grammar`: what its lines lead to, where a text first goes wrong, and that just one of
//! the two holds, then follow for every language alike (`IsExact`, proved once in `proofs/GrammarsLemmas.antt`).
//! Texts may come in any pieces (`feeding.rt`).
#![tactic(auto)]

pub mod feeding;
