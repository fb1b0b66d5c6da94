//! What the texts spell: bytes, lines, tokens, line forms, and the model or point that they give.
//!
//! The definitions stand in `specs/`, to be read in the order Classes, Lines, Words, Tokens, Forms, Reading, Spelling for
//! model texts, and then PointForms, PointReading, LineGrammars, Points for point texts; the code here is the enumerations
//! that they share with the readers and the printer. A reader of texts is right where it answers what `Spells` and
//! `SpellsPoint` say. What makes these trustworthy stands in the files of laws: one model or point for a text or one
//! first bad line, what the lines declare each for itself, and worked texts (`laws.rt`, `point_laws.rt`); that the tree is
//! nested as the lines are, by the owner of each line (`nesting_laws.rt`); that texts may come in any pieces
//! (`feeding.rt`); and that tokens are read as a proposition exactly where it is written with them (`prop_laws.rt`).
#![tactic(auto)]

pub mod canonical_laws;
pub mod cause;
pub mod class;
pub mod laws;
pub mod nesting_laws;
pub mod point_laws;
pub mod prop_laws;
pub mod symbol;

pub use cause::ReadCause;
pub use class::Class;
pub use symbol::Symbol;
pub use text_grammar::feeding;
