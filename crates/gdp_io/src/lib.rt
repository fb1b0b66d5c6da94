//! The edge to the outside. All that the program reads comes from a [`Shelf`], and all that it writes
//! goes to a [`Sink`]: two small traits whose meaning a contract can name.
//!
//! A shelf has contents behind names, a place in them, names that are open and a count of faults for
//! each name; a sink has the bytes written and a count of faults. The contract in one sentence: what is
//! read are the bytes behind the name, what is written is the text, and a call fails only where a count rose.
//!
//! Read `shelves.rt`, `sinks.rt`, and then the forms: `memory.rt` (in memory, with calls that fail by their
//! number), `sure.rt` (never fails) and `host.rt` (files and streams, which are trusted). `texts.rt` has the
//! bytes that are read and `names.rt` a name.
#![tactic(auto)]

mod calls;
mod folders;
mod host;
mod memory;
mod names;
mod shelves;
mod sinks;
mod sure;
mod texts;

pub use host::{FileShelf, OutSink};
pub use memory::{MemShelf, MemSink};
pub use names::Name;
pub use shelves::{Failed, ReadAllError, Shelf, read_all};
pub use sinks::{Sink, WriteFault, write_all};
pub use sure::{SureShelf, SureSink};
pub use texts::Text;
