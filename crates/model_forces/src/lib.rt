//! What is in force at a path of a search over a model that branches on truth values: columns, at-most rows and the
//! objective.
//!
//! Its contract in one sentence: the force excludes no point of the model on the path, and where each Boolean is known and
//! no item is false, a point of the force with whole numbers for integer variables is one of the model's.
//!
//! Read `specs/Paths.antt` for what a path says, `specs/Forces.antt` for what is in force, `specs/Laws.antt` for the laws
//! that `laws.rt` states, and `force.rt`; `tables.rt` reads a path once into tables (`specs/Tables.antt`).
#![tactic(auto)]

mod force;
pub mod laws;
pub mod reading;
mod tables;

pub use force::model_force;
pub use reading::{is_no, is_open, known};
pub use tables::tris;
