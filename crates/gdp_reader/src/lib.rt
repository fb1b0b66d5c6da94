//! Reads model and point texts, exactly: a text is read as the model or the point that it spells, and refused at its
//! first bad line with its cause.
//!
//! `gdp_lines` cuts a text into lines and reads a line as a line form, and `prop_reader` reads propositions. Here a form
//! adds to the model that is being built (`building.rt`, `model.rt`), and a line of a point text adds to what the point
//! has so far (`point_taking.rt`, `point.rt`).
#![tactic(auto)]

mod building;
mod error;
mod model;
mod point;
mod point_taking;

pub use error::ReadError;
pub use gdp_grammar::ReadCause;
pub use model::read_model;
pub use point::read_point;
