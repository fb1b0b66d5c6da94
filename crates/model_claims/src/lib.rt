//! What an answer claims of a model: a best value, that there is no point, or a ray along which the objective gets
//! better without end.
//!
//! Its contract in one sentence: claims that are true of one model are of one kind and one value.
//!
//! Read `specs/Claims.antt` for the claims, and `specs/Laws.antt` for the laws that `laws.rt` states.
#![tactic(auto)]

pub mod laws;
