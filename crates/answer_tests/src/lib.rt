//! The tests of an answer that need no proof: its point, its value and its ray.
//!
//! Its contract in one sentence: the first group of tests that fails, or in which a number leaves 128 bits, decides; and
//! a claim whose tests pass has a point with the value, or a point and a ray along which the goal gets better without end.
//!
//! Read `specs/Groups.antt` for the tests in their order, `specs/Rays.antt` for those of a ray and `specs/Laws.antt` for
//! what they show; then `testing.rt`, `errors.rt` for why they fail, and `rays.rt`.
#![tactic(auto)]

pub mod errors;
pub mod laws;
pub mod rays;
pub mod testing;

pub use errors::AnswerError;
pub use rays::ray_fails;
pub use testing::{see_claim, test_claim, test_point, test_ray, test_value};
