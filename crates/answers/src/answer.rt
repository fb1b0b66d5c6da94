//! An answer: a claim, and the route by which it was found.

use crate::claim::Claim;

/// The route by which an answer is found.
#[derive(Clone, Copy, Debug, PartialEq, Eq)]
pub enum Route {
    /// A program compiled with big-M rows alone.
    BigM,
    /// A program in which each exclusive choice has copies of its variables.
    Hull,
    /// A program in which the exclusive choices of few variables and disjuncts have copies.
    Hybrid,
    /// The model itself, by its truth values and integer variables.
    Logic,
}

/// A claim, and the route by which it was found.
#[derive(Drop)]
pub struct Answer {
    /// The route.
    pub route: Route,
    /// What is claimed.
    pub claim: Claim,
}
