//! Definitions and laws of whole numbers, sums, rows and divisors, below every other crate.
//!
//! Its contract in one sentence: whatever a crate above says of sums of products, of combinations
//! of rows and of primitive rows is about these few definitions, and the laws below hold of them.
//! There is no code to run. The definitions stand in `specs/`, and are read in this order:
//!
//! - `specs/Sums.antt`: a row is a function of the place; `at` reads a list so, `matrix` a list of
//!   lists; `total n f` sums over the places below n, and `inner n f g` is an inner product.
//! - `specs/Terms.antt`: a row as it is stored, by its terms; `dot` is its sum at given numbers, and
//!   `coefficients` what stands at each place.
//! - `specs/Divisors.antt`: the greatest common divisor of a row, and primitive rows.
//! - `specs/Laws.antt`: the laws, each the contract of a function with an empty body in `laws.rt`.
//!
//! Proofs above cite the lemmas in `proofs/`, one file for each idea. `Ring.antt` has the ruleset
//! `products`: `simp products (omega (arith, ints))` proves an equation or an order between sums of
//! products of any degree. `Totals.antt` and `Inner.antt` are on sums, `Dots.antt` on terms,
//! `Divisors.antt` on primitive rows. `Bools.antt` has what every crate above needs of "and", "or" and "not",
//! `Written.antt` what a loop has written that goes over a list place by place.
#![tactic(auto)]

pub mod laws;
