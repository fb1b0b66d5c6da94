//! The declared bounds of variables as whole ones.

ghost use Rattle.std.specs.Prelude.{◌≡◌, ◌≤◌, ◌^◌, true, length, map, All, IfOk, neg_ℤ, unsigned_abs};
ghost use Rattle.block_tree.specs.Bounds.{is_end_small, are_bounds};
ghost use Rattle.bound_propagation.specs.Kept.{box_of, is_end_storable};
ghost use Rattle.bound_propagation.specs.Narrowing.{low_declared, high_declared};
ghost use Rattle.bound_propagation.specs.Propagated.{
  whole_low as low_whole,
  whole_high as high_whole,
  rounding_of as kind_rounded,
  whole_box,
};

use crate::bounds::Bounds;
use crate::rounding::{are_crossed, upper};
use block_tree::Bound;
use fractions::Frac;
use gdp_io::Name;
use lp_rows::Kind;
use outcomes::Memory;
use std::alloc::Global;

// The number with the other sign.
fn opposite(z: i128) -> i128
    requires { unsigned_abs z ≤ 10 ^ 15 }
    ensures value { result ≡ neg_ℤ z }
    ensures size { unsigned_abs result ≤ 10 ^ 15 }
{
    -z
}

// A declared low as a whole one.
fn whole_low(kind: Kind, end: Option<Frac>) -> Option<i128>
    requires { is_end_small end ≡ true }
    ensures value { result ≡ low_whole kind end }
    ensures small { is_end_storable result ≡ true }
{
    let f = end?;
    Some(opposite(upper(kind, opposite(f.num()), f.den())))
}

// A declared high as a whole one.
fn whole_high(kind: Kind, end: Option<Frac>) -> Option<i128>
    requires { is_end_small end ≡ true }
    ensures value { result ≡ high_whole kind end }
    ensures small { is_end_storable result ≡ true }
{
    let f = end?;
    Some(upper(kind, f.num(), f.den()))
}

// The kind by whose rule the bounds of a variable are made whole.
fn rounding_of(kind: Kind, bound: Bound) -> Kind
    requires low { is_end_small bound.low ≡ true }
    requires high { is_end_small bound.high ≡ true }
    ensures { result ≡ kind_rounded kind bound.low bound.high }
{
    match kind {
        Kind::Real => Kind::Real,
        Kind::Int => {
            if are_crossed(
                whole_low(Kind::Int, bound.low),
                whole_high(Kind::Int, bound.high),
            ) {
                Kind::Real
            } else {
                Kind::Int
            }
        }
    }
}

/// The declared bounds as whole ones.
pub(crate) fn declared_bounds(
    alloc: Global,
    vars: &[(Name, Kind, Bound, u32)],
) -> Result<Bounds, Memory>
    requires { are_bounds vars.now ≡ true }
    ensures count { IfOk result (λ b. length b.lows ≡ length vars.now) }
    ensures boxed { IfOk result (λ b. box_of b ≡ whole_box vars.now) }
{
    let mut lows = Vec::new(alloc);
    let mut highs = Vec::new(alloc);
    for var in vars {
        let kind = rounding_of(var.1, var.2);
        if lows.push(whole_low(kind, var.2.low)).is_err() {
            return Err(Memory);
        }
        if highs.push(whole_high(kind, var.2.high)).is_err() {
            return Err(Memory);
        }
    }
    Ok(Bounds { lows, highs })
}
