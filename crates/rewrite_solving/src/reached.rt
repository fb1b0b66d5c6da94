//! What solving comes to: a claim, or a give-up.

ghost use Rattle.std.specs.Prelude.{◌≡◌};
ghost use Rattle.rewrite_solving.specs.Reached.{reached_by};

use answers::{Claim, Stop};
use exact_simplex::Log;
use lp_rows::WideAt;

/// What solving comes to.
#[derive(Drop)]
pub enum Reached {
    /// A claim that is true of the model, with its proof.
    Claimed(Claim),
    /// It gave up.
    GaveUp {
        /// What was done before.
        log: Log,
        /// Why.
        stop: Stop,
    },
}

/// The claim; or a give-up, where one of its own tests is wide.
pub fn come_to(made: Result<Claim, WideAt>, log: Log) -> Reached
    ensures { result ≡ reached_by made log }
{
    match made {
        Ok(claim) => Reached::Claimed(claim),
        Err(place) => Reached::GaveUp {
            log,
            stop: Stop::Wide(place),
        },
    }
}
