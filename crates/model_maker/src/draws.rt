//! The generator: a state, and the numbers that it gives.

ghost use Rattle.std.specs.Prelude.{◌≡◌, ◌<◌, ◌+◌, ◌*◌, ◌%◌};
ghost use Rattle.model_maker.specs.Draws.{draw as drawn, next as next_of, seeded};

use std::marker::Model;

/// The modulus of the generator.
const MODULUS: u64 = 2_147_483_648;

/// A linear congruential generator.
#[derive(Clone, Copy, Debug)]
pub struct Draws {
    state: u64,
}

impl Model for Draws {
    ghost use Rattle.std.specs.Prelude.{ℕ, ◌<◌};

    ghost Value = { ℕ };

    ghost view = { λ d. d.state };

    ghost invariant = { λ d. d.state < 2147483648 };

    ghost inverse = { λ s. record { state = s } };
}

impl Draws {
    /// The generator of a seed.
    pub fn new(seed: u64) -> Draws
        ensures { result ≡ seeded seed }
    {
        Draws {
            state: seed % MODULUS,
        }
    }

    /// A number below a limit.
    pub fn draw(&mut self, limit: u32) -> u32
        requires { 0 < limit }
        ensures drawn { result ≡ drawn self.old limit }
        ensures below { result < limit }
        ensures next { self.new ≡ next_of self.old }
    {
        self.state = next(self.state);
        (self.state / 65536 % u64::from(limit)) as u32
    }
}

/// The state that follows one.
fn next(state: u64) -> u64
    requires { state < 2147483648 }
    ensures next { result ≡ next_of state }
    ensures below { result < 2147483648 }
{
    (1_103_515_245 * state + 12_345) % MODULUS
}
