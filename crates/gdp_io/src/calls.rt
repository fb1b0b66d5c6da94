//! Calls that are numbered from 1, some of which fail.
ghost use Rattle.std.specs.Prelude.{◌≡◌, IfOk, IsTrue, ◌↔◌};
ghost use Rattle.gdp_io.specs.Calls.{FailsAfter, one_more};

use outcomes::Memory;
use std::alloc::Global;

/// The calls that were made, and the numbers of those that fail.
#[derive(Debug, Drop)]
pub(crate) struct Calls {
    failing: Vec<u32>,
    made: u32,
}

impl Calls {
    /// No call made yet; those of these numbers will fail.
    pub(crate) fn new(alloc: Global, failing: &[u32]) -> Result<Calls, Memory>
        ensures { IfOk result (λ calls. (calls.failing.items ≡ failing.now) × (calls.made ≡ 0)) }
    {
        let failing = Vec::from_slice(alloc, failing)?;
        Ok(Calls { failing, made: 0 })
    }

    /// Counts a call, and says whether it fails. Where the numbers are used up, each call fails.
    pub(crate) fn next_fails(&mut self) -> bool
        ensures fails { IsTrue result ↔ FailsAfter self.old.failing.items self.old.made }
        ensures counted { self.new.made ≡ one_more self.old.made }
        ensures listed { self.new.failing.items ≡ self.old.failing.items }
    {
        match self.made.checked_add(1) {
            None => true,
            Some(number) => {
                self.made = number;
                self.failing.contains(&number)
            }
        }
    }
}
