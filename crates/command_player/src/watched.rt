//! A shelf that reveals the names that were opened on it.
ghost use Rattle.std.specs.Prelude.{◌≡◌, ◌+◌, [], ◌∷◌, ◌++◌, false, OnOk, OnErr};

use gdp_io::{Failed, Name, Shelf};
use outcomes::Memory;
use std::alloc::Global;

/// A shelf, and the names that were opened on it, in order. Where memory runs out for a name, it is not opened, and that
/// is a fault.
#[derive(Drop)]
pub struct Watched<S: Shelf + Drop> {
    alloc: Global,
    inner: S,
    names: Vec<Name>,
    is_lost: bool,
    lost: u64,
}

impl<S: Shelf + Drop> Watched<S> {
    /// A shelf on which no name was opened yet.
    pub fn new(alloc: Global, inner: S) -> Watched<S> {
        Watched {
            alloc,
            inner,
            names: Vec::new(alloc),
            is_lost: false,
            lost: 0,
        }
    }

    /// The names that were opened, in order.
    pub fn names(&self) -> &[Name]
        ensures { ⟦<Watched<S> as Shelf>⟧.is_opened self.now result.now }
    {
        self.names.as_slice()
    }
}

impl<S: Shelf + Drop> Shelf for Watched<S> {
    ghost contents = { λ s. S.contents s.inner };

    ghost is_at = { λ s. S.is_at s.inner };

    ghost is_open = { λ s name. (s.is_lost ≡ false) × S.is_open s.inner name };

    ghost is_opened = { λ s names. names ≡ s.names.items };

    ghost faults = { λ s name. S.faults s.inner name + s.lost };

    fn begin(&mut self, name: &str) -> Result<(), Failed> {
        self.is_lost = note(self.alloc, &mut self.names, name).is_err();
        if self.is_lost {
            self.lost = self.lost.saturating_add(1);
            return Err(Failed);
        }
        self.inner.begin(name)
    }

    fn read(&mut self, into: &mut [u8]) -> Result<usize, Failed> {
        self.inner.read(into)
    }
}

/// Adds a name at the end.
fn note(alloc: Global, names: &mut Vec<Name>, name: &str) -> Result<(), Memory>
    ensures ok { OnOk result (names.new.items ≡ names.old.items ++ name.now ∷ []) }
    ensures err { OnErr result (names.new.items ≡ names.old.items) }
{
    let name = Name::from_str(alloc, name)?;
    names.push(name)?;
    Ok(())
}
