//! Names of columns, in the order of their first appearance.

ghost use Rattle.std.specs.Prelude.{◌≡◌, ◌<◌, None, [], ◌∷◌, ◌++◌, length, ◌≤◌, get_or, OnOk, OnErr};
ghost use Rattle.std.specs.Option.{MatchOption};
ghost use Rattle.lp_grammar.specs.Reading.{is_empty};
ghost use Rattle.lp_grammar.specs.Taking.{place_from};

use indexmap::IndexSet;
use outcomes::Memory;
use std::alloc::Global;
use std::marker::Model;

/// Names that differ from one another, numbered in the order of their first appearance.
#[derive(Drop)]
pub struct Names {
    set: IndexSet<Vec<u8>>,
}

impl Model for Names {
    ghost use Rattle.std.specs.Prelude.{List, ℕ, map};
    ghost use Rattle.std.specs.Coded.{coded_list, coded_ℕ};

    ghost Value = { List (List ℕ) };

    ghost coded = { coded_list (coded_list coded_ℕ) };

    ghost view = { λ n. map (λ k. k.items) n.set.keys };
}

impl Names {
    /// No names.
    pub fn new(alloc: Global) -> Names
        ensures { result ≡ [] }
    {
        Names {
            set: IndexSet::new(alloc),
        }
    }

    /// The number of the name.
    pub fn find(&self, name: &[u8]) -> Option<usize>
        ensures { result ≡ place_from 0 name.now self.now }
    {
        self.set.get_index_of(name)
    }

    /// How many names there are.
    pub fn len(&self) -> usize
        ensures { result ≡ length self.now }
    {
        self.set.len()
    }

    /// Whether there is no name.
    pub fn is_empty(&self) -> bool
        ensures { result ≡ is_empty self.now }
    {
        self.set.is_empty()
    }

    /// The name with this number, if there is one.
    pub fn get(&self, id: usize) -> Option<&[u8]>
        ensures { MatchOption result (length self.now ≤ id) (λ name. (id < length self.now) × (name.now ≡ get_or self.now id name.now)) }
    {
        match self.set.get_index(id) {
            None => None,
            Some(name) => Some(name.as_slice()),
        }
    }

    /// Appends a name that is not yet there.
    pub fn push(&mut self, alloc: Global, name: &[u8]) -> Result<(), Memory>
        requires { place_from 0 name.now self.old ≡ None }
        ensures ok { OnOk result (self.new ≡ self.old ++ name.now ∷ []) }
        ensures err { OnErr result (self.new ≡ self.old) }
    {
        let Ok(owned) = name.to_vec(alloc) else {
            return Err(Memory);
        };
        let Ok(_) = self.set.insert(owned) else {
            return Err(Memory);
        };
        Ok(())
    }
}
