//! Splits, their halves, and paths of halves.

ghost use Rattle.std.specs.Prelude.{◌≡◌, List, [], ◌∷◌, OnOk, OnErr, IfOk, true, false, None, Some, is_some, reverse};
ghost use Rattle.proof_tree.specs.Paths.{after_leaf, popped, rest_of, first_of};

use outcomes::Memory;
use std::alloc::Global;
use std::marker::Model;

/// How the points of a node are parted.
#[derive(Clone, Copy, Debug, PartialEq, Eq)]
pub enum Split {
    /// The column's numbers are at most `at`, or at least `at` + 1.
    Int {
        /// The column.
        column: u32,
        /// The greatest number of the first half.
        at: i128,
    },
    /// The Boolean is true, or false.
    Truth {
        /// The Boolean.
        id: u32,
    },
}

/// One half of a split.
#[derive(Clone, Copy, Debug, PartialEq, Eq)]
pub struct Half {
    /// The split.
    pub split: Split,
    /// Whether the second half.
    pub second: bool,
}

/// A list of halves, which clauses see from the node up to the root.
#[derive(Drop)]
pub struct Path {
    halves: Vec<Half>,
}

impl Model for Path {
    ghost use Rattle.std.specs.Prelude.{List, reverse};
    ghost use Rattle.proof_tree.specs.declared.path.Half.{Half};

    ghost Value = { List Half };

    ghost view = { λ p. reverse p.halves.items };
}

impl Path {
    /// The root's path.
    pub fn new(alloc: Global) -> Path
        ensures { result ≡ [] }
    {
        Path {
            halves: Vec::new(alloc),
        }
    }

    /// Appends a half; a refused one changes nothing.
    pub fn push(&mut self, half: Half) -> Result<(), Memory>
        ensures ok { OnOk result (self.new ≡ half ∷ self.old) }
        ensures err { OnErr result (self.new ≡ self.old) }
    {
        if self.halves.reserve(1).is_err() {
            return Err(Memory);
        }
        self.halves.push_reserved(half);
        Ok(())
    }

    /// A copy.
    pub fn copy(&self) -> Result<Path, Memory>
        ensures { IfOk result (λ p. p ≡ self.now) }
    {
        let halves = self.halves.clone()?;
        Ok(Path { halves })
    }

    /// Takes the last half away; None where there is none.
    pub fn pop(&mut self) -> Option<Half>
        ensures { popped self.old result self.new }
    {
        self.halves.pop()
    }

    /// The halves from the root down.
    pub fn halves(&self) -> &[Half]
        ensures { reverse result.now ≡ self.now }
    {
        self.halves.as_slice()
    }

    /// The last half.
    pub fn last(&self) -> Option<Half>
        ensures { result ≡ first_of self.now }
    {
        match self.halves.last() {
            Some(half) => Some(*half),
            None => None,
        }
    }

    /// Goes on to the node after a leaf here, and says whether there is one.
    pub fn advance(&mut self) -> bool
        ensures found { result ≡ is_some (after_leaf self.old) }
        ensures next { self.new ≡ rest_of (after_leaf self.old) }
    {
        'halves: while let Some(half) = self.halves.pop() {
            if !half.second {
                self.halves.push_reserved(Half {
                    split: half.split,
                    second: true,
                });
                return true;
            }
        }
        false
    }
}
