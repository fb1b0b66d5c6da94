//! Lists that contracts see as lists: terms, numbers and truth values.

ghost use Rattle.std.specs.Prelude.{◌≡◌, ◌<◌, ◌≤◌, ◌==◌, [], ◌∷◌, ◌++◌, length, IfOk, IsOk, OnOk, OnErr};

use item_lists::List;
use outcomes::Memory;
use smallvec::SmallVec;
use std::alloc::Global;
use std::marker::Model;

/// Terms of a sum: the number of a variable or a column, and its coefficient.
///
/// Up to eight terms lie in the value and take no memory.
#[derive(Drop)]
pub struct Terms {
    items: SmallVec<(u32, i128), 8>,
}

impl Model for Terms {
    ghost use Rattle.std.specs.Prelude.{List, ℕ, ℤ};
    ghost use Rattle.std.specs.Coded.{coded_list, coded×, coded_ℕ, coded_ℤ};

    ghost Value = { List (ℕ × ℤ) };

    ghost coded = { coded_list (coded× coded_ℕ coded_ℤ) };

    ghost view = { λ t. t.items.items };
}

/// Whole numbers, as the numerators of a point.
pub type Nums = List<i128>;

/// Truth values, as those of the Booleans of a model.
pub type Flags = List<bool>;

impl Terms {
    /// No terms.
    pub fn new(alloc: Global) -> Terms
        ensures { result ≡ [] }
    {
        Terms {
            items: SmallVec::new(alloc),
        }
    }

    /// A copy of these terms. At most eight take no memory.
    pub fn from_slice(alloc: Global, terms: &[(u32, i128)]) -> Result<Terms, Memory>
        ensures copied { IfOk result (λ t. t ≡ terms.now) }
        ensures short { length terms.now ≤ 8 → IsOk result }
    {
        let Ok(items) = SmallVec::from_slice(alloc, terms) else {
            return Err(Memory);
        };
        Ok(Terms { items })
    }

    /// A copy of these terms. At most eight take no memory.
    pub fn copy(&self, alloc: Global) -> Result<Terms, Memory>
        ensures copied { IfOk result (λ t. t ≡ self.now) }
        ensures short { length self.now ≤ 8 → IsOk result }
    {
        Terms::from_slice(alloc, self.as_slice())
    }

    /// Adds a term at the end. Up to the eighth it takes no memory, and a refused call changes nothing.
    pub fn push(&mut self, _alloc: Global, term: (u32, i128)) -> Result<(), Memory>
        ensures ok { OnOk result (self.new ≡ self.old ++ term ∷ []) }
        ensures err { OnErr result (self.new ≡ self.old) }
        ensures short { length self.old < 8 → IsOk result }
    {
        let is_full = self.items.len() == self.items.capacity();
        if is_full && self.items.reserve(1).is_err() {
            return Err(Memory);
        }
        self.items.push_reserved(term);
        Ok(())
    }

    /// How many terms there are.
    pub fn len(&self) -> usize
        ensures { result ≡ length self.now }
    {
        self.items.len()
    }

    /// Whether there is no term.
    pub fn is_empty(&self) -> bool
        ensures { result ≡ (length self.now == 0) }
    {
        self.items.len() == 0
    }

    /// The terms in order.
    pub fn as_slice(&self) -> &[(u32, i128)]
        ensures { result.now ≡ self.now }
    {
        self.items.as_slice()
    }
}
