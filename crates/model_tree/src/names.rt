//! Names of a model, in the order of their declaration.

ghost use Rattle.std.specs.Prelude.{◌≡◌, false, [], ◌∷◌, ◌++◌, position, OnOk, OnErr};
ghost use Rattle.std.specs.List.{list_all};
ghost use Rattle.std.specs.Str.{bytes_eq};
ghost use Rattle.model_tree.specs.Names.{
  begins_name as may_begin,
  continues_name as may_continue,
  has_name_shape as shaped,
  is_name as is_name_of,
  has_name,
  reserved_words,
};

use crate::limits::LONGEST_NAME;
use indexmap::IndexSet;
use outcomes::Memory;
use std::alloc::Global;
use std::marker::Model;

/// Whether the text is a name of a model: a letter or `_`, then letters, digits, `_` and `.`, at most 64 bytes, and
/// none of the words that mean something in a model text.
#[tactic(auto, unfolding(crate::specs::Names::is_name))]
pub fn is_name(name: &str) -> bool
    ensures { result ≡ is_name_of name.now }
{
    has_name_shape(name.as_bytes()) && name.len() <= LONGEST_NAME && !is_reserved(name)
}

// Whether the bytes begin and go on as those of a name.
fn has_name_shape(bytes: &[u8]) -> bool
    ensures { result ≡ shaped bytes.now }
{
    match bytes {
        [] => false,
        [first, rest @ ..] => begins_name(*first) && all_continue(rest),
    }
}

// Whether a name may go on with each of these bytes.
fn all_continue(bytes: &[u8]) -> bool
    ensures { result ≡ list_all may_continue bytes.now }
{
    bytes.iter().all(|byte| continues_name(*byte))
}

/// Whether a name may begin with this byte.
pub fn begins_name(byte: u8) -> bool
    ensures { result ≡ may_begin byte }
{
    byte.is_ascii_alphabetic() || byte == b'_'
}

/// Whether a name may go on with this byte.
pub fn continues_name(byte: u8) -> bool
    ensures { result ≡ may_continue byte }
{
    begins_name(byte) || byte.is_ascii_digit() || byte == b'.'
}

// Whether the word means something in a model text, and so is no name.
#[tactic(auto, unfolding(crate::specs::Names::reserved_words))]
fn is_reserved(word: &str) -> bool
    ensures { result ≡ has_name word.now reserved_words }
{
    word == "not"
        || word == "and"
        || word == "or"
        || word == "implies"
        || word == "equivalent"
        || word == "xor"
        || word == "exactly"
        || word == "atleast"
        || word == "atmost"
        || word == "inf"
        || word == "end"
}

/// Names that differ from one another, numbered in the order of their declaration.
#[derive(Drop)]
pub struct Names {
    set: IndexSet<String>,
}

impl Model for Names {
    ghost use Rattle.std.specs.Prelude.{List, ℕ, map, string_bytes};
    ghost use Rattle.std.specs.Coded.{coded_list, coded_ℕ};

    ghost Value = { List (List ℕ) };

    ghost coded = { coded_list (coded_list coded_ℕ) };

    ghost view = { λ n. map string_bytes n.set.keys };
}

impl Names {
    /// No names.
    pub fn new(alloc: Global) -> Names
        ensures { result ≡ [] }
    {
        Names {
            set: IndexSet::new(alloc),
        }
    }

    /// Whether the name is declared.
    pub fn contains(&self, name: &str) -> bool
        ensures { result ≡ has_name name.now self.now }
    {
        self.set.contains(name)
    }

    /// The number of the name.
    pub fn find(&self, name: &str) -> Option<usize>
        ensures { result ≡ position (bytes_eq name.now) self.now }
    {
        self.set.get_index_of(name)
    }

    /// Declares a name that is not yet there.
    pub fn push(&mut self, alloc: Global, name: &str) -> Result<(), Memory>
        requires { has_name name.now self.old ≡ false }
        ensures ok { OnOk result (self.new ≡ self.old ++ name.now ∷ []) }
        ensures err { OnErr result (self.new ≡ self.old) }
    {
        let Ok(owned) = String::from_str(alloc, name) else {
            return Err(Memory);
        };
        let Ok(_) = self.set.insert(owned) else {
            return Err(Memory);
        };
        Ok(())
    }
}
