//! The texts that commands read: each is fetched whole, and taken apart afterwards.
ghost use Rattle.std.specs.Prelude.{◌≡◌, ℕ, List, [], ◌∷◌, IfOk, IfErr, OnOk, OnErr, IsErrOf};
ghost use Rattle.gdp_grammar.specs.Spelling.{Spells};
ghost use Rattle.gdp_io.specs.Causes.{Rose, NoneFell};
ghost use Rattle.gdp_io.specs.Shelf.{SameContents, IsBehind, OpensOne, OpensFirst};
ghost use Rattle.gdp_reader.specs.Taking.{IsRefused};
ghost use Rattle.lp_grammar.specs.Spelling.{LpSpells};
ghost use Rattle.lp_reader.specs.Read.{IsBad};
ghost use Rattle.model_tree.specs.Values.{model_tree};
ghost use Rattle.gdp_commands.specs.Texts.{IsLong, IsLongAnswer, IsLongerBehind};

use gdp_io::{ReadAllError, Shelf, Text, read_all};
use gdp_reader::{ReadError, read_model};
use lp_reader::{LpError, LpFile, read_lp};
use model_tree::Model;
use std::alloc::Global;
use std::marker;

/// The limit on the text of a model or a point, in bytes.
const LIMIT: u64 = 8_388_608;

/// The limit on the text of an answer, in bytes.
const ANSWER_LIMIT: u64 = 1_099_511_627_776;

/// A text that was read whole and is within the limit.
#[derive(Debug, Drop)]
pub struct Fetched {
    text: Text,
}

impl marker::Model for Fetched {
    ghost use Rattle.std.specs.Prelude.{ℕ, List};
    ghost use Rattle.gdp_commands.specs.Texts.{IsLong as is_long};

    ghost Value = { List ℕ };

    ghost view = { λ f. f.text };

    ghost invariant = { λ f. ¬ is_long f.text };
}

impl Fetched {
    /// Its bytes.
    pub fn as_slice(&self) -> &[u8]
        ensures same { result.now ≡ self.now }
        ensures within { ¬ IsLong self.now }
    {
        self.text.as_slice()
    }

    /// The model that it spells.
    pub fn model(&self, alloc: Global) -> Result<Model, ReadError>
        ensures found { IfOk result (λ model. Spells self.now (model_tree model)) }
        ensures refused { IfErr result (λ error. IsRefused self.now error) }
    {
        read_model(alloc, self.text.as_slice())
    }

    /// The program that it spells.
    pub fn program(&self, alloc: Global) -> Result<LpFile, LpError>
        ensures found { IfOk result (LpSpells self.now) }
        ensures refused { IfErr result (IsBad self.now) }
    {
        read_lp(alloc, self.text.as_slice())
    }
}

/// Reads the text behind a name whole, up to the limit. The name is opened once, and no other.
pub fn fetch<S: Shelf>(alloc: Global, shelf: &mut S, name: &str) -> Result<Fetched, ReadAllError>
    ensures text { IfOk result (λ text. IsBehind (S.contents shelf.old) name.now text) }
    ensures within { IfOk result (λ text. ¬ IsLong text) }
    ensures too_long { IsErrOf result ReadAllError.TooLong → IsLongerBehind 8388608 (S.contents shelf.old) name.now }
    ensures read { IsErrOf result ReadAllError.Read → Rose (S.faults shelf.old name.now) (S.faults shelf.new name.now) }
    ensures contents { SameContents (S.contents shelf.old) (S.contents shelf.new) }
    ensures later { NoneFell (S.faults shelf.old) (S.faults shelf.new) }
    ensures opened { OnOk result (OpensOne (S.is_opened shelf.old) (S.is_opened shelf.new) name.now) }
    ensures tried { OnErr result (OpensFirst (S.is_opened shelf.old) (S.is_opened shelf.new) (name.now ∷ [])) }
{
    match read_all(alloc, shelf, name, LIMIT) {
        Ok(text) => Ok(Fetched { text }),
        Err(error) => Err(error),
    }
}

/// Reads the text of an answer behind a name whole, up to its limit. The name is opened once, and no other.
pub fn fetch_answer<S: Shelf>(
    alloc: Global,
    shelf: &mut S,
    name: &str,
) -> Result<Text, ReadAllError>
    ensures text { IfOk result (λ text. IsBehind (S.contents shelf.old) name.now text) }
    ensures within { IfOk result (λ text. ¬ IsLongAnswer text) }
    ensures too_long { IsErrOf result ReadAllError.TooLong → IsLongerBehind 1099511627776 (S.contents shelf.old) name.now }
    ensures read { IsErrOf result ReadAllError.Read → Rose (S.faults shelf.old name.now) (S.faults shelf.new name.now) }
    ensures contents { SameContents (S.contents shelf.old) (S.contents shelf.new) }
    ensures later { NoneFell (S.faults shelf.old) (S.faults shelf.new) }
    ensures opened { OnOk result (OpensOne (S.is_opened shelf.old) (S.is_opened shelf.new) name.now) }
    ensures tried { OnErr result (OpensFirst (S.is_opened shelf.old) (S.is_opened shelf.new) (name.now ∷ [])) }
{
    read_all(alloc, shelf, name, ANSWER_LIMIT)
}
