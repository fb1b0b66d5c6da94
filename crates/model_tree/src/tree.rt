//! The tree of blocks, as it is stored.

ghost use Rattle.std.specs.Prelude.{◌≡◌};

use lp_rows::Row;
use propositions::Prop;

/// How many of a disjunction's indicators are to be true.
#[derive(Clone, Copy, Debug, PartialEq, Eq)]
pub enum Mode {
    /// Exactly one.
    Xor,
    /// At least one.
    Or,
}

/// Rows, propositions and disjunctions that stand together: those of the root, or those that an indicator enforces.
#[cycle(tree)]
#[derive(Drop)]
pub struct Block {
    rows: Vec<(Row, u32)>,
    props: Vec<(Prop, u32)>,
    disjunctions: Vec<Disjunction>,
}

/// A choice between disjuncts.
#[cycle(tree)]
#[derive(Drop)]
pub struct Disjunction {
    mode: Mode,
    disjuncts: Vec<Disjunct>,
    mark: u32,
}

/// A block with the Boolean that enforces it.
#[cycle(tree)]
#[derive(Drop)]
pub struct Disjunct {
    indicator: u32,
    block: Block,
    mark: u32,
}

impl Block {
    ghost use Rattle.model_tree.specs.declared.tree.Block.TheViews.{out-Block};
    ghost use Rattle.model_tree.specs.Tree.{block};
    ghost use Rattle.model_tree.specs.View.{block_of, disjunctions_of, props_of, rows_in, props_in, disjunctions_in};

    /// The block of these rows, propositions and disjunctions.
    pub fn new(
        rows: Vec<(Row, u32)>,
        props: Vec<(Prop, u32)>,
        disjunctions: Vec<Disjunction>,
    ) -> Block
        ensures { block_of result ≡ block (record { rows = rows.items; props = props_of props.items }) (disjunctions_of disjunctions.items) }
    {
        Block {
            rows,
            props,
            disjunctions,
        }
    }

    /// The rows, each with its mark.
    pub fn rows(&self) -> &[(Row, u32)]
        ensures items { result.now ≡ (out-Block self.now).rows.items }
        ensures tree { result.now ≡ rows_in (block_of self.now) }
    {
        self.rows.as_slice()
    }

    /// The propositions, each with its mark.
    pub fn props(&self) -> &[(Prop, u32)]
        ensures items { result.now ≡ (out-Block self.now).props.items }
        ensures tree { props_of result.now ≡ props_in (block_of self.now) }
    {
        self.props.as_slice()
    }

    /// The disjunctions.
    pub fn disjunctions(&self) -> &[Disjunction]
        ensures items { result.now ≡ (out-Block self.now).disjunctions.items }
        ensures tree { disjunctions_of result.now ≡ disjunctions_in (block_of self.now) }
    {
        self.disjunctions.as_slice()
    }
}

impl Disjunction {
    ghost use Rattle.model_tree.specs.declared.tree.Block.TheViews.{out-Disjunction};
    ghost use Rattle.model_tree.specs.View.{disjunction_of, disjuncts_of};

    /// The disjunction of these disjuncts.
    pub fn new(mode: Mode, disjuncts: Vec<Disjunct>, mark: u32) -> Disjunction
        ensures { disjunction_of result ≡ (record { mode = mode; mark = mark }, disjuncts_of disjuncts.items) }
    {
        Disjunction {
            mode,
            disjuncts,
            mark,
        }
    }

    /// How many of the indicators are to be true.
    pub fn mode(&self) -> Mode
        ensures { result ≡ (disjunction_of self.now).0.mode }
    {
        self.mode
    }

    /// The disjuncts.
    pub fn disjuncts(&self) -> &[Disjunct]
        ensures items { result.now ≡ (out-Disjunction self.now).disjuncts.items }
        ensures tree { disjuncts_of result.now ≡ (disjunction_of self.now).1 }
    {
        self.disjuncts.as_slice()
    }

    /// The mark.
    pub fn mark(&self) -> u32
        ensures { result ≡ (disjunction_of self.now).0.mark }
    {
        self.mark
    }
}

impl Disjunct {
    ghost use Rattle.model_tree.specs.declared.tree.Block.TheViews.{out-Disjunct};
    ghost use Rattle.model_tree.specs.View.{block_of, disjunct_of};

    /// The disjunct whose block is enforced by the Boolean of this number.
    pub fn new(indicator: u32, block: Block, mark: u32) -> Disjunct
        ensures { disjunct_of result ≡ (record { indicator = indicator; mark = mark }, block_of block) }
    {
        Disjunct {
            indicator,
            block,
            mark,
        }
    }

    /// The number of the Boolean that enforces the block.
    pub fn indicator(&self) -> u32
        ensures { result ≡ (disjunct_of self.now).0.indicator }
    {
        self.indicator
    }

    /// The block.
    pub fn block(&self) -> &Block
        ensures inside { result.now ≡ (out-Disjunct self.now).block }
        ensures tree { block_of result.now ≡ (disjunct_of self.now).1 }
    {
        &self.block
    }

    /// The mark.
    pub fn mark(&self) -> u32
        ensures { result ≡ (disjunct_of self.now).0.mark }
    {
        self.mark
    }
}
