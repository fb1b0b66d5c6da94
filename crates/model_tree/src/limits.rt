//! The limits of a model, each named once.

/// The most variables of a model.
pub const MOST_VARIABLES: usize = 500;

/// The most Booleans of a model, indicators included.
pub const MOST_BOOLEANS: usize = 200;

/// The most rows of all blocks of a model.
pub const MOST_ROWS: u32 = 1_000;

/// The deepest that a disjunct may stand.
pub const DEEPEST_DISJUNCT: usize = 8;

/// The most bytes of a name.
pub const LONGEST_NAME: usize = 64;

/// The most nodes of all propositions of a model.
pub const MOST_NODES: usize = 5_000;

/// The greatest depth of a proposition, where an atom has depth 1.
pub const DEEPEST_PROPOSITION: usize = 16;

/// The most arguments of one connective.
pub const MOST_ARGUMENTS: usize = 200;

/// The greatest number of a counting connective.
pub const GREATEST_NUMBER: u32 = 1_000;
