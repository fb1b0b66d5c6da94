//! What the tests of a point answer, and the value of the goal there.

/// Whether a point satisfies a model.
#[derive(Clone, Copy, Debug, PartialEq, Eq)]
pub enum Verdict {
    /// Every test passes.
    Holds,
    /// The first test that does not pass fails, and this is the mark of its item.
    FailsAt(u32),
}

/// The first test that does not pass forms a number outside 128 bits, and this is the mark of its item.
#[derive(Clone, Copy, Debug, PartialEq, Eq)]
pub struct SumWide {
    /// The mark.
    pub mark: u32,
}

/// A number that the value of a goal forms is outside 128 bits.
#[derive(Clone, Copy, Debug, PartialEq, Eq)]
pub struct ValueWide;
