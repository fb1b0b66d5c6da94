//! Where the text of an answer stands: the line that is due, and what is claimed.

use fractions::Frac;

/// The line that is due.
#[derive(Clone, Copy, Debug, PartialEq, Eq)]
pub enum Due {
    /// The first line.
    Header,
    /// The line of the route.
    RouteLine,
    /// The line that says what is claimed.
    ClaimLine,
    /// The line of the denominator.
    Over,
    /// The line of the next variable's number.
    Vals,
    /// The line of a Boolean that is true, of at least this place, or what comes behind these lines.
    Ons(usize),
    /// The line of the next variable's step.
    Steps,
    /// The end of a claim without a proof.
    LastLine,
    /// The line before the nodes.
    TreeLine,
    /// The line of a node, or the end.
    Nodes,
    /// No line.
    Nothing,
}

/// What is claimed, with its value.
#[derive(Drop)]
pub enum ClaimKind {
    /// This value is best.
    IsBest(Frac),
    /// There is no point.
    IsEmpty,
    /// The goal improves without end.
    IsEndless,
}
