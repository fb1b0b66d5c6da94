//! Propositions, as they are stored.

/// A proposition. A list of arguments may be empty: then all of them are true, and none is.
#[derive(Drop)]
pub enum Prop {
    /// The Boolean of this number.
    Atom(u32),
    /// The proposition is false.
    Not(Box<Prop>),
    /// All are true.
    And(Vec<Prop>),
    /// Some is true.
    Or(Vec<Prop>),
    /// The first is false or the second is true.
    Implies(Box<Prop>, Box<Prop>),
    /// Both are true or both are false.
    Equivalent(Box<Prop>, Box<Prop>),
    /// One is true and the other is false.
    Xor(Box<Prop>, Box<Prop>),
    /// As many are true as the number says.
    Exactly(u32, Vec<Prop>),
    /// At least as many are true.
    AtLeast(u32, Vec<Prop>),
    /// At most as many are true.
    AtMost(u32, Vec<Prop>),
}
