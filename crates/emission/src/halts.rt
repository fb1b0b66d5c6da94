//! Why an emission stops.

/// Why an emission stops.
#[derive(Clone, Copy, Debug, PartialEq, Eq)]
pub enum Halt {
    /// A bound of the variable is missing, at the line of what needs it.
    NoBound {
        /// The line.
        mark: u32,
        /// The variable.
        var: u32,
    },
    /// A number of a relaxed row passes 10^15.
    TooWide {
        /// The line of the row.
        mark: u32,
    },
    /// A limit on columns or rows would be passed.
    TooBig,
    /// A row is none that the builder takes.
    Unfit,
    /// Memory ran out.
    Memory,
}
