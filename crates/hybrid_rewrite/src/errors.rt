//! Why a model is not compiled.

/// Why a model is not compiled.
#[derive(Clone, Copy, Debug, PartialEq, Eq)]
pub enum CompileError {
    /// A bound of the variable is missing, at the line of what needs it.
    NoBound {
        /// The line.
        mark: u32,
        /// The variable.
        var: u32,
    },
    /// A number of a relaxed row passes 10^15.
    MTooWide {
        /// The line of the row.
        mark: u32,
    },
    /// A limit on columns or rows would be passed.
    TooBig,
    /// Memory ran out.
    Memory,
}
