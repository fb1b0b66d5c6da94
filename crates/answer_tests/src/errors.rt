//! Why the tests of a claim fail.

/// Why the tests of a claim fail.
#[derive(Clone, Copy, Debug, PartialEq, Eq)]
pub enum AnswerError {
    /// The point fails at the line with this mark.
    Point {
        /// The mark.
        mark: u32,
    },
    /// A number of the point's test is wide at the line with this mark.
    PointWide {
        /// The mark.
        mark: u32,
    },
    /// The value is not the point's.
    Value,
    /// A number of the value is wide.
    ValueWide,
    /// The ray fails at the line with this mark.
    Ray {
        /// The mark.
        mark: u32,
    },
    /// A number of the ray's test is wide at the line with this mark.
    RayWide {
        /// The mark.
        mark: u32,
    },
}
