//! The small enums of linear programs.

ghost use Rattle.std.specs.Prelude.{◌≡◌, ◌≤ℤ◌, pos};
ghost use Rattle.lp_rows.specs.Kinds.{is_of_kind as of_kind};

/// How the sum of a row's terms is to stand to its right side.
#[derive(Clone, Copy, Debug, PartialEq, Eq)]
pub enum Rel {
    /// At most the right side.
    AtMost,
    /// At least the right side.
    AtLeast,
    /// Equal to the right side.
    Equal,
}

/// Whether a lesser or a greater value of the goal is better.
#[derive(Clone, Copy, Debug, PartialEq, Eq)]
pub enum Sense {
    /// A lesser value is better.
    Min,
    /// A greater value is better.
    Max,
}

/// Which numbers a variable may take.
#[derive(Clone, Copy, Debug, PartialEq, Eq)]
pub enum Kind {
    /// Every fraction.
    Real,
    /// Whole numbers alone.
    Int,
}

/// Whether a variable or a column of this kind takes the number over the denominator.
pub fn is_of_kind(kind: Kind, number: i128, over: i128) -> bool
    requires { pos 1 ≤ℤ over }
    ensures { result ≡ of_kind kind number over }
{
    match kind {
        Kind::Real => true,
        Kind::Int => number.unsigned_abs() % over.unsigned_abs() == 0,
    }
}
