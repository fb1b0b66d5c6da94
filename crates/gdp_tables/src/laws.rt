//! The laws of the three-valued tables, each the contract of a function with an empty body.

ghost use Rattle.gdp_tables.specs.Laws.{NotIsExact, AndIsExact, OrIsExact, SameIsExact};

/// `not` is known exactly where every completion gives it.
pub fn not_is_exact()
    ensures { NotIsExact }
{}

/// `and` is known exactly where every completion gives it.
pub fn and_is_exact()
    ensures { AndIsExact }
{}

/// `or` is known exactly where every completion gives it.
pub fn or_is_exact()
    ensures { OrIsExact }
{}

/// Whether two truth values are the same is known exactly where every completion gives it.
pub fn same_is_exact()
    ensures { SameIsExact }
{}
