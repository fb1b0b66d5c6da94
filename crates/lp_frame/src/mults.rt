//! Multipliers of rows.

use item_lists::List;

/// Multipliers: the number of a row, and by what it is multiplied. Contracts see a list.
pub type Mults = List<(u32, i128)>;
