//! The memory of former tableaus.

ghost use Rattle.std.specs.Prelude.{◌≡◌, ◌<◌, pos, replicate, IfOk};

use outcomes::Memory;
use simplex_rows::Row;
use std::alloc::Global;

/// The rows of former tableaus, in whose memory the next one is made, or none. No clause speaks of them.
#[derive(Drop)]
pub struct Room {
    rows: Vec<Row>,
}

impl Room {
    /// No row yet.
    pub fn new(alloc: Global) -> Room {
        Room {
            rows: Vec::new(alloc),
        }
    }

    /// A row of zeros, in the memory of one that is kept.
    pub(crate) fn zeros(&mut self, alloc: Global, width: usize) -> Result<Row, Memory>
        requires { width < 4294967296 }
        ensures { IfOk result (λ row. row ≡ replicate width (pos 0)) }
    {
        match self.rows.pop() {
            None => Row::zeros(alloc, width),
            Some(row) => row.cleared(alloc, width),
        }
    }

    /// Keeps a row that isn't needed any more, unless memory runs out.
    pub(crate) fn keep(&mut self, row: Row) {
        let _kept = self.rows.push(row);
    }
}
