//! Where a search stands while no node is at work.

ghost use Rattle.search_core.specs.Tidy.{IsTidy};

use crate::arena::Arena;
use search_rules::{Best, Waiting};

/// Where a search stands while no node is at work.
#[derive(Drop)]
pub struct Board {
    pub(crate) opened: u32,
    pub(crate) waiting: Vec<Waiting>,
    pub(crate) arena: Arena,
    pub(crate) best: Option<Best>,
    ghost tidy: { IsTidy opened waiting.items arena.slots.items },
}
