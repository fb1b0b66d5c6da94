//! How large a proposition is, and why it is refused for its size.

ghost use Rattle.std.specs.Prelude.{◌≡◌};
ghost use Rattle.prop_reader.specs.SizeCauses.{refusal_of_size};
ghost use Rattle.prop_reader.specs.steps.Operators.{operator_value};
ghost use Rattle.prop_reader.specs.steps.Sizes.{name_size, no_size, joined_size, whole_size};

use crate::operator::{Operator, number_in};
use gdp_grammar::ReadCause;
use model_tree::limits::{DEEPEST_PROPOSITION, GREATEST_NUMBER, MOST_ARGUMENTS, MOST_NODES};

/// The size of a proposition: whether each name is that of a Boolean, the greatest number of a counting operator, the
/// depth, the number of nodes, and the most arguments of one operator. Each number stays at the last of its type where
/// it is more.
#[derive(Clone, Copy)]
pub struct Size {
    pub known: bool,
    pub greatest: u32,
    pub depth: usize,
    pub nodes: usize,
    pub most: usize,
}

impl Size {
    /// The size of a name.
    pub fn of_name(is_known: bool) -> Size
        ensures { result ≡ name_size is_known }
    {
        Size {
            known: is_known,
            greatest: 0,
            depth: 1,
            nodes: 1,
            most: 0,
        }
    }

    /// The size of no arguments.
    pub fn empty() -> Size
        ensures { result ≡ no_size }
    {
        Size {
            known: true,
            greatest: 0,
            depth: 0,
            nodes: 0,
            most: 0,
        }
    }

    /// The size of arguments and one more.
    pub fn with(&self, argument: &Size) -> Size
        ensures { result ≡ joined_size self.now argument.now }
    {
        Size {
            known: self.known && argument.known,
            greatest: self.greatest.max(argument.greatest),
            depth: self.depth.max(argument.depth),
            nodes: self.nodes.saturating_add(argument.nodes),
            most: self.most.max(argument.most),
        }
    }

    /// The size of an operator over that many arguments, which have this size together.
    pub fn around(&self, operator: &Operator<'_>, count: usize) -> Size
        ensures { result ≡ whole_size (operator_value operator.now) count self.now }
    {
        Size {
            known: self.known,
            greatest: self.greatest.max(number_in(operator)),
            depth: self.depth.saturating_add(1),
            nodes: self.nodes.saturating_add(1),
            most: self.most.max(count),
        }
    }

    /// Why a proposition of this size is refused, if it is.
    pub fn refusal(&self) -> Option<ReadCause>
        ensures { result ≡ refusal_of_size self.now }
    {
        if !self.known {
            return Some(ReadCause::NameUnknown);
        }
        if self.greatest > GREATEST_NUMBER {
            return Some(ReadCause::Number);
        }
        if self.depth > DEEPEST_PROPOSITION {
            return Some(ReadCause::Nesting);
        }
        if self.nodes > MOST_NODES || self.most > MOST_ARGUMENTS {
            return Some(ReadCause::Limit);
        }
        None
    }
}
