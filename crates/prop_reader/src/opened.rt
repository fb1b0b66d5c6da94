//! What is read of a proposition, and the operators that are still open.

ghost use Rattle.std.specs.Prelude.{◌≡◌, [], ◌∷◌, ◌+◌, ◌≤◌, IfOk, IfNone, length, true};
ghost use Rattle.std.specs.Option.{option_map};
ghost use Rattle.std.specs.Result.{ForOk};
ghost use Rattle.propositions.specs.View.{prop_tree, prop_trees};
ghost use Rattle.model_tree.specs.Limits.{greatest_number};
ghost use Rattle.model_builder.specs.Standing.{stands_for};
ghost use Rattle.text_grammar.specs.Outcomes.{result_map};
ghost use Rattle.gdp_grammar.specs.PropNames.{combined as tree_combined};
ghost use Rattle.gdp_grammar.specs.PropSizes.{number_in as number_of_operator};
ghost use Rattle.gdp_grammar.specs.PropTexts.{takes as takes_so_many};
ghost use Rattle.prop_reader.specs.steps.Operators.{operator_value};
ghost use Rattle.prop_reader.specs.steps.Readings.{
  counted_tree,
  reading_value,
  trees_value,
  name_reading,
  opened_reading,
  with_reading,
  one_tree_more,
  whole_tree,
  closed_reading,
};
ghost use Rattle.prop_reader.specs.steps.Sizes.{count_end};

use crate::operator::{Counting, Operator, number_of, takes};
use crate::size::Size;
use gdp_grammar::ReadCause;
use model_builder::ModelBuilder;
use outcomes::Memory;
use propositions::Prop;
use std::alloc::Global;

/// What is read of a proposition: its size, and itself, or the cause against its size. So nothing is built that is
/// refused.
#[derive(Drop)]
pub struct Reading {
    pub size: Size,
    pub prop: Result<Prop, ReadCause>,
}

/// What is read of a name.
pub fn read_name(builder: &ModelBuilder, name: &str) -> Reading
    ensures { reading_value result ≡ name_reading (stands_for builder.now).booleans name.now }
{
    match builder.boolean_id(name) {
        Some(id) => Reading {
            size: Size::of_name(true),
            prop: Ok(Prop::Atom(id)),
        },
        None => Reading {
            size: Size::of_name(false),
            prop: Err(ReadCause::NameUnknown),
        },
    }
}

/// An open operator with what is read of its arguments so far: how many they are, how large they are together, and
/// themselves, or the cause against one of them.
#[derive(Drop)]
pub struct Opened<'a> {
    operator: Operator<'a>,
    count: usize,
    inner: Size,
    arguments: Result<Vec<Prop>, ReadCause>,
    ghost counted: { ForOk arguments (λ v. count ≡ count_end (length v.items)) },
}

impl<'a> Opened<'a> {
    ghost use Rattle.prop_reader.specs.steps.Opened.{opened_value};

    /// An operator without arguments so far.
    pub fn new(alloc: Global, operator: Operator<'a>) -> Opened<'a>
        ensures { opened_value result ≡ opened_reading (operator_value operator.entry) }
    {
        Opened {
            operator,
            count: 0,
            inner: Size::empty(),
            arguments: Ok(Vec::new(alloc)),
        }
    }

    /// The operator with one argument more.
    pub fn with_argument(self, argument: Reading) -> Result<Opened<'a>, Memory>
        ensures { IfOk result (λ more. opened_value more ≡ with_reading (opened_value self.entry) (reading_value argument)) }
    {
        let Opened {
            operator,
            count,
            inner,
            arguments,
        } = self;
        let Reading { size, prop } = argument;
        Ok(Opened {
            operator,
            count: count.saturating_add(1),
            inner: inner.with(&size),
            arguments: with_prop(arguments, prop)?,
        })
    }

    /// What is read of the operator with its arguments, if it takes that many.
    pub fn closed(self, alloc: Global) -> Result<Option<Reading>, Memory>
        ensures { IfOk result (λ read. option_map reading_value read ≡ closed_reading (opened_value self.entry)) }
    {
        let Opened {
            operator,
            count,
            inner,
            arguments,
        } = self;
        if !takes(&operator, count) {
            return Ok(None);
        }
        let size = inner.around(&operator, count);
        let prop = whole_prop(alloc, operator, size.refusal(), arguments)?;
        Ok(Some(Reading { size, prop }))
    }
}

/// The propositions with one more, or the cause against one of them.
fn with_prop(
    arguments: Result<Vec<Prop>, ReadCause>,
    argument: Result<Prop, ReadCause>,
) -> Result<Result<Vec<Prop>, ReadCause>, Memory>
    ensures value { IfOk result (λ more. trees_value more ≡ one_tree_more (trees_value arguments) (result_map prop_tree argument)) }
    ensures count { IfOk result (λ more. IfOk more (λ v. IfOk arguments (λ u. length v.items ≡ length u.items + 1))) }
{
    match (arguments, argument) {
        (Ok(mut arguments), Ok(argument)) => {
            arguments.push(argument)?;
            Ok(Ok(arguments))
        }
        (Err(cause), _) => Ok(Err(cause)),
        (_, Err(cause)) => Ok(Err(cause)),
    }
}

/// The proposition of an operator over its arguments, or the cause against it or against one of them.
fn whole_prop(
    alloc: Global,
    operator: Operator<'_>,
    refusal: Option<ReadCause>,
    arguments: Result<Vec<Prop>, ReadCause>,
) -> Result<Result<Prop, ReadCause>, Memory>
    requires takes { IfOk arguments (λ v. takes_so_many (operator_value operator) (length v.items) ≡ true) }
    requires small { IfNone refusal (number_of_operator (operator_value operator) ≤ greatest_number) }
    ensures { IfOk result (λ prop. result_map prop_tree prop ≡ whole_tree (operator_value operator.entry) refusal (trees_value arguments)) }
{
    if let Some(cause) = refusal {
        return Ok(Err(cause));
    }
    match arguments {
        Ok(arguments) => Ok(Ok(combined(alloc, operator, arguments)?)),
        Err(cause) => Ok(Err(cause)),
    }
}

/// An operator over as many arguments as it takes.
fn combined(alloc: Global, operator: Operator<'_>, arguments: Vec<Prop>) -> Result<Prop, Memory>
    requires takes { takes_so_many (operator_value operator) (length arguments.items) ≡ true }
    requires small { number_of_operator (operator_value operator) ≤ greatest_number }
    ensures { IfOk result (λ p. prop_tree p ≡ tree_combined (operator_value operator.entry) (prop_trees arguments.items)) }
{
    match operator {
        Operator::Not => {
            let first = only_one(arguments);
            Ok(Prop::Not(Box::new(alloc, first)?))
        }
        Operator::And => Ok(Prop::And(arguments)),
        Operator::Or => Ok(Prop::Or(arguments)),
        Operator::Implies => {
            let (first, second) = only_two(arguments);
            Ok(Prop::Implies(Box::new(alloc, first)?, Box::new(alloc, second)?))
        }
        Operator::Equivalent => {
            let (first, second) = only_two(arguments);
            Ok(Prop::Equivalent(Box::new(alloc, first)?, Box::new(alloc, second)?))
        }
        Operator::Xor => {
            let (first, second) = only_two(arguments);
            Ok(Prop::Xor(Box::new(alloc, first)?, Box::new(alloc, second)?))
        }
        Operator::Counted(counting, digits) => Ok(counted(counting, number_of(digits), arguments)),
    }
}

/// A counting operator over its arguments.
fn counted(counting: Counting, number: u32, arguments: Vec<Prop>) -> Prop
    ensures { prop_tree result ≡ counted_tree counting number (prop_trees arguments.items) }
{
    match counting {
        Counting::Exactly => Prop::Exactly(number, arguments),
        Counting::AtLeast => Prop::AtLeast(number, arguments),
        Counting::AtMost => Prop::AtMost(number, arguments),
    }
}

/// The one argument.
fn only_one(arguments: Vec<Prop>) -> Prop
    requires { length arguments.items ≡ 1 }
    ensures { arguments.items ≡ result ∷ [] }
{
    let mut arguments = arguments;
    match arguments.pop() {
        Some(first) => first,
        None => unreachable!(),
    }
}

/// The two arguments.
fn only_two(arguments: Vec<Prop>) -> (Prop, Prop)
    requires { length arguments.items ≡ 2 }
    ensures { arguments.items ≡ result.0 ∷ result.1 ∷ [] }
{
    let mut arguments = arguments;
    match arguments.pop() {
        Some(second) => (only_one(arguments), second),
        None => unreachable!(),
    }
}
