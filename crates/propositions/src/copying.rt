//! Copies of propositions.

ghost use Rattle.std.specs.Prelude.{◌≡◌, map, IfOk};
ghost use Rattle.propositions.specs.View.{prop_tree};

use crate::tree::Prop;
use outcomes::Memory;
use std::alloc::Global;

/// An equal proposition.
#[cycle(copying)]
pub fn copy(alloc: Global, prop: &Prop) -> Result<Prop, Memory>
    ensures { IfOk result (λ copied. prop_tree copied ≡ prop_tree prop.now) }
{
    match prop {
        Prop::Atom(id) => Ok(Prop::Atom(*id)),
        Prop::Not(inner) => Ok(Prop::Not(copy_boxed(alloc, inner)?)),
        Prop::And(props) => Ok(Prop::And(copy_all(alloc, props)?)),
        Prop::Or(props) => Ok(Prop::Or(copy_all(alloc, props)?)),
        Prop::Implies(first, second) => {
            Ok(Prop::Implies(copy_boxed(alloc, first)?, copy_boxed(alloc, second)?))
        }
        Prop::Equivalent(first, second) => {
            Ok(Prop::Equivalent(copy_boxed(alloc, first)?, copy_boxed(alloc, second)?))
        }
        Prop::Xor(first, second) => {
            Ok(Prop::Xor(copy_boxed(alloc, first)?, copy_boxed(alloc, second)?))
        }
        Prop::Exactly(number, props) => Ok(Prop::Exactly(*number, copy_all(alloc, props)?)),
        Prop::AtLeast(number, props) => Ok(Prop::AtLeast(*number, copy_all(alloc, props)?)),
        Prop::AtMost(number, props) => Ok(Prop::AtMost(*number, copy_all(alloc, props)?)),
    }
}

// An equal proposition in a box of its own.
#[cycle(copying)]
fn copy_boxed(alloc: Global, prop: &Prop) -> Result<Box<Prop>, Memory>
    ensures { IfOk result (λ copied. prop_tree copied.value ≡ prop_tree prop.now) }
{
    let copied = copy(alloc, prop)?;
    Ok(Box::new(alloc, copied)?)
}

// Equal propositions in the same order.
#[cycle(copying)]
fn copy_all(alloc: Global, props: &[Prop]) -> Result<Vec<Prop>, Memory>
    ensures { IfOk result (λ copied. map prop_tree copied.items ≡ map prop_tree props.now) }
{
    let mut copies = Vec::with_capacity(alloc, props.len())?;
    for prop in props {
        copies.push_reserved(copy(alloc, prop)?);
    }
    Ok(copies)
}
