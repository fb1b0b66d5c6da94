//! The variables that occur in the rows of a disjunction.

ghost use Rattle.std.specs.Prelude.{IfOk, OnOk};
ghost use Rattle.model_items.specs.steps.Adding.{Adds};
ghost use Rattle.model_items.specs.Occurs.{
  HasJust,
  occurs_in_rows,
  occurs_in_block,
  occurs_below,
  occurs_within,
};
ghost use Rattle.model_tree.specs.Scaling.{has_id};
ghost use Rattle.model_tree.specs.View.{
  block_of,
  disjunct_of,
  disjunction_of,
  disjuncts_of,
  disjunctions_of,
};

use lp_rows::Row;
use model_tree::{Block, Disjunct, Disjunction};
use outcomes::Memory;
use std::alloc::Global;
use std::collections::BTreeSet;

/// The variables that have a term in a row of the disjuncts' blocks or below them.
pub fn occurs(alloc: Global, disjunction: &Disjunction) -> Result<BTreeSet<u32>, Memory>
    ensures { IfOk result (HasJust (λ id. occurs_within id (disjunction_of disjunction.now).1)) }
{
    let mut ids = BTreeSet::new(alloc);
    add_disjuncts(&mut ids, disjunction.disjuncts())?;
    Ok(ids)
}

#[cycle(occurs)]
fn add_disjuncts(ids: &mut BTreeSet<u32>, disjuncts: &[Disjunct]) -> Result<(), Memory>
    ensures { OnOk result (Adds (λ id. occurs_within id (disjuncts_of disjuncts.now)) ids.old ids.new) }
{
    for disjunct in disjuncts {
        add_disjunct(ids, disjunct)?;
    }
    Ok(())
}

#[cycle(occurs)]
fn add_disjunct(ids: &mut BTreeSet<u32>, disjunct: &Disjunct) -> Result<(), Memory>
    ensures { OnOk result (Adds (λ id. occurs_in_block id (disjunct_of disjunct.now).1) ids.old ids.new) }
{
    add_block(ids, disjunct.block())
}

#[cycle(occurs)]
fn add_block(ids: &mut BTreeSet<u32>, block: &Block) -> Result<(), Memory>
    ensures { OnOk result (Adds (λ id. occurs_in_block id (block_of block.now)) ids.old ids.new) }
{
    add_rows(ids, block.rows())?;
    add_disjunctions(ids, block.disjunctions())?;
    Ok(())
}

#[cycle(occurs)]
fn add_disjunctions(ids: &mut BTreeSet<u32>, disjunctions: &[Disjunction]) -> Result<(), Memory>
    ensures { OnOk result (Adds (λ id. occurs_below id (disjunctions_of disjunctions.now)) ids.old ids.new) }
{
    for disjunction in disjunctions {
        add_disjunction(ids, disjunction)?;
    }
    Ok(())
}

#[cycle(occurs)]
fn add_disjunction(ids: &mut BTreeSet<u32>, disjunction: &Disjunction) -> Result<(), Memory>
    ensures { OnOk result (Adds (λ id. occurs_within id (disjunction_of disjunction.now).1) ids.old ids.new) }
{
    add_disjuncts(ids, disjunction.disjuncts())
}

fn add_rows(ids: &mut BTreeSet<u32>, rows: &[(Row, u32)]) -> Result<(), Memory>
    ensures { OnOk result (Adds (λ id. occurs_in_rows id rows.now) ids.old ids.new) }
{
    for row in rows {
        add_terms(ids, row.0.terms())?;
    }
    Ok(())
}

fn add_terms(ids: &mut BTreeSet<u32>, terms: &[(u32, i128)]) -> Result<(), Memory>
    ensures { OnOk result (Adds (λ id. has_id id terms.now) ids.old ids.new) }
{
    for term in terms {
        ids.insert(term.0)?;
    }
    Ok(())
}
