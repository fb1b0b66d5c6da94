//! Proofs over a model's own forces.

ghost use Rattle.std.specs.Prelude.{◌≡◌, ◌<◌, ◌^◌, ◌++◌, ◌<ℤ◌, pos, true, false, length, Some, Ok, OnOk, IfOk, nat_lt};
ghost use Rattle.outcomes.specs.Calls.{OrMemory};
ghost use Rattle.lp_frame.specs.Force.{is_bounded};
ghost use Rattle.model_tree.specs.Values.{model_tree};
ghost use Rattle.model_forces.specs.Paths.{IsPathOf, kind_at, tris_on};
ghost use Rattle.model_forces.specs.Forces.{model_force_of, rows_of_path};
ghost use Rattle.model_forces.specs.Tables.{listed};
ghost use Rattle.node_checker.specs.Subjects.{IsAllowed};
ghost use Rattle.node_checker.specs.Tests.{least_of};
ghost use Rattle.answer_tests.specs.Counted.{IsCounted};
ghost use Rattle.answer_tests.specs.Groups.{first_error, claim_groups};
ghost use Rattle.answer_tests.specs.Laws.{IsTrueOf};
ghost use Rattle.certificate_checker.specs.Answers.{answer_groups};
ghost use Rattle.logic_checker.specs.Models.{is_int_there, may_stand, is_false_at, nodes_of, least_at};

use answer_tests::{see_claim, test_claim};
use answers::Claim;
use certificate_checker::{Refusal, check_proof, is_inner, refusal_of_claim};
use gdp_io::Name;
use gdp_tables::Tri;
use lp_frame::{AtMostList, Force};
use lp_rows::{Kind, sum_at};
use milp_forces::{Trail, push_kept_column};
use model_forces::{is_no, is_open, known, model_force, tris};
use model_items::{item_count, item_tri};
use model_tree::{Bound, Model};
use node_checker::{Least, Tested};
use outcomes::Memory;
use proof_tree::Split;
use std::alloc::Global;

// The nodes of a model.
#[derive(Drop)]
struct Nodes<'a> {
    model: &'a Model,
}

impl<'a> Tested for Nodes<'a> {
    ghost subject = { λ me. nodes_of (model_tree me.model.now) };

    fn force(&self, alloc: Global, trail: &Trail) -> Result<Force, Memory> {
        let _vars = self.model.vars();
        force_there(alloc, self.model, trail)
    }

    fn allows(&self, trail: &Trail, split: Split) -> bool {
        may_split(self.model, trail, split)
    }

    fn is_false(&self, alloc: Global, trail: &Trail, item: u32) -> Result<bool, Memory> {
        is_item_false(alloc, self.model, trail, item)
    }
}

// What holds where the trail stands: its halves of Booleans give all but the bounds, which it keeps.
fn force_there(alloc: Global, model: &Model, trail: &Trail) -> Result<Force, Memory>
    ensures { IfOk result (λ force. force ≡ model_force_of (model_tree model.now) trail.now true) }
{
    let mut force = model_force(alloc, model, trail.truths(), true)?;
    push_kept(alloc, &mut force.rows, model.vars(), trail)?;
    Ok(force)
}

// Adds the bounds that the trail keeps.
fn push_kept(
    alloc: Global,
    rows: &mut AtMostList,
    vars: &[(Name, Kind, Bound, u32)],
    trail: &Trail,
) -> Result<(), Memory>
    requires { length vars.now < 2 ^ 32 }
    ensures { OnOk result (rows.new ≡ rows.old ++ rows_of_path vars.now 0 trail.now) }
{
    let mut column: u32 = 0;
    'vars: for _variable in vars {
        push_kept_column(alloc, rows, Kind::Int, column, trail)?;
        column += 1;
    }
    Ok(())
}

// Whether a split may stand where the trail stands.
fn may_split(model: &Model, trail: &Trail, split: Split) -> bool
    ensures { result ≡ may_stand (model_tree model.now) trail.now split }
{
    match split {
        Split::Int { column, at } => is_int_at(model.vars(), column) && is_inner(at),
        Split::Truth { id } => is_boolean(model, id) && is_open(known_there(trail, id)),
    }
}

// What is known of a Boolean.
fn known_there(trail: &Trail, id: u32) -> Tri
    ensures { result ≡ tris_on trail.now id }
{
    known(trail.truths().halves(), id)
}

fn is_boolean(model: &Model, id: u32) -> bool
    ensures { result ≡ nat_lt id (length model.now.booleans) }
{
    (id as usize) < model.booleans().len()
}

// Whether there is an integer variable of this number.
fn is_int_at(vars: &[(Name, Kind, Bound, u32)], column: u32) -> bool
    ensures { result ≡ is_int_there (kind_at vars.now column) }
{
    match vars.get(column as usize) {
        Some(variable) => is_int(variable.1),
        None => false,
    }
}

fn is_int(kind: Kind) -> bool
    ensures { result ≡ is_int_there (Some kind) }
{
    match kind {
        Kind::Real => false,
        Kind::Int => true,
    }
}

// Whether an item's condition is false where the trail stands.
fn is_item_false(alloc: Global, model: &Model, trail: &Trail, item: u32) -> Result<bool, Memory>
    ensures { IfOk result (λ answer. answer ≡ is_false_at (model_tree model.now) trail.now item) }
{
    let _vars = model.vars();
    if item >= item_count(model) {
        return Ok(false);
    }
    let count = model.booleans().len() as u32;
    let tris = tris_there(alloc, trail, count)?;
    Ok(is_no(item_tri(model, item, tris.as_slice())))
}

// What is known of the first Booleans.
fn tris_there(alloc: Global, trail: &Trail, count: u32) -> Result<Vec<Tri>, Memory>
    ensures { IfOk result (λ tris. tris.items ≡ listed (tris_on trail.now) 0 count) }
{
    tris(alloc, trail.truths().halves(), count)
}

/// Tests an answer whose proof speaks of the model's own nodes. Where the tests pass, the claim is true of the model.
pub fn check_by_logic(alloc: Global, model: &Model, claim: &Claim) -> Result<(), Refusal>
    requires { IsCounted (model_tree model.now) claim.now }
    ensures first { OrMemory Refusal.Memory result (first_error (answer_groups (model_tree model.now) (nodes_of (model_tree model.now)) (least_at (model_tree model.now) claim.now) claim.now)) }
    ensures sound { OnOk result (IsTrueOf (model_tree model.now) claim.now) }
{
    let _vars = model.vars();
    see_claim(claim);
    match test_claim(model, claim) {
        Ok(()) => {
            let nodes = Nodes { model };
            check_proof(alloc, claim, &nodes, &least(model, claim))
        }
        Err(error) => Err(refusal_of_claim(error)),
    }
}

// The goal's terms at the point of an answer whose own tests passed.
fn least(model: &Model, claim: &Claim) -> Option<Least>
    requires counted { IsCounted (model_tree model.now) claim.now }
    requires passed { first_error (claim_groups (model_tree model.now) claim.now) ≡ Ok tt }
    ensures { least_of result ≡ least_at (model_tree model.now) claim.now }
{
    let _vars = model.vars();
    match claim {
        Claim::Best {
            at,
            truths: _,
            value: _,
            proof: _,
        } => {
            let over = at.over();
            match sum_at(model.terms(), at.nums()) {
                Ok(sum) => Some(Least {
                    sense: model.sense(),
                    num: sum,
                    den: over,
                }),
                Err(_) => unreachable!(),
            }
        }
        Claim::Empty { proof: _ } => None,
        Claim::Endless {
            at: _,
            truths: _,
            ray: _,
        } => None,
    }
}
