//! Proofs over a program: its splits are of integer columns, and it has no items that could be false.

ghost use Rattle.std.specs.Prelude.{◌≡◌, ◌<ℤ◌, pos, [], OnOk};
ghost use Rattle.std.specs.Option.{ForSome};
ghost use Rattle.outcomes.specs.Calls.{OrMemory};
ghost use Rattle.proof_tree.specs.Tree.{ProofTree, preorder, visits};
ghost use Rattle.proof_tree.specs.Checks.{verdict};
ghost use Rattle.milp_forces.specs.Milps.{kind_at};
ghost use Rattle.node_checker.specs.Tests.{least_of, node_test};
ghost use Rattle.certificate_checker.specs.Programs.{is_int as int, is_inner as inner, may_stand, subject_of, least_for, IsShownOf};

use fractions::Frac;
use lp_frame::Force;
use lp_rows::{Col, Kind};
use milp_forces::{Trail, trail_force};
use milps::Milp;
use node_checker::{Least, Tested, check_nodes};
use outcomes::Memory;
use proof_tree::{CheckError, Proof, Split};
use std::alloc::Global;

// A program, over which nodes are tested.
#[derive(Clone, Copy)]
pub(crate) struct Program<'a> {
    pub(crate) milp: &'a Milp,
}

impl<'a> Tested for Program<'a> {
    ghost subject = { λ me. subject_of me.milp.now };

    fn force(&self, alloc: Global, trail: &Trail) -> Result<Force, Memory> {
        let _cols = self.milp.cols();
        trail_force(alloc, self.milp, trail, true)
    }

    fn allows(&self, _trail: &Trail, split: Split) -> bool {
        match split {
            Split::Int { column, at } => is_int(kind_of(self.milp.cols(), column)) && is_inner(at),
            Split::Truth { id: _ } => false,
        }
    }

    fn is_false(&self, _alloc: Global, _trail: &Trail, _item: u32) -> Result<bool, Memory> {
        Ok(false)
    }
}

/// Tests the nodes of a proof over the program in preorder: that no point is better than the value, or that there is
/// none.
pub fn check_program(
    alloc: Global,
    milp: &Milp,
    best: &Option<Frac>,
    proof: &Proof,
) -> Result<(), CheckError>
    ensures first { (t : ProofTree) → preorder t ≡ proof.now →
        OrMemory CheckError.Memory result (verdict (node_test (subject_of milp.now) (least_for milp.now best.now)) 0 (visits [] t)) }
    ensures sound { OnOk result (IsShownOf milp.now best.now) }
{
    let _nodes = proof.nodes();
    let _cols = milp.cols();
    let program = Program { milp };
    check_nodes(alloc, &program, &least(milp, best), proof)
}

// What the nodes are to show.
pub(crate) fn least(milp: &Milp, best: &Option<Frac>) -> Option<Least>
    ensures least { least_of result ≡ least_for milp.now best.now }
    ensures positive { ForSome best.now (λ v. pos 0 <ℤ v.den) }
{
    match best {
        None => None,
        Some(value) => {
            let num = value.num();
            let den = value.den();
            Some(Least {
                sense: milp.sense(),
                num,
                den,
            })
        }
    }
}

// The kind of a column, real past the last.
fn kind_of(cols: &[Col], column: u32) -> Kind
    ensures { result ≡ kind_at cols.now column }
{
    match cols.get(column as usize) {
        Some(col) => col.kind,
        None => Kind::Real,
    }
}

fn is_int(kind: Kind) -> bool
    ensures { result ≡ int kind }
{
    match kind {
        Kind::Real => false,
        Kind::Int => true,
    }
}

/// Whether the number is at no end of i128.
pub fn is_inner(at: i128) -> bool
    ensures { result ≡ inner at }
{
    i128::MIN < at && at < i128::MAX
}
