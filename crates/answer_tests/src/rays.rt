//! The tests of a ray, in the order of the tests of a point: the first that does not pass decides.

ghost use Rattle.std.specs.Prelude.{◌≡◌, ◌≤◌, ◌++◌, ◌∷◌, [], true, false, pos, neg_ℤ, ◌<ℤ◌, length, map, slice_index_or, None};
ghost use Rattle.int_linear.specs.Sums.{at as at_place};
ghost use Rattle.lp_rows.specs.Holding.{ids_below, stands, sum_or_wide};
ghost use Rattle.lp_rows.specs.Rows.{are_storable, is_storable};
ghost use Rattle.model_tree.specs.Sound.{are_rows_below, is_block_sound, are_disjunctions_sound, are_disjuncts_sound, is_goal_sound};
ghost use Rattle.point_tests.specs.Tests.{verdict_of};
ghost use Rattle.model_tree.specs.Values.{model_tree};
ghost use Rattle.model_tree.specs.View.{block_of, disjunct_of, disjunctions_of, disjuncts_of, disjunction_of};
ghost use Rattle.answer_tests.specs.Rays.{
  keeps_low as low_kept,
  keeps_high as high_kept,
  ray_tests_of_var,
  ray_tests_of_vars,
  ray_test_of_row,
  ray_tests_of_block,
  ray_tests_of_disjunctions,
  ray_tests_of_disjuncts,
  ray_tests_of_disjunct,
  minimised,
  ray_test_of_goal,
  ray_answer,
  verdict_along,
  stands_or_wide,
};

use fractions::{Frac, Wide, add_product};
use gdp_io::Name;
use lp_rows::{Kind, Rel, Row, Sense, WideAt, sum_at};
use model_tree::{Block, Bound, Disjunct, Disjunction, Model};
use point_tests::{SumWide, Verdict};

/// The mark of the first test of the ray that fails, where one does.
///
/// Tested are, at a point with these truths, each variable's low and high, where a number of at least 0 and of at most
/// 0 is wanted, then the rows in force, whose sums are to stand in their relation to 0, and then that the goal falls.
pub fn ray_fails(model: &Model, truths: &[bool], ray: &[i128]) -> Result<Option<u32>, WideAt>
    requires numbers { length ray.now ≡ length model.now.vars }
    requires truths { length truths.now ≡ length model.now.booleans }
    ensures { result ≡ ray_answer (verdict_along (model_tree model.now) truths.now ray.now) }
{
    match ray_verdict(model, truths, ray) {
        Ok(Verdict::Holds) => Ok(None),
        Ok(Verdict::FailsAt(mark)) => Ok(Some(mark)),
        Err(wide) => Err(WideAt::RaySum { mark: wide.mark }),
    }
}

/// The verdict of all tests of the ray.
#[tactic(auto, using(point_tests::proofs::TestsLemmas::verdicts))]
pub(crate) fn ray_verdict(model: &Model, truths: &[bool], ray: &[i128]) -> Result<Verdict, SumWide>
    requires numbers { length ray.now ≡ length model.now.vars }
    requires truths { length truths.now ≡ length model.now.booleans }
    ensures { result ≡ verdict_along (model_tree model.now) truths.now ray.now }
{
    match vars_verdict(model.vars(), ray) {
        Ok(Verdict::Holds) => {}
        Ok(Verdict::FailsAt(mark)) => return Ok(Verdict::FailsAt(mark)),
        Err(error) => return Err(error),
    }
    match block_verdict(model.root(), truths, ray) {
        Ok(Verdict::Holds) => goal_verdict(model, ray),
        Ok(Verdict::FailsAt(mark)) => Ok(Verdict::FailsAt(mark)),
        Err(error) => Err(error),
    }
}

// The verdict of the variables' tests.
fn vars_verdict(vars: &[(Name, Kind, Bound, u32)], ray: &[i128]) -> Result<Verdict, SumWide>
    requires { length vars.now ≡ length ray.now }
    ensures { result ≡ verdict_of (ray_tests_of_vars vars.now 0 (at_place ray.now)) }
{
    for (place, variable) in vars.iter().enumerate() {
        match var_verdict(variable, ray[place]) {
            Ok(Verdict::Holds) => {}
            Ok(Verdict::FailsAt(mark)) => return Ok(Verdict::FailsAt(mark)),
            Err(error) => return Err(error),
        }
    }
    Ok(Verdict::Holds)
}

// The verdict of one variable's tests.
fn var_verdict(variable: &(Name, Kind, Bound, u32), number: i128) -> Result<Verdict, SumWide>
    ensures { result ≡ verdict_of (ray_tests_of_var variable.now number) }
{
    let mark = variable.3;
    if !keeps_low(&variable.2.low, number) {
        return Ok(Verdict::FailsAt(mark));
    }
    if !keeps_high(&variable.2.high, number) {
        return Ok(Verdict::FailsAt(mark));
    }
    Ok(Verdict::Holds)
}

fn keeps_low(low: &Option<Frac>, number: i128) -> bool
    ensures { result ≡ low_kept low.now number }
{
    match low {
        None => true,
        Some(_) => 0 <= number,
    }
}

fn keeps_high(high: &Option<Frac>, number: i128) -> bool
    ensures { result ≡ high_kept high.now number }
{
    match high {
        None => true,
        Some(_) => number <= 0,
    }
}

// The verdict of the rows' tests.
fn rows_verdict(rows: &[(Row, u32)], ray: &[i128]) -> Result<Verdict, SumWide>
    requires { are_rows_below (length ray.now) rows.now ≡ true }
    ensures { result ≡ verdict_of (map (ray_test_of_row (at_place ray.now)) rows.now) }
{
    for row in rows {
        match row_stands(&row.0, ray) {
            Ok(true) => {}
            Ok(false) => return Ok(Verdict::FailsAt(row.1)),
            Err(_) => return Err(SumWide { mark: row.1 }),
        }
    }
    Ok(Verdict::Holds)
}

// Whether the row's sum along the ray stands in its relation to 0.
fn row_stands(row: &Row, ray: &[i128]) -> Result<bool, Wide>
    requires { ids_below (length ray.now) row.now.terms ≡ true }
    ensures { result ≡ stands_or_wide row.now.rel (sum_or_wide row.now.terms (at_place ray.now)) }
{
    match sum_at(row.terms(), ray) {
        Ok(sum) => Ok(stands_to_zero(row.rel(), sum)),
        Err(wide) => Err(wide),
    }
}

fn stands_to_zero(rel: Rel, sum: i128) -> bool
    ensures { result ≡ stands rel sum (pos 0) }
{
    match rel {
        Rel::AtMost => sum <= 0,
        Rel::AtLeast => 0 <= sum,
        Rel::Equal => sum == 0,
    }
}

// Whether the Boolean of this number is true.
fn is_on(truths: &[bool], indicator: u32) -> bool
    ensures { result ≡ slice_index_or truths.now indicator false }
{
    match truths.get(indicator as usize) {
        Some(truth) => *truth,
        None => false,
    }
}

#[cycle(blocks)]
#[tactic(auto, using(point_tests::proofs::TestsLemmas::verdicts))]
fn block_verdict(block: &Block, truths: &[bool], ray: &[i128]) -> Result<Verdict, SumWide>
    requires { is_block_sound (length ray.now) (length truths.now) (block_of block.now) ≡ true }
    ensures { result ≡ verdict_of (ray_tests_of_block (block_of block.now) (λ k. slice_index_or truths.now k false) (at_place ray.now)) }
{
    match rows_verdict(block.rows(), ray) {
        Ok(Verdict::Holds) => disjunctions_verdict(block.disjunctions(), truths, ray),
        Ok(Verdict::FailsAt(mark)) => Ok(Verdict::FailsAt(mark)),
        Err(error) => Err(error),
    }
}

#[cycle(blocks)]
fn disjunctions_verdict(
    disjunctions: &[Disjunction],
    truths: &[bool],
    ray: &[i128],
) -> Result<Verdict, SumWide>
    requires { are_disjunctions_sound (length ray.now) (length truths.now) (disjunctions_of disjunctions.now) ≡ true }
    ensures { result ≡ verdict_of (ray_tests_of_disjunctions (disjunctions_of disjunctions.now) (λ k. slice_index_or truths.now k false) (at_place ray.now)) }
{
    for disjunction in disjunctions {
        match disjuncts_verdict(disjunction.disjuncts(), truths, ray) {
            Ok(Verdict::Holds) => {}
            Ok(Verdict::FailsAt(mark)) => return Ok(Verdict::FailsAt(mark)),
            Err(error) => return Err(error),
        }
    }
    Ok(Verdict::Holds)
}

#[cycle(blocks)]
fn disjuncts_verdict(
    disjuncts: &[Disjunct],
    truths: &[bool],
    ray: &[i128],
) -> Result<Verdict, SumWide>
    requires { are_disjuncts_sound (length ray.now) (length truths.now) (disjuncts_of disjuncts.now) ≡ true }
    ensures { result ≡ verdict_of (ray_tests_of_disjuncts (disjuncts_of disjuncts.now) (λ k. slice_index_or truths.now k false) (at_place ray.now)) }
{
    for disjunct in disjuncts {
        match disjunct_verdict(disjunct, truths, ray) {
            Ok(Verdict::Holds) => {}
            Ok(Verdict::FailsAt(mark)) => return Ok(Verdict::FailsAt(mark)),
            Err(error) => return Err(error),
        }
    }
    Ok(Verdict::Holds)
}

#[cycle(blocks)]
fn disjunct_verdict(disjunct: &Disjunct, truths: &[bool], ray: &[i128]) -> Result<Verdict, SumWide>
    requires { is_block_sound (length ray.now) (length truths.now) (disjunct_of disjunct.now).1 ≡ true }
    ensures { result ≡ verdict_of (ray_tests_of_disjunct (disjunct_of disjunct.now) (λ k. slice_index_or truths.now k false) (at_place ray.now)) }
{
    if is_on(truths, disjunct.indicator()) {
        block_verdict(disjunct.block(), truths, ray)
    } else {
        Ok(Verdict::Holds)
    }
}

// The verdict of the goal's test.
fn goal_verdict(model: &Model, ray: &[i128]) -> Result<Verdict, SumWide>
    requires { length ray.now ≡ length model.now.vars }
    ensures { result ≡ verdict_of (ray_test_of_goal model.now.goal (at_place ray.now) ∷ []) }
{
    let _vars = model.vars();
    match goal_sum(model.sense(), model.terms(), ray) {
        Ok(sum) => {
            if sum < 0 {
                Ok(Verdict::Holds)
            } else {
                Ok(Verdict::FailsAt(model.goal_mark()))
            }
        }
        Err(_) => Err(SumWide {
            mark: model.goal_mark(),
        }),
    }
}

// The sum of the goal's terms along the ray, where it is to be minimised.
fn goal_sum(sense: Sense, terms: &[(u32, i128)], ray: &[i128]) -> Result<i128, Wide>
    requires ids { ids_below (length ray.now) terms.now ≡ true }
    requires small { are_storable terms.now ≡ true }
    ensures { result ≡ sum_or_wide (minimised sense terms.now) (at_place ray.now) }
{
    match sense {
        Sense::Min => sum_at(terms, ray),
        Sense::Max => negated_sum_at(terms, ray),
    }
}

fn negated_sum_at(terms: &[(u32, i128)], ray: &[i128]) -> Result<i128, Wide>
    requires ids { ids_below (length ray.now) terms.now ≡ true }
    requires small { are_storable terms.now ≡ true }
    ensures { result ≡ sum_or_wide (map (λ t. (t.0, neg_ℤ t.1)) terms.now) (at_place ray.now) }
{
    let mut sum = 0;
    for term in terms {
        let Some(next) = add_product(sum, minus(term.1), ray[term.0 as usize]) else {
            return Err(Wide);
        };
        sum = next;
    }
    Ok(sum)
}

fn minus(number: i128) -> i128
    requires { is_storable number ≡ true }
    ensures { result ≡ neg_ℤ number }
{
    -number
}
