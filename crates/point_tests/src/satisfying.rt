//! Whether a point satisfies a model, by tests in a fixed order: the first that does not pass decides.

ghost use Rattle.std.specs.Prelude.{
  ◌≡◌,
  ◌≤◌,
  ◌≤ℤ◌,
  ◌∷◌,
  true,
  false,
  pos,
  Ok,
  Err,
  length,
  map,
  if◌then◌else◌,
  int_le,
  slice_index_or,
  ◌*ℤ◌,
  MatchOption,
};
ghost use Rattle.fractions.specs.Width.{fits, wide};
ghost use Rattle.int_linear.specs.Sums.{at as at_place};
ghost use Rattle.point_tests.specs.Satisfied.{
  point_of,
  is_above as above,
  is_below as under,
  is_whole as whole,
  is_of_kind as of_kind,
  true_count as count_true,
  mode_allows as allows,
  is_model_point,
};
ghost use Rattle.model_tree.specs.Sound.{
  are_rows_below,
  are_props_sound,
  is_block_sound,
  are_disjunctions_sound,
  are_disjuncts_sound,
};
ghost use Rattle.point_tests.specs.Tests.{
  verdict_of,
  end_fits,
  tests_of_var,
  tests_of_vars,
  test_of_row,
  test_of_prop,
  test_of_off,
  tests_of_block,
  tests_of_disjunctions,
  tests_of_disjuncts,
  tests_of_disjunction,
  tests_of_disjunct,
  tests_of,
  Tells,
};
ghost use Rattle.model_tree.specs.Tree.{below, below_disjunctions, below_disjuncts};
ghost use Rattle.model_tree.specs.Values.{model_tree};
ghost use Rattle.model_tree.specs.View.{
  block_of,
  disjunction_of,
  disjunct_of,
  disjunctions_of,
  disjuncts_of,
  props_of,
};

use crate::verdicts::{SumWide, Verdict};
use fractions::{Frac, Wide};
use gdp_io::Name;
use lp_rows::{Kind, Point, Row, row_holds};
use model_tree::{Block, Bound, Disjunct, Disjunction, Mode, Model};
use propositions::{Prop, truth};

/// Whether the point with these truth values satisfies the model.
///
/// Tested are each variable's low bound, high bound and whether it is whole where it has to be (at the variable's mark),
/// and then the root block: a block's rows, then its propositions, then its disjunctions. Of a disjunction the number of
/// true indicators comes first, and then each disjunct: the block of a true one, and for a false one the first true
/// indicator below it fails, at the mark of the disjunct that carries this indicator. The first test that fails, or that
/// forms a number outside 128 bits, decides.
pub fn satisfies(model: &Model, at: &Point, truths: &[bool]) -> Result<Verdict, SumWide>
    requires numbers { length at.now.nums ≡ length model.now.vars }
    requires truths { length truths.now ≡ length model.now.booleans }
    ensures first { result ≡ verdict_of (tests_of (model_tree model.now) (point_of at.now truths.now)) }
    ensures tells { Tells result (is_model_point (model_tree model.now) (point_of at.now truths.now)) }
{
    first_verdict(model, at, truths)
}

// The verdict of all tests.
#[tactic(auto, using(crate::proofs::TestsLemmas::verdicts))]
fn first_verdict(model: &Model, at: &Point, truths: &[bool]) -> Result<Verdict, SumWide>
    requires numbers { length at.now.nums ≡ length model.now.vars }
    requires truths { length truths.now ≡ length model.now.booleans }
    ensures { result ≡ verdict_of (tests_of (model_tree model.now) (point_of at.now truths.now)) }
{
    match vars_verdict(model.vars(), at.nums(), at.over()) {
        Ok(Verdict::Holds) => block_verdict(model.root(), at, truths),
        Ok(Verdict::FailsAt(mark)) => Ok(Verdict::FailsAt(mark)),
        Err(error) => Err(error),
    }
}

// The verdict of the variables' tests.
fn vars_verdict(
    vars: &[(Name, Kind, Bound, u32)],
    nums: &[i128],
    over: i128,
) -> Result<Verdict, SumWide>
    requires numbers { length vars.now ≡ length nums.now }
    requires positive { pos 1 ≤ℤ over }
    ensures { result ≡ verdict_of (tests_of_vars vars.now 0 (at_place nums.now) over) }
{
    for (place, variable) in vars.iter().enumerate() {
        match var_verdict(variable, nums[place], over) {
            Ok(Verdict::Holds) => {}
            Ok(Verdict::FailsAt(mark)) => return Ok(Verdict::FailsAt(mark)),
            Err(error) => return Err(error),
        }
    }
    Ok(Verdict::Holds)
}

// The verdict of one variable's tests.
fn var_verdict(
    variable: &(Name, Kind, Bound, u32),
    number: i128,
    over: i128,
) -> Result<Verdict, SumWide>
    requires { pos 1 ≤ℤ over }
    ensures { result ≡ verdict_of (tests_of_var variable.now number over) }
{
    let mark = variable.3;
    match is_above(&variable.2.low, number, over) {
        Ok(true) => {}
        Ok(false) => return Ok(Verdict::FailsAt(mark)),
        Err(_) => return Err(SumWide { mark }),
    }
    match is_under(&variable.2.high, number, over) {
        Ok(true) => {}
        Ok(false) => return Ok(Verdict::FailsAt(mark)),
        Err(_) => return Err(SumWide { mark }),
    }
    if is_of_kind(variable.1, number, over) {
        Ok(Verdict::Holds)
    } else {
        Ok(Verdict::FailsAt(mark))
    }
}

// Whether the number over the denominator is at least the low end.
fn is_above(low: &Option<Frac>, number: i128, over: i128) -> Result<bool, Wide>
    ensures { result ≡ (if end_fits low.now number over then Ok (above low.now number over) else Err wide) }
{
    match low {
        None => Ok(true),
        Some(end) => {
            let Some(left) = product(end.den(), number) else {
                return Err(Wide);
            };
            let Some(right) = product(end.num(), over) else {
                return Err(Wide);
            };
            Ok(is_at_most(right, left))
        }
    }
}

// Whether the number over the denominator is at most the high end.
fn is_under(high: &Option<Frac>, number: i128, over: i128) -> Result<bool, Wide>
    ensures { result ≡ (if end_fits high.now number over then Ok (under high.now number over) else Err wide) }
{
    match high {
        None => Ok(true),
        Some(end) => {
            let Some(left) = product(end.den(), number) else {
                return Err(Wide);
            };
            let Some(right) = product(end.num(), over) else {
                return Err(Wide);
            };
            Ok(is_at_most(left, right))
        }
    }
}

// The product, or None where it is wide.
pub(crate) fn product(a: i128, b: i128) -> Option<i128>
    ensures { MatchOption result (fits (a *ℤ b) ≡ false) (λ z. (fits (a *ℤ b) ≡ true) × (z ≡ a *ℤ b)) }
{
    a.checked_mul(b)
}

// Whether a is at most b.
fn is_at_most(a: i128, b: i128) -> bool
    ensures { result ≡ int_le a b }
{
    a <= b
}

// Whether a variable of this kind takes the number over the denominator.
fn is_of_kind(kind: Kind, number: i128, over: i128) -> bool
    requires { pos 1 ≤ℤ over }
    ensures { result ≡ of_kind kind number over }
{
    match kind {
        Kind::Real => true,
        Kind::Int => number.unsigned_abs() % over.unsigned_abs() == 0,
    }
}

// The verdict of the rows' tests.
fn rows_verdict(rows: &[(Row, u32)], at: &Point, truths: &[bool]) -> Result<Verdict, SumWide>
    requires { are_rows_below (length at.now.nums) rows.now ≡ true }
    ensures { result ≡ verdict_of (map (test_of_row (point_of at.now truths.now)) rows.now) }
{
    let _ = truths;
    for row in rows {
        match row_holds(&row.0, at) {
            Ok(true) => {}
            Ok(false) => return Ok(Verdict::FailsAt(row.1)),
            Err(_) => return Err(SumWide { mark: row.1 }),
        }
    }
    Ok(Verdict::Holds)
}

// The verdict of the propositions' tests.
fn props_verdict(props: &[(Prop, u32)], truths: &[bool]) -> Verdict
    requires { are_props_sound (length truths.now) (props_of props.now) ≡ true }
    ensures { Ok result ≡ verdict_of (map (test_of_prop (λ k. slice_index_or truths.now k false)) (props_of props.now)) }
{
    for prop in props {
        if !truth(&prop.0, truths) {
            return Verdict::FailsAt(prop.1);
        }
    }
    Verdict::Holds
}

// Whether the Boolean of this number is true.
fn is_on(truths: &[bool], indicator: u32) -> bool
    ensures { result ≡ slice_index_or truths.now indicator false }
{
    match truths.get(indicator as usize) {
        Some(truth) => *truth,
        None => false,
    }
}

// How many of the indicators are true.
fn true_count(disjuncts: &[Disjunct], truths: &[bool]) -> usize
    ensures { result ≡ count_true (disjuncts_of disjuncts.now) (λ k. slice_index_or truths.now k false) }
{
    let mut count = 0;
    for disjunct in disjuncts {
        if is_on(truths, disjunct.indicator()) {
            count += 1;
        }
    }
    count
}

// Whether the mode allows that many true indicators.
fn mode_allows(mode: Mode, count: usize) -> bool
    ensures { result ≡ allows mode count }
{
    match mode {
        Mode::Xor => count == 1,
        Mode::Or => 1 <= count,
    }
}

#[cycle(satisfy)]
#[tactic(auto, using(crate::proofs::TestsLemmas::verdicts))]
fn block_verdict(block: &Block, at: &Point, truths: &[bool]) -> Result<Verdict, SumWide>
    requires { is_block_sound (length at.now.nums) (length truths.now) (block_of block.now) ≡ true }
    ensures { result ≡ verdict_of (tests_of_block (block_of block.now) (point_of at.now truths.now)) }
{
    match rows_verdict(block.rows(), at, truths) {
        Ok(Verdict::Holds) => {}
        Ok(Verdict::FailsAt(mark)) => return Ok(Verdict::FailsAt(mark)),
        Err(error) => return Err(error),
    }
    match props_verdict(block.props(), truths) {
        Verdict::Holds => disjunctions_verdict(block.disjunctions(), at, truths),
        Verdict::FailsAt(mark) => Ok(Verdict::FailsAt(mark)),
    }
}

#[cycle(satisfy)]
fn disjunctions_verdict(
    disjunctions: &[Disjunction],
    at: &Point,
    truths: &[bool],
) -> Result<Verdict, SumWide>
    requires { are_disjunctions_sound (length at.now.nums) (length truths.now) (disjunctions_of disjunctions.now) ≡ true }
    ensures { result ≡ verdict_of (tests_of_disjunctions (disjunctions_of disjunctions.now) (point_of at.now truths.now)) }
{
    for disjunction in disjunctions {
        match disjunction_verdict(disjunction, at, truths) {
            Ok(Verdict::Holds) => {}
            Ok(Verdict::FailsAt(mark)) => return Ok(Verdict::FailsAt(mark)),
            Err(error) => return Err(error),
        }
    }
    Ok(Verdict::Holds)
}

#[cycle(satisfy)]
fn disjunction_verdict(
    disjunction: &Disjunction,
    at: &Point,
    truths: &[bool],
) -> Result<Verdict, SumWide>
    requires { are_disjuncts_sound (length at.now.nums) (length truths.now) (disjunction_of disjunction.now).1 ≡ true }
    ensures { result ≡ verdict_of (tests_of_disjunction (disjunction_of disjunction.now) (point_of at.now truths.now)) }
{
    let count = true_count(disjunction.disjuncts(), truths);
    if !mode_allows(disjunction.mode(), count) {
        return Ok(Verdict::FailsAt(disjunction.mark()));
    }
    disjuncts_verdict(disjunction.disjuncts(), at, truths)
}

#[cycle(satisfy)]
fn disjuncts_verdict(
    disjuncts: &[Disjunct],
    at: &Point,
    truths: &[bool],
) -> Result<Verdict, SumWide>
    requires { are_disjuncts_sound (length at.now.nums) (length truths.now) (disjuncts_of disjuncts.now) ≡ true }
    ensures { result ≡ verdict_of (tests_of_disjuncts (disjuncts_of disjuncts.now) (point_of at.now truths.now)) }
{
    for disjunct in disjuncts {
        match disjunct_verdict(disjunct, at, truths) {
            Ok(Verdict::Holds) => {}
            Ok(Verdict::FailsAt(mark)) => return Ok(Verdict::FailsAt(mark)),
            Err(error) => return Err(error),
        }
    }
    Ok(Verdict::Holds)
}

#[cycle(satisfy)]
fn disjunct_verdict(disjunct: &Disjunct, at: &Point, truths: &[bool]) -> Result<Verdict, SumWide>
    requires { is_block_sound (length at.now.nums) (length truths.now) (disjunct_of disjunct.now).1 ≡ true }
    ensures { result ≡ verdict_of (tests_of_disjunct (disjunct_of disjunct.now) (point_of at.now truths.now)) }
{
    if is_on(truths, disjunct.indicator()) {
        block_verdict(disjunct.block(), at, truths)
    } else {
        off_verdict(disjunct.block(), truths)
    }
}

// The verdict of the tests that every indicator below is false.
#[cycle(off)]
fn off_verdict(block: &Block, truths: &[bool]) -> Result<Verdict, SumWide>
    ensures { result ≡ verdict_of (map (test_of_off (λ k. slice_index_or truths.now k false)) (below (block_of block.now))) }
{
    disjunctions_off_verdict(block.disjunctions(), truths)
}

#[cycle(off)]
fn disjunctions_off_verdict(
    disjunctions: &[Disjunction],
    truths: &[bool],
) -> Result<Verdict, SumWide>
    ensures { result ≡ verdict_of (map (test_of_off (λ k. slice_index_or truths.now k false))
        (below_disjunctions (disjunctions_of disjunctions.now))) }
{
    for disjunction in disjunctions {
        match disjuncts_off_verdict(disjunction.disjuncts(), truths) {
            Ok(Verdict::Holds) => {}
            Ok(Verdict::FailsAt(mark)) => return Ok(Verdict::FailsAt(mark)),
            Err(error) => return Err(error),
        }
    }
    Ok(Verdict::Holds)
}

#[cycle(off)]
fn disjuncts_off_verdict(disjuncts: &[Disjunct], truths: &[bool]) -> Result<Verdict, SumWide>
    ensures { result ≡ verdict_of (map (test_of_off (λ k. slice_index_or truths.now k false)) (below_disjuncts (disjuncts_of disjuncts.now))) }
{
    for disjunct in disjuncts {
        match disjunct_off_verdict(disjunct, truths) {
            Ok(Verdict::Holds) => {}
            Ok(Verdict::FailsAt(mark)) => return Ok(Verdict::FailsAt(mark)),
            Err(error) => return Err(error),
        }
    }
    Ok(Verdict::Holds)
}

#[cycle(off)]
fn disjunct_off_verdict(disjunct: &Disjunct, truths: &[bool]) -> Result<Verdict, SumWide>
    ensures { result ≡ verdict_of (map (test_of_off (λ k. slice_index_or truths.now k false))
        ((disjunct_of disjunct.now).0 ∷ below (disjunct_of disjunct.now).1)) }
{
    if is_on(truths, disjunct.indicator()) {
        return Ok(Verdict::FailsAt(disjunct.mark()));
    }
    off_verdict(disjunct.block(), truths)
}
