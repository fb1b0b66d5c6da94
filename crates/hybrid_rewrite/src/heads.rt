//! The columns and rows of variables and Booleans.

ghost use Rattle.std.specs.Prelude.{◌≡◌, ◌≤◌, ◌<◌, ◌+◌, ◌^◌, [], ◌∷◌, true, length, pos, neg_ℤ, unsigned_abs};
ghost use Rattle.block_tree.specs.Bounds.{is_bound, is_end_small, are_bounds};
ghost use Rattle.block_tree.specs.Values.{model_tree};
ghost use Rattle.emission.specs.Items.{stand};
ghost use Rattle.emission.specs.Run.{Runs};
ghost use Rattle.emission.specs.Sums.{column, minus, nothing, number, plus};
ghost use Rattle.emission.specs.View.{state_of, open_sum};
ghost use Rattle.lp_rows.specs.declared.kinds.Rel.TheVariants.{AtMost};
ghost use Rattle.hybrid_rewrite.specs.Rewritten.{
  bool_cols,
  bool_rows,
  bound_rows,
  head_items,
  high_bound,
  is_zero_low,
  low_bound,
  sign_by,
  var_cols,
};

use block_tree::{Bound, Model};
use emission::Emitter;
use fractions::Frac;
use gdp_io::Name;
use lp_rows::{Col, Kind, Rel, Sign};

// Whether the low is given and is 0.
fn is_low_zero(low: Option<Frac>) -> bool
    ensures { result ≡ is_zero_low low }
{
    let Some(f) = low else {
        return false;
    };
    f.num() == 0
}

// The sign of the column of a variable with this low.
fn sign_of(low: Option<Frac>) -> Sign
    ensures { result ≡ sign_by (is_zero_low low) }
{
    if is_low_zero(low) {
        Sign::Nonneg
    } else {
        Sign::Free
    }
}

// The columns of the variables.
fn push_vars(vars: &[(Name, Kind, Bound, u32)], out: &mut Emitter)
    requires empty { open_sum out.old ≡ nothing }
    ensures runs { Runs (var_cols (length (state_of out.old).milp.cols) vars.now) (state_of out.old) (state_of out.new) }
    ensures empty { open_sum out.new ≡ nothing }
{
    for var in vars {
        out.push_col(Col {
            kind: var.1,
            sign: sign_of(var.2.low),
        });
    }
}

// The columns of the Booleans.
fn push_booleans(booleans: &[(Name, u32)], out: &mut Emitter)
    requires empty { open_sum out.old ≡ nothing }
    ensures runs { Runs (bool_cols (length (state_of out.old).milp.cols) 0 booleans.now) (state_of out.old) (state_of out.new) }
    ensures empty { open_sum out.new ≡ nothing }
{
    for _boolean in booleans {
        out.push_col(Col {
            kind: Kind::Int,
            sign: Sign::Nonneg,
        });
    }
}

// The number with the other sign.
fn opposite(number: i128) -> i128
    requires { unsigned_abs number ≤ 10 ^ 15 }
    ensures value { result ≡ neg_ℤ number }
    ensures small { unsigned_abs result ≤ 10 ^ 15 }
{
    -number
}

// The row of an end of a variable's bounds.
fn push_end(rel: Rel, num: i128, den: i128, id: u32, out: &mut Emitter)
    requires empty { open_sum out.old ≡ nothing }
    requires small { unsigned_abs num ≤ 10 ^ 15 }
    ensures runs { Runs (stand rel (plus (column den id) (number (neg_ℤ num))) ∷ []) (state_of out.old) (state_of out.new) }
    ensures empty { open_sum out.new ≡ nothing }
{
    out.add(den, id);
    out.add_number(opposite(num));
    out.stand(rel);
}

// The row of a low, unless it is 0 or missing.
fn push_low(low: Option<Frac>, id: u32, out: &mut Emitter)
    requires empty { open_sum out.old ≡ nothing }
    requires small { is_end_small low ≡ true }
    ensures runs { Runs (low_bound (is_zero_low low) id low) (state_of out.old) (state_of out.new) }
    ensures empty { open_sum out.new ≡ nothing }
{
    let Some(f) = low else {
        return;
    };
    if is_low_zero(low) {
        return;
    }
    push_end(Rel::AtLeast, f.num(), f.den(), id, out);
}

// The row of a high, unless it is missing.
fn push_high(high: Option<Frac>, id: u32, out: &mut Emitter)
    requires empty { open_sum out.old ≡ nothing }
    requires small { is_end_small high ≡ true }
    ensures runs { Runs (high_bound id high) (state_of out.old) (state_of out.new) }
    ensures empty { open_sum out.new ≡ nothing }
{
    let Some(f) = high else {
        return;
    };
    push_end(Rel::AtMost, f.num(), f.den(), id, out);
}

// The rows of the variables' bounds.
fn bound_each(vars: &[(Name, Kind, Bound, u32)], out: &mut Emitter)
    requires empty { open_sum out.old ≡ nothing }
    requires few { length vars.now ≤ 500 }
    requires small { are_bounds vars.now ≡ true }
    ensures runs { Runs (bound_rows 0 vars.now) (state_of out.old) (state_of out.new) }
    ensures empty { open_sum out.new ≡ nothing }
{
    let mut id = 0;
    for var in vars {
        push_low(var.2.low, id, out);
        push_high(var.2.high, id, out);
        id += 1;
    }
}

// A column is at most 1.
fn limit(id: u32, out: &mut Emitter)
    requires empty { open_sum out.old ≡ nothing }
    ensures runs { Runs (stand AtMost (plus (column (pos 1) id) (number minus)) ∷ []) (state_of out.old) (state_of out.new) }
    ensures empty { open_sum out.new ≡ nothing }
{
    out.add(1, id);
    out.add_number(-1);
    out.stand(Rel::AtMost);
}

// The rows of the Booleans, of which the first stands at this column.
fn limit_each(booleans: &[(Name, u32)], first: u32, out: &mut Emitter)
    requires empty { open_sum out.old ≡ nothing }
    requires first { first < 2 ^ 31 }
    requires few { length booleans.now ≤ 200 }
    ensures runs { Runs (bool_rows first booleans.now) (state_of out.old) (state_of out.new) }
    ensures empty { open_sum out.new ≡ nothing }
{
    let mut id = first;
    for _boolean in booleans {
        limit(id, out);
        id += 1;
    }
}

/// The columns and rows of a model's variables and Booleans.
pub fn emit_head(model: &Model, first: u32, out: &mut Emitter)
    requires empty { open_sum out.old ≡ nothing }
    requires none { length (state_of out.old).milp.cols ≡ 0 }
    requires first { first ≡ length model.now.vars }
    ensures runs { Runs (head_items (model_tree model.now)) (state_of out.old) (state_of out.new) }
    ensures empty { open_sum out.new ≡ nothing }
{
    let vars = model.vars();
    let booleans = model.booleans();
    push_vars(vars, out);
    push_booleans(booleans, out);
    bound_each(vars, out);
    limit_each(booleans, first, out);
}
