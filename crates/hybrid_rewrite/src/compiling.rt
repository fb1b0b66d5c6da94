//! A model as a mixed-integer program, each disjunction by big-M or by hull.

ghost use Rattle.std.specs.Prelude.{◌≡◌, ◌≢◌, ◌≤◌, ◌<◌, ◌+◌, ◌^◌, true, Bool, length, map, int_lt, pos, IfOk, Err, Some};
ghost use Rattle.outcomes.specs.Calls.{OrMemory};
ghost use Rattle.block_tree.specs.Tree.{Disjuncts};
ghost use Rattle.block_tree.specs.Values.{model_tree};
ghost use Rattle.block_tree.specs.View.{block_of};
ghost use Rattle.bound_propagation.specs.Kept.{box_of};
ghost use Rattle.bound_propagation.specs.Propagated.{box_after};
ghost use Rattle.emission.specs.declared.halts.Halt.TheVariants.{Unfit};
ghost use Rattle.emission.specs.Run.{Runs};
ghost use Rattle.emission.specs.Sums.{nothing};
ghost use Rattle.emission.specs.View.{state_of, open_sum};
ghost use Rattle.hull_rewrite.specs.Choices.{flags_in};
ghost use Rattle.hybrid_rewrite.specs.Chosen.{AreFlags, flagging};
ghost use Rattle.hybrid_rewrite.specs.Compiled.{compiled, emitted_by, error_by};
ghost use Rattle.hybrid_rewrite.specs.Cuts.{vars_cut, truths_cut};
ghost use Rattle.hybrid_rewrite.specs.Laws.{rewritten};
ghost use Rattle.hybrid_rewrite.specs.Rewritten.{IsExactRewrite, tree_items};

use crate::errors::CompileError;
use crate::goals::{emit_worth, is_plain};
use crate::heads::emit_head;
use crate::rooted::emit_root;
use block_tree::{Model, ModelPoint};
use bound_propagation::{Bounds, propagate};
use emission::{Emitter, Halt};
use hull_rewrite::{Choice, hulled};
use lp_rows::{Flags, Point};
use milps::{Milp, MilpBuilder};
use outcomes::Memory;
use std::alloc::Global;
use std::marker;

// A count as a column's number.
fn column_at(count: usize) -> u32
    requires { count ≤ 500 }
    ensures { result ≡ count }
{
    count as u32
}

/// The columns and rows of a model's variables, of its Booleans and of its root block.
pub fn emit_tree(model: &Model, flags: &[bool], first: u32, bounds: &Bounds, out: &mut Emitter)
    requires empty { open_sum out.old ≡ nothing }
    requires none { length (state_of out.old).milp.cols ≡ 0 }
    requires first { first ≡ length model.now.vars }
    requires count { length bounds.now.lows ≡ length model.now.vars }
    requires boxed { box_of bounds.now ≡ box_after (model_tree model.now) }
    ensures runs { (h : Disjuncts → Bool) → flags.now ≡ flags_in h (model_tree model.now).root → Runs (tree_items (model_tree model.now) h) (state_of out.old) (state_of out.new) }
    ensures empty { open_sum out.new ≡ nothing }
{
    emit_head(model, first, out);
    emit_root(model, flags, bounds, out);
}

// The program of a model by these flags, or why its emission halts.
fn emit_model(alloc: Global, model: &Model, flags: &[bool], bounds: &Bounds) -> Result<Milp, Halt>
    requires count { length bounds.now.lows ≡ length model.now.vars }
    requires boxed { box_of bounds.now ≡ box_after (model_tree model.now) }
    requires flagged { AreFlags (model_tree model.now) flags.now }
    ensures answer { (h : Disjuncts → Bool) → flags.now ≡ flags_in h (model_tree model.now).root → OrMemory Halt.Memory result (emitted_by (model_tree model.now) h) }
    ensures exact { IfOk result (λ milp. IsExactRewrite (model_tree model.now) milp) }
    ensures fit { result ≢ Err Unfit }
    ensures count { IfOk result (λ milp. length model.now.vars + length model.now.booleans ≤ length milp.cols) }
{
    let first = column_at(model.vars().len());
    let mut out = Emitter::over(alloc, MilpBuilder::new(alloc));
    emit_tree(model, flags, first, bounds, &mut out);
    if is_plain(model) {
        return out.finish(model.sense(), model.terms());
    }
    let id = emit_worth(model, &mut out);
    out.finish(model.sense(), &[(id, 1)])
}

// Why a model is not compiled. That a row is unfit never comes.
fn error_of(halt: Halt) -> CompileError
    requires { halt ≢ Unfit }
    ensures { result ≡ error_by halt }
{
    match halt {
        Halt::NoBound { mark, var } => CompileError::NoBound { mark, var },
        Halt::TooWide { mark } => CompileError::MTooWide { mark },
        Halt::TooBig => CompileError::TooBig,
        Halt::Unfit => unreachable!(),
        Halt::Memory => CompileError::Memory,
    }
}

/// The program of a model, whose first columns are the model's variables, and whose next are its Booleans.
#[derive(Drop)]
pub struct Compiled {
    milp: Milp,
    hulled: Flags,
    vars: usize,
    booleans: usize,
}

impl marker::Model for Compiled {
    ghost use Rattle.std.specs.Prelude.{◌≤◌, ◌+◌, length};
    ghost use Rattle.hybrid_rewrite.specs.Compiled.{CompiledValue};

    ghost Value = { CompiledValue };

    ghost view = { λ c. record { milp = c.milp; hulled = c.hulled; vars = c.vars; booleans = c.booleans } };

    ghost invariant = { λ c. c.vars + c.booleans ≤ length c.milp.cols };
}

// Whether each numerator is positive.
fn are_positive(alloc: Global, nums: &[i128]) -> Result<Flags, Memory>
    ensures { IfOk result (λ flags. flags ≡ map (λ x. int_lt (pos 0) x) nums.now) }
{
    let mut flags = Flags::new(alloc);
    for num in nums {
        if flags.push(alloc, is_positive(*num)).is_err() {
            return Err(Memory);
        }
    }
    Ok(flags)
}

// Whether the number is positive.
fn is_positive(num: i128) -> bool
    ensures { result ≡ int_lt (pos 0) num }
{
    0 < num
}

impl Compiled {
    /// The program.
    pub fn milp(&self) -> &Milp
        ensures { result.now ≡ self.now.milp }
    {
        &self.milp
    }

    /// Whether each disjunction is rewritten by hull, in the order of the text.
    pub fn hulled(&self) -> &Flags
        ensures { result.now ≡ self.now.hulled }
    {
        &self.hulled
    }

    /// The cut of a point of the program: the model's variables have the numbers of the first columns, and its Booleans are
    /// true where the next columns are.
    pub fn cut(&self, alloc: Global, at: &Point) -> Result<ModelPoint, Memory>
        requires { length at.now.nums ≡ length self.now.milp.cols }
        ensures numbers { IfOk result (λ point. point.at ≡ vars_cut self.now.vars at.now) }
        ensures truths { IfOk result (λ point. point.truths ≡ truths_cut self.now.vars self.now.booleans at.now) }
    {
        let nums = at.nums();
        let rest = &nums[self.vars..];
        let Ok(point) = Point::make(alloc, at.over(), &nums[..self.vars]) else {
            return Err(Memory);
        };
        let truths = are_positive(alloc, &rest[..self.booleans])?;
        Ok(ModelPoint { at: point, truths })
    }
}

// The program of a model by these flags, or the first refusal in the order of emission.
fn compile_over(
    alloc: Global,
    model: &Model,
    hulled: Flags,
    bounds: &Bounds,
) -> Result<Compiled, CompileError>
    requires count { length bounds.now.lows ≡ length model.now.vars }
    requires boxed { box_of bounds.now ≡ box_after (model_tree model.now) }
    requires flagged { AreFlags (model_tree model.now) hulled }
    ensures answer { (h : Disjuncts → Bool) → hulled ≡ flags_in h (model_tree model.now).root → OrMemory CompileError.Memory result (compiled (model_tree model.now) h) }
    ensures exact { IfOk result (λ c. IsExactRewrite (model_tree model.now) c.milp) }
{
    let vars = model.vars().len();
    let booleans = model.booleans().len();
    match emit_model(alloc, model, hulled.as_slice(), bounds) {
        Ok(milp) => Ok(Compiled {
            milp,
            hulled,
            vars,
            booleans,
        }),
        Err(halt) => Err(error_of(halt)),
    }
}

/// The program of a model, each disjunction by hull where its flag says so and else by big-M, or the first refusal in the
/// order of emission. The flags stand in the order of the text. It is an exact rewrite of the model.
pub fn compile_flags(alloc: Global, model: &Model, flags: Flags) -> Result<Compiled, CompileError>
    requires { AreFlags (model_tree model.now) flags }
    ensures answer { (h : Disjuncts → Bool) → flags ≡ flags_in h (model_tree model.now).root → OrMemory CompileError.Memory result (compiled (model_tree model.now) h) }
    ensures exact { IfOk result (λ c. IsExactRewrite (model_tree model.now) c.milp) }
{
    let Ok(bounds) = propagate(alloc, model) else {
        return Err(CompileError::Memory);
    };
    compile_over(alloc, model, flags, &bounds)
}

/// The program of a model, the disjunctions of mode xor by hull or by big-M as the choice says, or the first refusal in the
/// order of emission. It is an exact rewrite of the model.
pub fn compile(alloc: Global, model: &Model, choice: Choice) -> Result<Compiled, CompileError>
    ensures answer { OrMemory CompileError.Memory result (compiled (model_tree model.now) (flagging choice (model_tree model.now))) }
    ensures exact { IfOk result (λ c. IsExactRewrite (model_tree model.now) c.milp) }
    ensures fit { (rewritten (model_tree model.now) (flagging choice (model_tree model.now))).halt ≢ Some Unfit }
{
    let _vars = model.vars();
    let Ok(bounds) = propagate(alloc, model) else {
        return Err(CompileError::Memory);
    };
    let Ok(flags) = hulled(alloc, model, choice, &bounds) else {
        return Err(CompileError::Memory);
    };
    compile_over(alloc, model, flags, &bounds)
}
