//! What the lines of an answer gave so far.

ghost use Rattle.std.specs.Prelude.{◌≡◌, ◌≤ℤ◌, pos, true, IfOk, set};
ghost use Rattle.cert_grammar.specs.Answers.{due_line, with_line, nothing_taken, answer_after, claim_line, over_line, val_line, step_line, on_line, on_name as name_on, behind_vals as due_after_vals, behind_steps as due_after_steps, behind_ons as line_after_ons, behind_nodes as due_after_nodes, tree_line as line_of_tree, is_nothing as is_no_line};
ghost use Rattle.cert_grammar.specs.ExactLines.{parts_of, exact_line};
ghost use Rattle.cert_grammar.specs.Answers.{header_line, route_line, last_line, node_line};
ghost use Rattle.cert_reader.specs.AnswerReads.{pushed, is_endless as is_endless_value, AnswerGives};
ghost use Rattle.cert_reader.specs.TreeReads.{LineGives};

use crate::fault::LineFault;
use crate::tree::TreeRead;
use answers::{Answer, Claim, Route};
use cert_grammar::{CertCause, ClaimKind, Due};
use cert_lines::{
    are_two, find_place, is_one, name_at, named_number, on_name, read_over, read_value,
    route_named, second_of,
};
use gdp_io::Name;
use lp_rows::{Flags, Nums, Point, PointError};
use outcomes::Memory;
use std::alloc::Global;
use std::marker::Model;

/// What the lines of an answer gave so far.
#[derive(Drop)]
pub struct AnswerRead {
    due: Due,
    route: Route,
    kind: ClaimKind,
    over: i128,
    nums: Nums,
    truths: Vec<bool>,
    ray: Nums,
    tree: TreeRead,
}

impl Model for AnswerRead {
    ghost use Rattle.std.specs.Prelude.{◌≡◌, true};
    ghost use Rattle.cert_grammar.specs.Answers.{AnswerTaken};
    ghost use Rattle.cert_reader.specs.AnswerReads.{IsKept};

    ghost Value = { AnswerTaken };

    ghost view = { λ a. record {
      due = a.due;
      route = a.route;
      kind = a.kind;
      over = a.over;
      nums = a.nums;
      truths = a.truths.items;
      ray = a.ray;
      tree = a.tree;
    } };

    ghost invariant = { λ a. IsKept a.due a.kind a.over a.tree.ended };
}

// The line behind those of the numbers.
fn behind_vals(names: usize, numbers: &[i128]) -> Due
    ensures { result ≡ due_after_vals names numbers.now }
{
    if numbers.len() < names {
        Due::Vals
    } else {
        Due::Ons(0)
    }
}

// The line behind those of the steps.
fn behind_steps(names: usize, steps: &[i128]) -> Due
    ensures { result ≡ due_after_steps names steps.now }
{
    if steps.len() < names {
        Due::Steps
    } else {
        Due::LastLine
    }
}

// Whether the goal is claimed to improve without end.
fn is_endless(kind: &ClaimKind) -> bool
    ensures { result ≡ is_endless_value kind.now }
{
    match kind {
        ClaimKind::IsEndless => true,
        _ => false,
    }
}

// Adds the number of a line on the name that is due.
#[tactic(auto, using(crate::proofs::AnswerReads::pushed_bad, crate::proofs::AnswerReads::pushed_one))]
fn push_named(
    alloc: Global,
    numbers: &mut Nums,
    first: &[u8],
    name: &[u8],
    line: &[u8],
) -> Result<(), LineFault>
    ensures { LineGives result (pushed numbers.old first.now name.now (parts_of line.now)) numbers.new }
{
    match named_number(first, name, line) {
        Err(cause) => Err(LineFault::Refused(cause)),
        Ok(number) => {
            if numbers.push(alloc, number).is_err() {
                return Err(LineFault::Memory);
            }
            Ok(())
        }
    }
}

// Makes the Boolean at a place true.
#[tactic(auto, using(crate::proofs::AnswerReads::set_beyond))]
fn turn_on(truths: &mut Vec<bool>, place: usize)
    ensures { truths.new.items ≡ set truths.old.items place true }
{
    if place < truths.len() {
        truths[place] = true;
    }
}

// Whether no line is due.
fn is_nothing(due: Due) -> bool
    ensures { result ≡ is_no_line due }
{
    match due {
        Due::Nothing => true,
        _ => false,
    }
}

// The point with these numerators over a positive denominator.
#[tactic(auto, using(crate::proofs::AnswerReads::point_is, crate::proofs::AnswerReads::never_over))]
fn make_point(alloc: Global, over: i128, nums: &[i128]) -> Result<Point, Memory>
    requires { pos 1 ≤ℤ over }
    ensures { IfOk result (λ point. point ≡ record { over = over; nums = nums.now }) }
{
    match Point::make(alloc, over, nums) {
        Ok(point) => Ok(point),
        Err(PointError::Memory) => Err(Memory),
        Err(PointError::Over) => unreachable!(),
    }
}

impl AnswerRead {
    /// Nothing is read, over so many Booleans.
    pub fn new(alloc: Global, booleans: usize) -> Result<AnswerRead, Memory>
        ensures { IfOk result (λ read. read ≡ nothing_taken booleans) }
    {
        let truths = vec![in alloc; false; booleans]?;
        Ok(AnswerRead {
            due: Due::Header,
            route: Route::BigM,
            kind: ClaimKind::IsEmpty,
            over: 1,
            nums: Nums::new(alloc),
            truths,
            ray: Nums::new(alloc),
            tree: TreeRead::new(alloc),
        })
    }

    // Takes the first line.
    #[tactic(auto, using(crate::proofs::AnswerReads::header_bad, crate::proofs::AnswerReads::header_good))]
    fn header(&mut self, line: &[u8]) -> Result<(), LineFault>
        ensures { LineGives result (header_line self.old (parts_of line.now)) self.new }
    {
        if !are_two(b"gdp-answer", b"1", line) {
            return Err(LineFault::Refused(CertCause::Form));
        }
        self.due = Due::RouteLine;
        Ok(())
    }

    // Takes the line of the route.
    #[tactic(auto, using(crate::proofs::AnswerReads::route_bad, crate::proofs::AnswerReads::route_none, crate::proofs::AnswerReads::route_good))]
    fn route(&mut self, line: &[u8]) -> Result<(), LineFault>
        ensures { LineGives result (route_line self.old (parts_of line.now)) self.new }
    {
        let Some(word) = second_of(b"route", line) else {
            return Err(LineFault::Refused(CertCause::Form));
        };
        let Some(route) = route_named(word) else {
            return Err(LineFault::Refused(CertCause::Form));
        };
        self.route = route;
        self.due = Due::ClaimLine;
        Ok(())
    }

    // Takes the line that says what is claimed.
    #[tactic(auto, using(crate::proofs::AnswerReads::claim_empty, crate::proofs::AnswerReads::claim_endless, crate::proofs::AnswerReads::claim_form, crate::proofs::AnswerReads::claim_bad, crate::proofs::AnswerReads::claim_best))]
    fn claim(&mut self, line: &[u8]) -> Result<(), LineFault>
        ensures { LineGives result (claim_line self.old (parts_of line.now)) self.new }
    {
        if is_one(b"empty", line) {
            self.due = Due::TreeLine;
            return Ok(());
        }
        if is_one(b"endless", line) {
            self.kind = ClaimKind::IsEndless;
            self.due = Due::Over;
            return Ok(());
        }
        let Some(word) = second_of(b"best", line) else {
            return Err(LineFault::Refused(CertCause::Form));
        };
        match read_value(word) {
            Err(cause) => Err(LineFault::Refused(cause)),
            Ok(value) => {
                self.kind = ClaimKind::IsBest(value);
                self.due = Due::Over;
                Ok(())
            }
        }
    }

    // Takes the line of the denominator.
    #[tactic(auto, using(crate::proofs::AnswerReads::over_form, crate::proofs::AnswerReads::over_bad, crate::proofs::AnswerReads::over_good, crate::proofs::AnswerReads::kept_vals))]
    fn over(&mut self, names: usize, line: &[u8]) -> Result<(), LineFault>
        ensures { LineGives result (over_line names self.old (parts_of line.now)) self.new }
    {
        let Some(word) = second_of(b"over", line) else {
            return Err(LineFault::Refused(CertCause::Form));
        };
        match read_over(word) {
            Err(cause) => Err(LineFault::Refused(cause)),
            Ok(over) => {
                self.over = over;
                self.due = behind_vals(names, &[]);
                Ok(())
            }
        }
    }

    // Takes the line of a variable's number.
    #[tactic(auto, using(crate::proofs::AnswerReads::val_bad, crate::proofs::AnswerReads::val_good, crate::proofs::AnswerReads::kept_vals))]
    fn val(&mut self, alloc: Global, names: &[Name], line: &[u8]) -> Result<(), LineFault>
        ensures { LineGives result (val_line names.now self.old (parts_of line.now)) self.new }
    {
        let name = name_at(names, self.nums.len());
        match push_named(alloc, &mut self.nums, b"val", name, line) {
            Err(fault) => Err(fault),
            Ok(()) => {
                self.due = behind_vals(names.len(), self.nums.as_slice());
                Ok(())
            }
        }
    }

    // Takes the line of a variable's step.
    #[tactic(auto, using(crate::proofs::AnswerReads::step_bad, crate::proofs::AnswerReads::step_good, crate::proofs::AnswerReads::kept_steps))]
    fn step(&mut self, alloc: Global, names: &[Name], line: &[u8]) -> Result<(), LineFault>
        requires { is_endless_value self.old.kind ≡ true }
        ensures { LineGives result (step_line names.now self.old (parts_of line.now)) self.new }
    {
        let name = name_at(names, self.ray.len());
        match push_named(alloc, &mut self.ray, b"step", name, line) {
            Err(fault) => Err(fault),
            Ok(()) => {
                self.due = behind_steps(names.len(), self.ray.as_slice());
                Ok(())
            }
        }
    }

    // Takes the line before the nodes.
    #[tactic(auto, using(crate::proofs::AnswerReads::tree_bad, crate::proofs::AnswerReads::tree_good))]
    fn tree(&mut self, line: &[u8]) -> Result<(), LineFault>
        ensures { LineGives result (line_of_tree self.old (parts_of line.now)) self.new }
    {
        if !is_one(b"tree", line) {
            return Err(LineFault::Refused(CertCause::Form));
        }
        self.due = Due::Nodes;
        Ok(())
    }

    // Takes the line behind those of the Booleans.
    #[tactic(auto, using(crate::proofs::AnswerReads::ons_endless, crate::proofs::AnswerReads::ons_tree))]
    fn behind_ons(&mut self, alloc: Global, names: &[Name], line: &[u8]) -> Result<(), LineFault>
        ensures { LineGives result (line_after_ons names.now self.old self.old.kind (parts_of line.now)) self.new }
    {
        if is_endless(&self.kind) {
            return self.step(alloc, names, line);
        }
        self.tree(line)
    }

    // Takes the line of a Boolean, or what comes behind these lines.
    #[tactic(auto, using(crate::proofs::AnswerReads::on_none, crate::proofs::AnswerReads::on_unknown, crate::proofs::AnswerReads::on_known))]
    fn on(
        &mut self,
        alloc: Global,
        names: &[Name],
        booleans: &[Name],
        least: usize,
        line: &[u8],
    ) -> Result<(), LineFault>
        ensures { LineGives result (on_line names.now booleans.now self.old least (parts_of line.now) (name_on (parts_of line.now))) self.new }
    {
        let Some(name) = on_name(line) else {
            return self.behind_ons(alloc, names, line);
        };
        let Some(place) = find_place(least, name, booleans) else {
            return Err(LineFault::Refused(CertCause::Name));
        };
        turn_on(&mut self.truths, place);
        self.due = Due::Ons(place + 1);
        Ok(())
    }

    // Takes the end.
    #[tactic(auto, using(crate::proofs::AnswerReads::last_bad, crate::proofs::AnswerReads::last_good))]
    fn last(&mut self, line: &[u8]) -> Result<(), LineFault>
        requires { is_endless_value self.old.kind ≡ true }
        ensures { LineGives result (last_line self.old (parts_of line.now)) self.new }
    {
        if !is_one(b"end", line) {
            return Err(LineFault::Refused(CertCause::Form));
        }
        self.due = Due::Nothing;
        Ok(())
    }

    // Takes the line of a node, or the end.
    #[tactic(auto, using(crate::proofs::AnswerReads::node_bad, crate::proofs::AnswerReads::node_good))]
    fn node(&mut self, alloc: Global, line: &[u8]) -> Result<(), LineFault>
        ensures { LineGives result (node_line self.old (parts_of line.now)) self.new }
    {
        match self.tree.take(alloc, line) {
            Err(fault) => Err(fault),
            Ok(()) => {
                self.due = if self.tree.is_ended() {
                    Due::Nothing
                } else {
                    Due::Nodes
                };
                Ok(())
            }
        }
    }

    /// Takes the words of a line.
    pub fn take(
        &mut self,
        alloc: Global,
        names: &[Name],
        booleans: &[Name],
        line: &[u8],
    ) -> Result<(), LineFault>
        ensures { LineGives result (due_line names.now booleans.now self.old self.old.due (parts_of line.now)) self.new }
    {
        match self.due {
            Due::Header => self.header(line),
            Due::RouteLine => self.route(line),
            Due::ClaimLine => self.claim(line),
            Due::Over => self.over(names.len(), line),
            Due::Vals => self.val(alloc, names, line),
            Due::Ons(least) => self.on(alloc, names, booleans, least, line),
            Due::Steps => self.step(alloc, names, line),
            Due::LastLine => self.last(line),
            Due::TreeLine => self.tree(line),
            Due::Nodes => self.node(alloc, line),
            Due::Nothing => Err(LineFault::Refused(CertCause::Form)),
        }
    }

    /// Takes a line; one that no newline ends is refused.
    #[tactic(auto, using(crate::proofs::AnswerReads::line_ended, crate::proofs::AnswerReads::line_open))]
    pub fn take_line(
        &mut self,
        alloc: Global,
        names: &[Name],
        booleans: &[Name],
        line: &[u8],
        ended: bool,
    ) -> Result<(), LineFault>
        ensures { LineGives result (with_line names.now booleans.now self.old (exact_line (line.now, ended))) self.new }
    {
        if !ended {
            return Err(LineFault::Refused(CertCause::Form));
        }
        self.take(alloc, names, booleans, line)
    }

    /// The answer that the lines gave; a text that ends too early is refused there.
    #[tactic(auto, using(crate::proofs::AnswerReads::given_early, crate::proofs::AnswerReads::given_best, crate::proofs::AnswerReads::given_empty, crate::proofs::AnswerReads::given_endless, crate::proofs::AnswerReads::kept_ended))]
    pub fn into_answer(self, alloc: Global) -> Result<Answer, LineFault>
        ensures { AnswerGives result (answer_after self) }
    {
        if !is_nothing(self.due) {
            return Err(LineFault::Refused(CertCause::Form));
        }
        let route = self.route;
        match &self.kind {
            ClaimKind::IsBest(value) => {
                let value = *value;
                let Ok(at) = make_point(alloc, self.over, self.nums.as_slice()) else {
                    return Err(LineFault::Memory);
                };
                let truths = Flags::from_vec(self.truths);
                let proof = self.tree.into_proof();
                Ok(Answer {
                    route,
                    claim: Claim::Best {
                        at,
                        truths,
                        value,
                        proof,
                    },
                })
            }
            ClaimKind::IsEmpty => {
                let proof = self.tree.into_proof();
                Ok(Answer {
                    route,
                    claim: Claim::Empty { proof },
                })
            }
            ClaimKind::IsEndless => {
                let Ok(at) = make_point(alloc, self.over, self.nums.as_slice()) else {
                    return Err(LineFault::Memory);
                };
                let truths = Flags::from_vec(self.truths);
                Ok(Answer {
                    route,
                    claim: Claim::Endless {
                        at,
                        truths,
                        ray: self.ray,
                    },
                })
            }
        }
    }
}
