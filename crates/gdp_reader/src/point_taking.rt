//! What the lines of a point text give.

ghost use Rattle.std.specs.Prelude.{◌≡◌, length, true, is_some, IfOk, OnErr};
ghost use Rattle.std.specs.List.{list_all};
ghost use Rattle.model_tree.specs.Values.{model_tree};
ghost use Rattle.gdp_grammar.specs.PointReading.{
  no_point_taken,
  has_number as has_number_of,
  is_on as is_on_of,
  has_line as has_line_of,
  takes_names as takes_names_of,
  with_over,
  with_val,
  with_on,
  with_end,
  with_point_form,
  with_point_header,
  with_point_words,
  with_point_line,
};
ghost use Rattle.text_grammar.specs.Words.{words_of};
ghost use Rattle.gdp_reader.specs.Denominators.{is_denominator};
ghost use Rattle.text_grammar.specs.Outcomes.{result_map};
ghost use Rattle.gdp_lines.specs.PointLines.{integer, point_form};

use gdp_grammar::ReadCause;
use gdp_lines::integer::{integer_value, over_value};
use gdp_lines::line::without_comment;
use gdp_lines::point_form::{Integer, PointForm, read_point_form};
use gdp_lines::word::{are_words, is_blank};
use model_tree::Model;
use outcomes::Memory;
use std::alloc::Global;

/// What the lines so far gave, of a point of the model.
#[derive(Drop)]
pub struct PointTaking<'a> {
    pub model: &'a Model,
    pub is_headed: bool,
    pub over: Option<i128>,
    pub numbers: Vec<Option<i128>>,
    pub truths: Vec<bool>,
    pub is_ended: bool,
    ghost numbered: { length numbers.items ≡ length model.now.vars },
    ghost flagged: { length truths.items ≡ length model.now.booleans },
    ghost positive: { is_denominator over ≡ true },
}

impl<'a> PointTaking<'a> {
    ghost use Rattle.gdp_reader.specs.PointTaking.{point_taken_of};

    /// Before the first line.
    pub fn new(alloc: Global, model: &'a Model) -> Result<PointTaking<'a>, Memory>
        ensures taken { IfOk result (λ t. point_taken_of t ≡ no_point_taken (model_tree model.now)) }
        ensures model { IfOk result (λ t. t.model.now ≡ model.now) }
    {
        Ok(PointTaking {
            model,
            is_headed: false,
            over: None,
            numbers: vec![in alloc; None; model.vars().len()]?,
            truths: vec![in alloc; false; model.booleans().len()]?,
            is_ended: false,
        })
    }

    /// Whether the variable, where there is one, has its number.
    fn has_number(&self, id: Option<usize>) -> bool
        ensures { result ≡ has_number_of self.now.numbers.items id }
    {
        match id {
            Some(id) => match self.numbers.get(id) {
                Some(number) => number.is_some(),
                None => false,
            },
            None => false,
        }
    }

    /// Whether the Boolean, where there is one, is true.
    fn is_on(&self, id: Option<usize>) -> bool
        ensures { result ≡ is_on_of self.now.truths.items id }
    {
        match id {
            Some(id) => match self.truths.get(id) {
                Some(truth) => *truth,
                None => false,
            },
            None => false,
        }
    }

    /// Whether a line on this name was among the lines so far.
    fn has_line(&self, name: &str) -> bool
        ensures { result ≡ has_line_of (model_tree self.now.model.now) (point_taken_of self.now) name.now }
    {
        self.has_number(self.model.find_var(name)) || self.is_on(self.model.find_boolean(name))
    }

    /// The denominator.
    #[tactic(auto, unfolding(gdp_grammar::specs::PointReading::with_over))]
    fn take_over(&mut self, digits: &[u8]) -> Result<(), ReadCause>
        ensures taken { with_over (point_taken_of self.old) digits.now ≡ result_map (λ _. point_taken_of self.new) result }
        ensures model { self.new.model.now ≡ self.old.model.now }
    {
        if self.over.is_some() {
            return Err(ReadCause::Form);
        }
        let Some(over) = over_value(digits) else {
            return Err(ReadCause::Number);
        };
        self.over = Some(over);
        Ok(())
    }

    /// Whether lines on names stand here: after the line `over` and before the line `end`.
    fn takes_names(&self) -> bool
        ensures { result ≡ takes_names_of (point_taken_of self.now) }
    {
        self.over.is_some() && !self.is_ended
    }

    /// The number of a variable.
    #[tactic(auto, unfolding(gdp_grammar::specs::PointReading::with_val))]
    fn take_val(&mut self, name: &str, number: &Integer<'_>) -> Result<(), ReadCause>
        ensures taken { with_val (model_tree self.old.model.now) (point_taken_of self.old) name.now (integer number.now) ≡ result_map (λ _. point_taken_of self.new) result }
        ensures refused { OnErr result (point_taken_of self.new ≡ point_taken_of self.old) }
        ensures model { self.new.model.now ≡ self.old.model.now }
    {
        if !self.takes_names() {
            return Err(ReadCause::Form);
        }
        if self.has_line(name) {
            return Err(ReadCause::NameTwice);
        }
        let Some(id) = self.model.find_var(name) else {
            return Err(ReadCause::NameUnknown);
        };
        let Some(value) = integer_value(number) else {
            return Err(ReadCause::Number);
        };
        self.numbers[id] = Some(value);
        Ok(())
    }

    /// A Boolean that is true.
    #[tactic(auto, unfolding(gdp_grammar::specs::PointReading::with_on))]
    fn take_on(&mut self, name: &str) -> Result<(), ReadCause>
        ensures taken { with_on (model_tree self.old.model.now) (point_taken_of self.old) name.now ≡ result_map (λ _. point_taken_of self.new) result }
        ensures refused { OnErr result (point_taken_of self.new ≡ point_taken_of self.old) }
        ensures model { self.new.model.now ≡ self.old.model.now }
    {
        if !self.takes_names() {
            return Err(ReadCause::Form);
        }
        if self.has_line(name) {
            return Err(ReadCause::NameTwice);
        }
        let Some(id) = self.model.find_boolean(name) else {
            return Err(ReadCause::NameUnknown);
        };
        self.truths[id] = true;
        Ok(())
    }

    /// Whether each variable has its number.
    fn has_all(&self) -> bool
        ensures { result ≡ list_all is_some self.now.numbers.items }
    {
        self.numbers.iter().all(|number| number.is_some())
    }

    /// The end of the point.
    #[tactic(auto, unfolding(gdp_grammar::specs::PointReading::with_end))]
    fn take_end(&mut self) -> Result<(), ReadCause>
        ensures taken { with_end (point_taken_of self.old) ≡ result_map (λ _. point_taken_of self.new) result }
        ensures model { self.new.model.now ≡ self.old.model.now }
    {
        if !self.takes_names() {
            return Err(ReadCause::Form);
        }
        if !self.has_all() {
            return Err(ReadCause::Missing);
        }
        self.is_ended = true;
        Ok(())
    }

    /// Takes a line of this form.
    fn take_form(&mut self, form: &PointForm<'_>) -> Result<(), ReadCause>
        ensures taken { with_point_form (model_tree self.old.model.now) (point_taken_of self.old) (point_form form.now) ≡ result_map (λ _. point_taken_of self.new) result }
        ensures model { self.new.model.now ≡ self.old.model.now }
    {
        match form {
            PointForm::Over(digits) => self.take_over(digits),
            PointForm::Val(name, number) => self.take_val(name, number),
            PointForm::On(name) => self.take_on(name),
            PointForm::End => self.take_end(),
        }
    }

    /// The header is the first line that isn't blank.
    fn take_header(&mut self, line: &[u8]) -> Result<(), ReadCause>
        ensures taken { with_point_header (point_taken_of self.old) (words_of line.now) ≡ result_map (λ _. point_taken_of self.new) result }
        ensures model { self.new.model.now ≡ self.old.model.now }
    {
        if is_blank(line) {
            return Ok(());
        }
        if !are_words(line, b"gdp-point", b"1") {
            return Err(ReadCause::Header);
        }
        self.is_headed = true;
        Ok(())
    }

    /// A line after the header adds what its form says, and a blank one nothing.
    fn take_words(&mut self, line: &[u8]) -> Result<(), ReadCause>
        ensures taken { with_point_words (model_tree self.old.model.now) (point_taken_of self.old) (words_of line.now) ≡ result_map (λ _. point_taken_of self.new) result }
        ensures model { self.new.model.now ≡ self.old.model.now }
    {
        if is_blank(line) {
            return Ok(());
        }
        let form = read_point_form(line)?;
        self.take_form(&form)
    }

    /// Takes a line.
    #[tactic(auto, unfolding(gdp_grammar::specs::PointReading::with_point_line))]
    pub fn take(&mut self, bytes: &[u8]) -> Result<(), ReadCause>
        ensures taken { with_point_line (model_tree self.old.model.now) (point_taken_of self.old) bytes.now ≡ result_map (λ _. point_taken_of self.new) result }
        ensures model { self.new.model.now ≡ self.old.model.now }
    {
        let content = without_comment(bytes);
        if self.is_headed {
            return self.take_words(content);
        }
        self.take_header(content)
    }
}
