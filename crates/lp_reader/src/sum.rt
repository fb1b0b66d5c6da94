//! Names in sums: the labels and the columns of an objective and of rows.

ghost use Rattle.std.specs.Prelude.{◌≡◌, IfOk};
ghost use Rattle.lp_grammar.specs.Taking.{column_of as column_of_name};
ghost use Rattle.lp_grammar.specs.Tokens.{Name};
ghost use Rattle.lp_reader.specs.Sums.{sum_term, sum_token, label_of};
ghost use Rattle.lp_reader.specs.Taken.{taken_of, Leaves};

use crate::taking::Taking;
use fractions::Frac;
use lp_grammar::{Pending, Stage};
use lp_parts::pending::{coefficient, no_pending};
use outcomes::Memory;
use std::alloc::Global;

/// A sum that is read.
#[derive(Clone, Copy)]
pub enum Sum {
    Goal,
    Row,
}

/// Where a text stands behind a sum's label.
fn label_stage(sum: Sum) -> Stage
    ensures { result ≡ label_of sum }
{
    match sum {
        Sum::Goal => Stage::GoalLabel,
        Sum::Row => Stage::RowLabel,
    }
}

impl Taking {
    /// A term of a sum, unless its column stands; whether it can come here.
    fn take_term(&mut self, sum: Sum, id: usize, coefficient: Frac) -> Result<bool, Memory>
        ensures { IfOk result (λ fits. Leaves (taken_of self.new) fits (sum_term sum (id, taken_of self.old) coefficient)) }
    {
        match sum {
            Sum::Goal => {
                let fits = self.goal.insert(id, coefficient)?;
                self.stand_at(Stage::Goal(false, no_pending()));
                Ok(fits)
            }
            Sum::Row => {
                let fits = self.terms.insert(id, coefficient)?;
                self.stand_at(Stage::Rows(false, no_pending()));
                Ok(fits)
            }
        }
    }

    /// The name of a term's column; whether it can come here.
    fn take_column(
        &mut self,
        alloc: Global,
        sum: Sum,
        name: &[u8],
        coefficient: Frac,
    ) -> Result<bool, Memory>
        ensures { IfOk result (λ fits. Leaves (taken_of self.new) fits (sum_term sum (column_of_name (taken_of self.old) name.now) coefficient)) }
    {
        let id = self.column_of(alloc, name)?;
        self.take_term(sum, id, coefficient)
    }

    /// A name in a sum, which is a label before a colon at its beginning; whether it can come here.
    pub fn take_sum_name(
        &mut self,
        alloc: Global,
        sum: Sum,
        is_fresh: bool,
        pending: Pending,
        name: &[u8],
        is_labelled: bool,
    ) -> Result<bool, Memory>
        ensures { IfOk result (λ fits. Leaves (taken_of self.new) fits (sum_token sum (taken_of self.old) is_fresh pending (Name name.now) is_labelled)) }
    {
        self.take_name(name);
        if is_fresh && is_labelled {
            self.stand_at(label_stage(sum));
            return Ok(true);
        }
        self.take_column(alloc, sum, name, coefficient(pending))
    }
}
