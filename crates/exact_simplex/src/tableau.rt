//! The tableau, and its exchange.

ghost use Rattle.std.specs.Prelude.{◌≡◌, ◌||◌, ℕ, ℤ, ◌+◌, ◌≤◌, OnOk, OnErr, IfOk, IfErr, IfSome, IfNone};
ghost use Rattle.lp_frame.specs.Standard.{Standard};
ghost use Rattle.exact_simplex.specs.Table.{IsSound, IsTableauFor};
ghost use Rattle.exact_simplex.specs.Bland.{bland_move};
ghost use Rattle.exact_simplex.specs.Equations.{IsFirstTable, IsTableauOf};
ghost use Rattle.exact_simplex.specs.Exchange.{IsExchanged, IsNarrowMove, IsWideAtEntry};
ghost use Rattle.exact_simplex.specs.Run.{HasRun, HasEnded};
ghost use Rattle.exact_simplex.specs.steps.Turns.{HasTurned};

use crate::bland::{found_by, leaving_by, leaving_move};
use crate::choosing::find_row;
use crate::exchange::{exchange_rows, read_unless_kept};
use crate::first::{first_basis, first_rows};
use crate::log::{Event, Log};
use crate::moves::{Found, Move, Outcome};
use crate::room::Room;
use lp_frame::StandardForm;
use lp_rows::WideAt;
use outcomes::Memory;
use simplex_rows::{Row, index_exchange, index_rows, narrow_rows};
use std::alloc::Global;
use std::marker::Model;

mod reading;

/// The tableau of a basis, which contracts see as a `Table`.
#[derive(Drop)]
pub struct Tableau {
    columns: usize,
    height: usize,
    rows: Vec<Row>,
    basis: Vec<usize>,
    dropped: bool,
    spare: Row,
    written: Row,
    index: Vec<u64>,
    column: Row,
    kept: usize,
    started: bool,
    room: Room,
}

impl Model for Tableau {
    ghost use Rattle.exact_simplex.specs.Table.{Table};
    ghost use Rattle.exact_simplex.specs.steps.Kept.{IsSoundWith};

    ghost Value = { Table };

    ghost view = { λ t. record { columns = t.columns; height = t.height; rows = t.rows.items; basis = t.basis.items; dropped = t.dropped } };

    ghost invariant = { λ t. IsSoundWith (record { columns = t.columns; height = t.height; rows = t.rows.items; basis = t.basis.items; dropped = t.dropped }) t.spare t.written t.index.items t.column t.kept t.started };
}

impl Tableau {
    /// The tableau of the slack basis of this standard form. It takes all memory that the moves will need.
    pub fn make(alloc: Global, standard: &StandardForm) -> Result<Tableau, Memory>
        ensures first { IfOk result (IsFirstTable standard.now) }
        ensures tableau { IfOk result (IsTableauOf standard.now) }
        ensures sound { IfOk result IsSound }
    {
        Tableau::make_in(alloc, standard, Room::new(alloc))
    }

    /// The same, in the memory of the rows that the room has.
    pub fn make_in(
        alloc: Global,
        standard: &StandardForm,
        mut room: Room,
    ) -> Result<Tableau, Memory>
        ensures first { IfOk result (IsFirstTable standard.now) }
        ensures tableau { IfOk result (IsTableauOf standard.now) }
        ensures sound { IfOk result IsSound }
    {
        let columns = standard.columns() as usize;
        let height = standard.rows().len();
        let rows = first_rows(alloc, standard.rows(), standard.goal(), columns, &mut room)?;
        let basis = first_basis(alloc, columns, height)?;
        let width = columns + height + 3;
        let spare = room.zeros(alloc, width)?;
        let written = room.zeros(alloc, width)?;
        let column = room.zeros(alloc, height + 1)?;
        narrow_rows(&rows);
        let words = height / 64 + 1;
        let mut index = vec![in alloc; 0u64; width * words]?;
        index_rows(&mut index, words, &rows, width);
        Ok(Tableau {
            columns,
            height,
            rows,
            basis,
            dropped: false,
            spare,
            written,
            index,
            column,
            kept: width,
            started: false,
            room,
        })
    }

    /// The memory of its rows, and what was left of the room that it was made in.
    pub fn into_room(self) -> Room {
        let mut room = self.room;
        room.keep(self.column);
        room.keep(self.written);
        room.keep(self.spare);
        for row in self.rows {
            room.keep(row);
        }
        room
    }

    /// The move that Bland's rule names.
    pub fn bland(&self) -> Move
        ensures { result ≡ bland_move self.now }
    {
        match found_by(
            &self.rows,
            &self.basis,
            self.columns,
            self.height,
            self.started,
        ) {
            Found::Named(next) => next,
            Found::Enters(enter) => leaving_move(
                &self.rows,
                &self.basis,
                self.columns,
                self.height,
                enter,
            ),
        }
    }

    // The same. It keeps the entering column that it reads.
    fn choose(&mut self) -> Move
        ensures value { result ≡ bland_move self.old }
        ensures same { self.new ≡ self.old }
    {
        match found_by(
            &self.rows,
            &self.basis,
            self.columns,
            self.height,
            self.started,
        ) {
            Found::Named(next) => next,
            Found::Enters(enter) => {
                self.column
                    .write_column(&self.rows, enter, &self.index, self.height / 64 + 1);
                self.kept = enter;
                leaving_by(
                    &self.rows,
                    &self.basis,
                    &self.column,
                    self.columns,
                    self.height,
                    enter,
                )
            }
        }
    }

    /// Makes the entering column basic in the place of the leaving one, which are those that `bland` names. Where a
    /// number of the exchange isn't narrow, it names the first such by row and then column, and changes nothing.
    pub fn exchange(&mut self, enter: u32, leave: u32) -> Result<(), WideAt>
        requires { bland_move self.old ≡ Move.Exchange enter leave }
        ensures ok { OnOk result (IsExchanged self.old self.new enter leave) }
        ensures narrow { OnOk result (IsNarrowMove self.old enter leave) }
        ensures tableau { OnOk result ((equation : ℕ → ℕ → ℤ) → IsTableauFor equation self.old → IsTableauFor equation self.new) }
        ensures sound { OnOk result (IsSound self.new) }
        ensures wide { IfErr result (IsWideAtEntry self.old enter leave) }
        ensures unchanged { OnErr result (self.new ≡ self.old) }
    {
        let enter = enter as usize;
        let leave = leave as usize;
        let artificial = self.columns + self.height;
        let row = find_row(&self.basis, self.height, leave);
        let drops = leave == artificial;
        let words = self.height / 64 + 1;
        read_unless_kept(
            &self.rows,
            enter,
            self.kept,
            &mut self.column,
            &self.index,
            words,
        );
        self.kept = artificial + 3;
        match exchange_rows(
            &mut self.rows,
            &mut self.spare,
            &mut self.written,
            &self.column,
            row,
            enter,
            artificial,
            drops,
        ) {
            Err(place) => Err(WideAt::Entry {
                row: place.0 as u32,
                column: place.1 as u32,
            }),
            Ok(()) => {
                index_exchange(
                    &mut self.index,
                    words,
                    &self.rows[row],
                    &self.column,
                    enter,
                    row,
                );
                self.basis[row] = enter;
                self.dropped = either(self.dropped, drops);
                self.started = true;
                Ok(())
            }
        }
    }

    /// Makes Bland's moves, logs each and takes one from `steps` for each, until none is due, no step is left, or
    /// a number of the exchange that is due isn't narrow. It takes no memory.
    pub fn run(&mut self, steps: &mut u32, log: &mut Log) -> Outcome
        requires { steps.old ≤ log.old.spare }
        ensures moves { HasRun self.old self.new steps.old steps.new log.old.events log.new.events }
        ensures tableau { (equation : ℕ → ℕ → ℤ) → IsTableauFor equation self.old → IsTableauFor equation self.new }
        ensures form { (form : Standard) → IsTableauOf form self.old → IsTableauOf form self.new }
        ensures ended { HasEnded self.new steps.new result }
        ensures spare { log.new.spare + steps.old ≡ log.old.spare + steps.new }
    {
        'turns: loop {
            match self.turn(steps, log) {
                None => {}
                Some(outcome) => return outcome,
            }
        }
    }

    // One move, or how the run has ended.
    fn turn(&mut self, steps: &mut u32, log: &mut Log) -> Option<Outcome>
        requires { steps.old ≤ log.old.spare }
        ensures ended { IfSome result (λ outcome. HasEnded self.new steps.new outcome × (self.new ≡ self.old) × (steps.new ≡ steps.old) × (log.new ≡ log.old)) }
        ensures moved { IfNone result (HasTurned self.old self.new steps.old steps.new log.old log.new) }
    {
        match self.choose() {
            Move::Optimal => Some(Outcome::Optimal),
            Move::Infeasible => Some(Outcome::Infeasible),
            Move::Unbounded { enter } => Some(Outcome::Unbounded { enter }),
            Move::Exchange { enter, leave } => {
                if *steps == 0 {
                    return Some(Outcome::Steps);
                }
                match self.exchange(enter, leave) {
                    Err(place) => Some(Outcome::Wide(place)),
                    Ok(()) => {
                        *steps -= 1;
                        log.push(Event::Move { enter, leave });
                        None
                    }
                }
            }
        }
    }
}

fn either(a: bool, b: bool) -> bool
    ensures { result ≡ (a || b) }
{
    a || b
}
