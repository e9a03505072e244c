// The ranking system of a part: a term for each of its places that grows over none of its passages, and over one of them falls from a value
// that is not below 0. By the lemma of J. Farkas a row follows from others exactly where it is a sum of multiples of them, less a number of
// at least 0. A number of a term is the difference of two unknowns, since all unknowns are at least 0.

ghost use Rattle.std.specs.Prelude.{IfOk, IfSome};
ghost use Rattle.tv_simplex.specs.Systems.{IsWhole};
ghost use Rattle.tv_simplex.specs.Views.{equations};

use crate::effect::{Effect, Steps};
use crate::family::Part;
use crate::limits::SYSTEM_ENTRIES;
use crate::passage::Passage;
use std::alloc::{AllocError, Global};
use tv_linear::Row;
use tv_simplex::{Entries, System};
use tv_walks::coefficient_at;

/// What a ranking system is asked of.
#[derive(Drop)]
pub(crate) struct Asked<'a, 'b> {
    pub steps: &'a Steps,
    pub part: &'b Part,
    /// The variables that a term may have.
    pub variables: Vec<usize>,
    /// Which of the passages is to fall.
    pub falling: usize,
}

/// A column of rows: that of a variable or a draw, or the constants.
#[derive(Clone, Copy)]
enum Column {
    At(usize),
    Constant,
}

/// The number of a row in the column.
fn number_at(row: &Row, column: Column) -> i128 {
    match column {
        Column::At(place) => i128::from(coefficient_at(row, place)),
        Column::Constant => row.constant(),
    }
}

/// Adds the number to a line of the system at a place.
fn add(line: &mut [i128], place: usize, number: i128) {
    if let Some(slot) = line.get_mut(place) {
        *slot = slot.saturating_add(number);
    }
}

/// Adds the number to a line of the system at the two unknowns of a number of a term.
fn add_pair(line: &mut [i128], place: usize, number: i128) {
    add(line, place, number);
    add(line, place.saturating_add(1), number.saturating_neg());
}

/// The rows of the system while they are put together.
#[derive(Drop)]
struct Draft {
    entries: Entries,
    right: Vec<i128>,
}

impl Draft {
    /// Puts a row at the end.
    fn push(&mut self, line: &[i128], right: i128) -> Result<(), AllocError> {
        for number in line {
            if self.entries.len() < SYSTEM_ENTRIES {
                self.entries.push(*number)?;
            }
        }
        self.right.push(right)?;
        Ok(())
    }
}

impl Asked<'_, '_> {
    /// How many unknowns the term of a place has.
    fn per_place(&self) -> usize {
        self.variables.len().saturating_add(1).saturating_mul(2)
    }

    /// Where the unknowns of the term of a place stand: two for each variable, and two for the constant.
    pub(crate) fn place_at(&self, place: usize) -> usize {
        let number = self
            .part
            .places
            .iter()
            .position(|other| *other == place)
            .unwrap_or(0);
        number.saturating_mul(self.per_place())
    }

    /// Where the multipliers of the rows of a passage stand, and then a slack; past the last passage those of the bound.
    fn multipliers_at(&self, number: usize) -> usize {
        let mut place = self.part.places.len().saturating_mul(self.per_place());
        for passage in self.part.passages.iter().take(number) {
            place = place.saturating_add(passage.rows.len()).saturating_add(1);
        }
        place
    }

    /// How many unknowns there are.
    pub(crate) fn columns(&self) -> usize {
        let bound = match self.part.passages.get(self.falling) {
            Some(passage) => passage.rows.len(),
            None => 0,
        };
        self.multipliers_at(self.part.passages.len())
            .saturating_add(bound)
            .saturating_add(1)
    }

    /// How many rows there are for a passage.
    fn lines_of(&self, passage: &Passage) -> usize {
        let width = match self.steps.effects.get(passage.number) {
            Some(effect) => effect.width,
            None => 0,
        };
        let draws = width.saturating_sub(self.steps.columns);
        self.variables.len().saturating_add(draws).saturating_add(1)
    }

    /// How many rows there are.
    pub(crate) fn rows(&self) -> usize {
        let mut rows: usize = 0;
        for passage in &self.part.passages {
            rows = rows.saturating_add(self.lines_of(passage));
        }
        match self.part.passages.get(self.falling) {
            Some(passage) => rows.saturating_add(self.lines_of(passage)),
            None => rows,
        }
    }

    /// Adds the opposite of the term of a place, in the column.
    fn add_before(&self, line: &mut [i128], place: usize, column: Column) {
        let first = self.place_at(place);
        match column {
            Column::At(variable) => {
                if let Some(number) = self.variables.iter().position(|other| *other == variable) {
                    let unknown = first.saturating_add(number.saturating_mul(2));
                    add_pair(line, unknown, -1);
                }
            }
            Column::Constant => {
                let unknown = first.saturating_add(self.variables.len().saturating_mul(2));
                add_pair(line, unknown, -1);
            }
        }
    }

    /// Adds the term of a place after the step, in the column.
    fn add_after(&self, line: &mut [i128], place: usize, effect: &Effect, column: Column) {
        let first = self.place_at(place);
        for (number, variable) in self.variables.iter().enumerate() {
            if let Some(term) = effect.terms.get(*variable) {
                let unknown = first.saturating_add(number.saturating_mul(2));
                add_pair(line, unknown, number_at(term, column));
            }
        }
        if let Column::Constant = column {
            let unknown = first.saturating_add(self.variables.len().saturating_mul(2));
            add_pair(line, unknown, 1);
        }
    }

    /// Adds the opposite of a multiple of each of the rows, in the column, and the slack, from a place on.
    fn add_rows(&self, line: &mut [i128], rows: &[Row], first: usize, column: Column) {
        for (number, row) in rows.iter().enumerate() {
            let opposite = number_at(row, column).saturating_neg();
            add(line, first.saturating_add(number), opposite);
        }
        if let Column::Constant = column {
            add(line, first.saturating_add(rows.len()), 1);
        }
    }

    /// Puts the row of a passage in the column at the end.
    fn push_step(
        &self,
        number: usize,
        column: Column,
        draft: &mut Draft,
    ) -> Result<(), AllocError> {
        let mut line = vec![in self.steps.alloc; 0; self.columns()]?;
        if let Some(passage) = self.part.passages.get(number)
            && let Some(effect) = self.steps.effects.get(passage.number)
        {
            self.add_after(&mut line, passage.to, effect, column);
            self.add_before(&mut line, passage.from, column);
            let first = self.multipliers_at(number);
            self.add_rows(&mut line, &passage.rows, first, column);
        }
        let right = match column {
            Column::Constant if number == self.falling => -1,
            _ => 0,
        };
        draft.push(&line, right)
    }

    /// Puts the row that the term is not below 0, in the column, at the end.
    fn push_bound(&self, column: Column, draft: &mut Draft) -> Result<(), AllocError> {
        let mut line = vec![in self.steps.alloc; 0; self.columns()]?;
        if let Some(passage) = self.part.passages.get(self.falling) {
            self.add_before(&mut line, passage.from, column);
            let first = self.multipliers_at(self.part.passages.len());
            self.add_rows(&mut line, &passage.rows, first, column);
        }
        draft.push(&line, 0)
    }

    /// The columns in which the rows of the passage have numbers.
    fn columns_of(&self, passage: &Passage) -> Result<Vec<Column>, AllocError> {
        let mut columns = Vec::new(self.steps.alloc);
        for variable in &self.variables {
            columns.push(Column::At(*variable))?;
        }
        if let Some(effect) = self.steps.effects.get(passage.number) {
            for draw in self.steps.columns..effect.width {
                columns.push(Column::At(draw))?;
            }
        }
        columns.push(Column::Constant)?;
        Ok(columns)
    }

    /// Puts the rows of each passage at the end.
    fn push_steps(&self, draft: &mut Draft) -> Result<(), AllocError> {
        for (number, passage) in self.part.passages.iter().enumerate() {
            for column in self.columns_of(passage)? {
                self.push_step(number, column, draft)?;
            }
        }
        Ok(())
    }

    /// The system; `None` where it is too large.
    pub(crate) fn system(&self) -> Result<Option<System>, AllocError>
        ensures { IfOk result (λ made. IfSome made (λ s. IsWhole (equations s))) }
    {
        let mut draft = Draft {
            entries: Entries::new(self.steps.alloc),
            right: Vec::new(self.steps.alloc),
        };
        self.push_steps(&mut draft)?;
        if let Some(passage) = self.part.passages.get(self.falling) {
            for column in self.columns_of(passage)? {
                self.push_bound(column, &mut draft)?;
            }
        }
        Ok(whole_system(self.columns(), draft))
    }
}

/// The system of these rows; `None` where there are more entries than are put in.
fn whole_system(columns: usize, draft: Draft) -> Option<System>
    ensures { IfSome result (λ s. IsWhole (equations s)) }
{
    let rows = draft.right.len();
    if columns >= 1 << 31 || rows >= 1 << 31 {
        return None;
    }
    let size = rows * columns;
    if draft.entries.len() != size || size > SYSTEM_ENTRIES {
        return None;
    }
    Some(System {
        rows: rows as u32,
        columns: columns as u32,
        entries: draft.entries,
        right: draft.right,
    })
}
