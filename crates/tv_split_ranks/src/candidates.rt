// Rows that are tried to split the places of a part where no ranks fall, the likeliest first.

use crate::effect::{Effect, Steps, raised};
use crate::family::Part;
use crate::limits::CANDIDATES;
use crate::strongest::is_same;
use std::alloc::{AllocError, Global};
use tv_cases::is_number;
use tv_linear::{Row, copies};
use tv_walks::{
    coefficient_at, denied, is_without_draws, less, number_row, unit_row, with_multiples,
};

/// The rows that were found so far, each once: a row and its denial split in the same way.
#[derive(Drop)]
struct Candidates<'a> {
    steps: &'a Steps,
    rows: Vec<Row>,
}

impl Candidates<'_> {
    /// Whether the row, or its denial, is among the rows.
    fn has(&self, row: &Row, denial: &Row) -> bool {
        self.rows
            .iter()
            .any(|other| is_same(other, row) || is_same(other, denial))
    }

    /// Puts the row over the variables, tightened, at the end, if it is none of those before, and not the same at all points.
    fn push_row(&mut self, row: &Row) -> Result<(), AllocError> {
        let tight = row.tighten(self.steps.alloc)?;
        if self.rows.len() >= CANDIDATES || is_number(&tight) {
            return Ok(());
        }
        if let Some(denial) = denied(self.steps.alloc, &tight)?
            && !self.has(&tight, &denial)
        {
            self.rows.push(tight)?;
        }
        Ok(())
    }

    /// The same of a row over variables and draws, if it speaks of the variables alone.
    fn push(&mut self, row: &Row) -> Result<(), AllocError> {
        let columns = self.steps.columns;
        if !is_without_draws(row, columns) {
            return Ok(());
        }
        let alloc = self.steps.alloc;
        if let Some(zero) = number_row(alloc, columns, 0)?
            && let Some(over) = less(alloc, columns, row, &zero)?
        {
            self.push_row(&over)?;
        }
        Ok(())
    }

    /// The same of each of the rows.
    fn push_all(&mut self, rows: &[Row]) -> Result<(), AllocError> {
        for row in rows {
            self.push(row)?;
        }
        Ok(())
    }

    /// Puts the rows that are met where the term falls over the step, and where it grows, at the end.
    fn push_changes(&mut self, effect: &Effect, term: &Row) -> Result<(), AllocError> {
        let alloc = self.steps.alloc;
        if effect.width != self.steps.columns {
            return Ok(());
        }
        if let Some(more) = effect.growth(alloc, term, term)? {
            if let Some(falls) = raised(alloc, effect.width, &more)? {
                self.push(&falls)?;
            }
            if let Some(grows) = raised(alloc, effect.width, &more.opposite(alloc)?)? {
                self.push(&grows)?;
            }
        }
        Ok(())
    }

    /// The same of each of the terms.
    fn push_all_changes(&mut self, effect: &Effect, terms: &[Row]) -> Result<(), AllocError> {
        for term in terms {
            self.push_changes(effect, term)?;
        }
        Ok(())
    }

    /// Puts the rows that say whether the variable is below 0, and whether it is above 0, at the end, where the step turns its sign.
    fn push_signs(&mut self, effect: &Effect, variable: usize) -> Result<(), AllocError> {
        let alloc = self.steps.alloc;
        let turns = match effect.terms.get(variable) {
            Some(term) => coefficient_at(term, variable) < 0,
            None => false,
        };
        if turns && let Some(unit) = unit_row(alloc, self.steps.columns, variable)? {
            if let Some(below) = raised(alloc, self.steps.columns, &unit)? {
                self.push(&below)?;
            }
            if let Some(above) = raised(alloc, self.steps.columns, &unit.opposite(alloc)?)? {
                self.push(&above)?;
            }
        }
        Ok(())
    }

    /// The same of each variable.
    fn push_all_signs(&mut self, effect: &Effect) -> Result<(), AllocError> {
        for variable in 0..self.steps.columns {
            self.push_signs(effect, variable)?;
        }
        Ok(())
    }

    /// Puts the rows over the variables after the step, read before it, at the end.
    fn push_all_before(&mut self, effect: &Effect, rows: &[Row]) -> Result<(), AllocError> {
        for row in rows {
            if is_without_draws(row, self.steps.columns)
                && let Some(before) = effect.after(self.steps.alloc, row)?
            {
                self.push(&before)?;
            }
        }
        Ok(())
    }

    /// Puts the sum of two rows at the end, where it is a multiple of another row.
    fn push_sum(&mut self, effect: &Effect, first: &Row, second: &Row) -> Result<(), AllocError> {
        let alloc = self.steps.alloc;
        if let Some(sum) = with_multiples(alloc, effect.width, (first, 1), (second, 1))? {
            let tight = sum.tighten(alloc)?;
            if tight.coefficients() != sum.coefficients() {
                self.push(&tight)?;
            }
        }
        Ok(())
    }

    /// The same of a row with each of the rows.
    fn push_sums_with(
        &mut self,
        effect: &Effect,
        first: &Row,
        rows: &[Row],
    ) -> Result<(), AllocError> {
        for second in rows {
            self.push_sum(effect, first, second)?;
        }
        Ok(())
    }

    /// The same of each two of the rows.
    fn push_all_sums(&mut self, effect: &Effect, rows: &[Row]) -> Result<(), AllocError> {
        for (place, first) in rows.iter().enumerate() {
            if let Some((_, behind)) = rows.split_at_checked(place.saturating_add(1)) {
                self.push_sums_with(effect, first, behind)?;
            }
        }
        Ok(())
    }
}

/// The steps of the passages of the part, each once.
fn effects_of<'a>(
    alloc: Global,
    effects: &'a [Effect],
    part: &Part,
) -> Result<Vec<&'a Effect>, AllocError> {
    let mut list = Vec::new(alloc);
    for (number, effect) in effects.iter().enumerate() {
        if part.passages.iter().any(|passage| passage.number == number) {
            list.push(effect)?;
        }
    }
    Ok(list)
}

/// Whether one of the steps changes the variable.
fn is_changed(effects: &[&Effect], variable: usize, unit: &Row) -> bool {
    effects.iter().any(|effect| match effect.terms.get(variable) {
        None => false,
        Some(term) => {
            term.constant() != 0
                || (0..effect.width).any(|column| coefficient_at(term, column)
                    != coefficient_at(unit, column))
        }
    })
}

/// Puts the variables that the steps change at the end of the terms.
fn push_changed(
    steps: &Steps,
    effects: &[&Effect],
    terms: &mut Vec<Row>,
) -> Result<(), AllocError> {
    for variable in 0..steps.columns {
        if let Some(unit) = unit_row(steps.alloc, steps.columns, variable)?
            && is_changed(effects, variable, &unit)
        {
            terms.push(unit)?;
        }
    }
    Ok(())
}

/// The terms whose changes are looked at: the opposites of the guards, and the variables that the steps change.
fn terms_of(steps: &Steps, effects: &[&Effect], guards: &[Row]) -> Result<Vec<Row>, AllocError> {
    let mut terms = Vec::new(steps.alloc);
    for guard in guards {
        terms.push(guard.opposite(steps.alloc)?)?;
    }
    push_changed(steps, effects, &mut terms)?;
    Ok(terms)
}

/// The rows by which the places of the part may be split.
pub(crate) fn candidates_of(steps: &Steps, part: &Part) -> Result<Vec<Row>, AllocError> {
    let alloc = steps.alloc;
    let effects = effects_of(alloc, &steps.effects, part)?;
    let mut candidates = Candidates {
        steps,
        rows: Vec::new(alloc),
    };
    for effect in &effects {
        candidates.push_all(&effect.guards)?;
    }
    let guards = copies(alloc, &candidates.rows)?;
    let terms = terms_of(steps, &effects, &guards)?;
    for effect in &effects {
        candidates.push_all_changes(effect, &terms)?;
    }
    for effect in &effects {
        candidates.push_all_signs(effect)?;
    }
    for effect in &effects {
        candidates.push_all_before(effect, &guards)?;
    }
    for effect in &effects {
        candidates.push_all_sums(effect, &effect.guards)?;
    }
    Ok(candidates.rows)
}
