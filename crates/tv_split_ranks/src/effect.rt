use std::alloc::{AllocError, Global};
use tv_cases::{Case, Cases};
use tv_linear::{Row, copies};
use tv_walks::{all_put_in, less, number_row, put_in, term_of, unit_row};

/// A case as a step: what it asks for and what it makes of the variables, over `width` columns, which are the variables and its draws.
#[derive(Drop)]
pub(crate) struct Effect {
    pub from: u32,
    pub to: u32,
    pub width: usize,
    pub guards: Vec<Row>,
    /// The term of each variable after the step.
    pub terms: Vec<Row>,
}

/// The program as steps.
#[derive(Drop)]
pub(crate) struct Steps {
    pub alloc: Global,
    /// How many variables there are.
    pub columns: usize,
    pub locations: u32,
    /// Where runs begin.
    pub start: u32,
    /// Each case, in their order.
    pub effects: Vec<Effect>,
}

/// The term of a variable after the case, over `width` columns; `None` where there are too many.
fn case_term(
    alloc: Global,
    width: usize,
    case: &Case,
    variable: usize,
) -> Result<Option<Row>, AllocError> {
    match term_of(case, variable) {
        Some(term) => Ok(Some(term.copy(alloc)?)),
        None => unit_row(alloc, width, variable),
    }
}

/// The terms of the variables after the case.
fn case_terms(
    alloc: Global,
    columns: usize,
    width: usize,
    case: &Case,
) -> Result<Vec<Row>, AllocError> {
    let mut terms = Vec::new(alloc);
    for variable in 0..columns {
        if let Some(term) = case_term(alloc, width, case, variable)? {
            terms.push(term)?;
        }
    }
    Ok(terms)
}

/// The case as a step.
fn effect_of(alloc: Global, columns: usize, case: &Case) -> Result<Effect, AllocError> {
    let width = columns.saturating_add(case.draws as usize);
    Ok(Effect {
        from: case.from,
        to: case.to,
        width,
        guards: copies(alloc, &case.guards.rows)?,
        terms: case_terms(alloc, columns, width, case)?,
    })
}

impl Steps {
    /// The cases of the program as steps.
    pub(crate) fn of(alloc: Global, about: &Cases) -> Result<Steps, AllocError> {
        let columns = about.variables() as usize;
        let mut effects = Vec::new(alloc);
        for case in about.list() {
            effects.push(effect_of(alloc, columns, case)?)?;
        }
        Ok(Steps {
            alloc,
            columns,
            locations: about.locations(),
            start: about.start(),
            effects,
        })
    }
}

impl Effect {
    /// The row over the variables, read before the step.
    pub(crate) fn before(&self, alloc: Global, row: &Row) -> Result<Option<Row>, AllocError> {
        match number_row(alloc, self.width, 0)? {
            None => Ok(None),
            Some(zero) => less(alloc, self.width, row, &zero),
        }
    }

    /// The row over the variables after the step, read before it.
    pub(crate) fn after(&self, alloc: Global, row: &Row) -> Result<Option<Row>, AllocError> {
        put_in(alloc, self.width, row, &self.terms)
    }

    /// Each of the rows over the variables after the step, read before it.
    pub(crate) fn all_after(
        &self,
        alloc: Global,
        rows: &[Row],
    ) -> Result<Option<Vec<Row>>, AllocError> {
        all_put_in(alloc, self.width, rows, &self.terms)
    }

    /// What a term after the step is more than another one before it; at most 0 where it does not grow.
    pub(crate) fn growth(
        &self,
        alloc: Global,
        before: &Row,
        after: &Row,
    ) -> Result<Option<Row>, AllocError> {
        match self.after(alloc, after)? {
            None => Ok(None),
            Some(new) => less(alloc, self.width, &new, before),
        }
    }

    /// The row that is met where a term falls by at least 1 from before the step to the other one after it.
    pub(crate) fn fall(
        &self,
        alloc: Global,
        before: &Row,
        after: &Row,
    ) -> Result<Option<Row>, AllocError> {
        match self.growth(alloc, before, after)? {
            None => Ok(None),
            Some(more) => raised(alloc, self.width, &more),
        }
    }

    /// The row that is met where a term is not below 0 before the step.
    pub(crate) fn not_below(&self, alloc: Global, term: &Row) -> Result<Option<Row>, AllocError> {
        match self.before(alloc, term)? {
            None => Ok(None),
            Some(row) => Ok(Some(row.opposite(alloc)?)),
        }
    }
}

/// The row plus 1, over `width` columns.
pub(crate) fn raised(alloc: Global, width: usize, row: &Row) -> Result<Option<Row>, AllocError> {
    match number_row(alloc, width, -1)? {
        None => Ok(None),
        Some(less_one) => less(alloc, width, row, &less_one),
    }
}
