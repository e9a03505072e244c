ghost use Rattle.std.specs.Prelude.{◌≡◌, ◌≤◌, All, IfOk, IfSome, MatchOption, length};
ghost use Rattle.tv_linear.specs.Known.{kept, put};
ghost use Rattle.tv_linear.specs.Terms.{update_of};

use crate::graphs::proving::number_row;
use crate::limits::{DRAW_TERMS, MANY_DRAWS, WAYS};
use crate::question::Question;
use crate::rows::combining::{all_put_in, put_in, unit_row, unit_rows};
use crate::rows::conditions::conditions_at;
use crate::rows::drawing::coefficient_at;
use std::alloc::{AllocError, Global};
use tv_cases::{Case, Update};
use tv_cert::Aim;
use tv_linear::{Row, copies, push_copies};

/// A way to take a case: with terms for its draws, so that all rows are over the variables alone.
#[derive(Drop)]
pub struct Way {
    /// The number of the case.
    pub number: u32,
    pub from: u32,
    pub to: u32,
    /// A term for each draw.
    pub draws: Vec<Row>,
    pub guards: Vec<Row>,
    /// What is asked of the values before the case besides.
    pub conditions: Vec<Row>,
    /// The term of each variable after the case.
    pub terms: Vec<Row>,
}

/// The term that the updates give a variable; `None` where it keeps its value.
fn updated(updates: &[Update], variable: usize) -> Option<&Row>
    ensures { let after = update_of updates.now variable in
        MatchOption result (after ≡ kept variable) (λ term. after ≡ put term.now) }
{
    for update in updates {
        if update.variable as usize == variable {
            return Some(&update.term);
        }
    }
    None
}

/// The term that the case gives a variable, over the variables and the draws; `None` where it keeps its value.
pub fn term_of(case: &Case, variable: usize) -> Option<&Row>
    ensures { let after = update_of case.now.updates.items variable in
        MatchOption result (after ≡ kept variable) (λ term. after ≡ put term.now) }
{
    updated(&case.updates, variable)
}

/// The term of a variable after the case, over the variables alone.
fn term_after(
    alloc: Global,
    columns: usize,
    case: &Case,
    variable: usize,
    inputs: &[Row],
) -> Result<Option<Row>, AllocError>
    ensures { IfOk result (λ made. IfSome made (λ row. length row.coefficients ≡ columns)) }
{
    match term_of(case, variable) {
        None => unit_row(alloc, columns, variable),
        Some(term) => put_in(alloc, columns, term, inputs),
    }
}

/// The terms of all variables after the case, over the variables alone.
fn terms_after(
    alloc: Global,
    columns: usize,
    case: &Case,
    inputs: &[Row],
) -> Result<Option<Vec<Row>>, AllocError>
    ensures counted { IfOk result (λ made. IfSome made (λ terms. length terms.items ≡ columns)) }
    ensures even { IfOk result (λ made. IfSome made (λ terms. All (λ row. length row.coefficients ≡ columns) terms.items)) }
{
    let mut terms = Vec::new(alloc);
    for variable in 0..columns {
        match term_after(alloc, columns, case, variable, inputs)? {
            None => return Ok(None),
            Some(term) => terms.push(term)?,
        }
    }
    Ok(Some(terms))
}

/// The variables, and then the terms of draws.
fn inputs_of(alloc: Global, columns: usize, draws: &[Row]) -> Result<Option<Vec<Row>>, AllocError> {
    let Some(mut inputs) = unit_rows(alloc, columns)? else {
        return Ok(None);
    };
    push_copies(alloc, draws, &mut inputs)?;
    Ok(Some(inputs))
}

/// The way to take the case with these terms for its draws; `None` where a row is too wide.
pub fn way_of(
    alloc: Global,
    columns: usize,
    number: u32,
    case: &Case,
    draws: Vec<Row>,
) -> Result<Option<Way>, AllocError>
    ensures from { IfOk result (λ made. IfSome made (λ way. way.from ≡ case.now.from)) }
    ensures to { IfOk result (λ made. IfSome made (λ way. way.to ≡ case.now.to)) }
    ensures number { IfOk result (λ made. IfSome made (λ way. way.number ≡ number)) }
    ensures counted { IfOk result (λ made. IfSome made (λ way. length way.terms.items ≡ columns)) }
    ensures even { IfOk result (λ made. IfSome made (λ way. All (λ row. length row.coefficients ≡ columns) way.terms.items)) }
{
    let Some(inputs) = inputs_of(alloc, columns, &draws)? else {
        return Ok(None);
    };
    match guards_and_terms(alloc, columns, case, &inputs)? {
        None => Ok(None),
        Some((guards, terms)) => Ok(Some(Way {
            number,
            from: case.from,
            to: case.to,
            draws,
            guards,
            conditions: Vec::new(alloc),
            terms,
        })),
    }
}

/// The guards of the case and the terms of the variables after it, over the variables alone; `None` where a row is too wide.
fn guards_and_terms(
    alloc: Global,
    columns: usize,
    case: &Case,
    inputs: &[Row],
) -> Result<Option<(Vec<Row>, Vec<Row>)>, AllocError>
    ensures counted { IfOk result (λ made. IfSome made (λ both. length (both.1).items ≡ columns)) }
    ensures even { IfOk result (λ made. IfSome made (λ both. All (λ row. length row.coefficients ≡ columns) (both.1).items)) }
{
    let Some(guards) = all_put_in(alloc, columns, &case.guards.rows, inputs)? else {
        return Ok(None);
    };
    match terms_after(alloc, columns, case, inputs)? {
        None => Ok(None),
        Some(terms) => Ok(Some((guards, terms))),
    }
}

/// The term of a draw at which the value of the guard is 0, where the draw's coefficient is 1 or -1.
fn edge_term(
    alloc: Global,
    columns: usize,
    guard: &Row,
    draws: &[Row],
) -> Result<Option<Row>, AllocError> {
    let Some(inputs) = inputs_of(alloc, columns, draws)? else {
        return Ok(None);
    };
    let Some(rest) = put_in(alloc, columns, guard, &inputs)? else {
        return Ok(None);
    };
    match coefficient_at(guard, inputs.len()) {
        1 => Ok(Some(rest.opposite(alloc)?)),
        -1 => Ok(Some(rest)),
        _ => Ok(None),
    }
}

/// Puts the terms of the next draw at which a guard is 0 at the end of the list.
fn push_edge_terms(
    alloc: Global,
    columns: usize,
    case: &Case,
    draws: &[Row],
    list: &mut Vec<Row>,
) -> Result<(), AllocError> {
    for guard in &case.guards.rows {
        if let Some(term) = edge_term(alloc, columns, guard, draws)? {
            list.push(term)?;
        }
    }
    Ok(())
}

/// Puts the variables that the next draw replaces at the end of the list.
fn push_replaced_terms(
    alloc: Global,
    columns: usize,
    case: &Case,
    draw: usize,
    list: &mut Vec<Row>,
) -> Result<(), AllocError> {
    for update in &case.updates {
        let is_drawn = coefficient_at(&update.term, draw) != 0;
        if is_drawn && let Some(row) = unit_row(alloc, columns, update.variable as usize)? {
            list.push(row)?;
        }
    }
    Ok(())
}

/// The terms that are tried for the next draw.
fn terms_for(
    alloc: Global,
    columns: usize,
    case: &Case,
    draws: &[Row],
) -> Result<Vec<Row>, AllocError> {
    let mut list = Vec::new(alloc);
    let draw = columns.saturating_add(draws.len());
    push_replaced_terms(alloc, columns, case, draw, &mut list)?;
    push_edge_terms(alloc, columns, case, draws, &mut list)?;
    for number in [0, 1] {
        if let Some(row) = number_row(alloc, columns, number)? {
            list.push(row)?;
        }
    }
    Ok(list)
}

/// The list of terms of this number for the draws of the case.
fn draws_of(
    alloc: Global,
    columns: usize,
    case: &Case,
    number: usize,
) -> Result<Vec<Row>, AllocError> {
    let mut draws = Vec::new(alloc);
    for _ in 0..case.draws {
        let list = terms_for(alloc, columns, case, &draws)?;
        if !list.is_empty()
            && let Some(term) = list.get(number % list.len())
        {
            draws.push(term.copy(alloc)?)?;
        }
    }
    Ok(draws)
}

/// Puts the ways to take the case with these terms for its draws, under each of the conditions, at the end of the list.
fn push_ways(
    question: &Question,
    number: u32,
    case: &Case,
    draws: &[Row],
    kept: Option<&Aim>,
    ways: &mut Vec<Way>,
) -> Result<(), AllocError>
    requires { length ways.old.items ≤ 300 }
    ensures { length ways.new.items ≤ 300 }
{
    let columns = question.about.variables() as usize;
    for rows in conditions_of(question.alloc, kept, case.from)? {
        let own = copies(question.alloc, draws)?;
        if ways.len() < WAYS
            && let Some(mut way) = way_of(question.alloc, columns, number, case, own)?
        {
            way.conditions = rows;
            ways.push(way)?;
        }
    }
    Ok(())
}

/// What is asked of the values at the location, as lists of rows.
fn conditions_of(
    alloc: Global,
    kept: Option<&Aim>,
    location: u32,
) -> Result<Vec<Vec<Row>>, AllocError> {
    match kept {
        Some(aim) => conditions_at(alloc, aim, location),
        None => {
            let mut lists = Vec::new(alloc);
            lists.push(Vec::new(alloc))?;
            Ok(lists)
        }
    }
}

/// How many lists of terms are tried for the draws of the case.
fn tried_terms(case: &Case) -> usize {
    if case.draws == 0 {
        1
    } else if case.draws > MANY_DRAWS {
        0
    } else {
        DRAW_TERMS
    }
}

/// Puts the ways to take the case at the end of the list.
fn push_all_ways(
    question: &Question,
    number: u32,
    case: &Case,
    kept: Option<&Aim>,
    ways: &mut Vec<Way>,
) -> Result<(), AllocError>
    requires { length ways.old.items ≤ 300 }
    ensures { length ways.new.items ≤ 300 }
{
    let columns = question.about.variables() as usize;
    let count = tried_terms(case);
    for list in 0..count {
        let draws = draws_of(question.alloc, columns, case, list)?;
        push_ways(question, number, case, &draws, kept, ways)?;
    }
    Ok(())
}

/// The ways to take the cases of the program, where the formula holds before each.
pub fn ways_under(question: &Question, kept: Option<&Aim>) -> Result<Vec<Way>, AllocError>
    ensures { IfOk result (λ ways. length ways.items ≤ 300) }
{
    let mut ways = Vec::new(question.alloc);
    let mut number: u32 = 0;
    for case in question.about.list() {
        if ways.len() < WAYS {
            push_all_ways(question, number, case, kept, &mut ways)?;
        }
        number = number.saturating_add(1);
    }
    Ok(ways)
}
