// What the solver says, within what is left of an effort.

ghost use Rattle.std.specs.Prelude.{◌≡◌, ◌≤◌, ◌<◌, ◌-◌, ◌↔◌, ◌++◌, ◌∷◌, [], IfOk, IfSome, IsTrue, length};
ghost use Rattle.tv_linear.specs.Arithmetic.{denial};
ghost use Rattle.tv_linear.specs.Known.{as_given};
ghost use Rattle.tv_linear.specs.Refutation.{Refutes};
ghost use Rattle.tv_farkas.specs.Refuting.{IsRefuted};
ghost use Rattle.tv_farkas.specs.Paths.{IsWholePoint};

use crate::budget::{Budget as SearchBudget, Spent};
use crate::limits::{PIVOTS, SPLITS};
use crate::rows::drawing::coefficient_at;
use crate::rows::values::bounded;
use std::alloc::{AllocError, Global};
use tv_cases::is_number;
use tv_cover::{Emptied, empty};
use tv_farkas::{Budget, CoverFault, Refuted, refute};
use tv_linear::{Row, RowFault, copies, have_columns, is_narrow};
use tv_simplex::SolveFault;

/// What is left of a budget, and what was made of it.
#[derive(Drop)]
pub struct Effort {
    /// How many calls of the solver are left.
    pub left: usize,
    /// How many states there are in the graphs that were made.
    pub states: usize,
}

impl Effort {
    /// An effort of `calls` calls of the solver.
    pub fn of(calls: usize) -> Effort
        ensures { result ≡ record { left = calls; states = 0 } }
    {
        Effort {
            left: calls,
            states: 0,
        }
    }

    /// Takes one of the calls that are left; whether there was one.
    pub fn spend(&mut self) -> bool
        ensures was { IsTrue result ↔ 0 < self.old.left }
        ensures takes { self.new ≡ record self.old { left = self.old.left - 1 } }
    {
        if self.left == 0 {
            return false;
        }
        self.left -= 1;
        true
    }

    /// Counts the states of a graph.
    pub(crate) fn count_states(&mut self, count: usize) {
        self.states = self.states.saturating_add(count);
    }

    /// What was spent of the budget.
    pub fn spent(&self, budget: &SearchBudget) -> Spent
        ensures { result ≡ record { states = self.now.states; calls = budget.now.calls - self.now.left } }
    {
        Spent {
            states: self.states,
            calls: budget.calls.saturating_sub(self.left),
        }
    }
}

/// Whether the variable of the column has no two signs in the rows.
fn has_one_sign(rows: &[&Row], column: usize) -> bool {
    let grows = rows.iter().any(|row| coefficient_at(row, column) > 0);
    let falls = rows.iter().any(|row| coefficient_at(row, column) < 0);
    !(grows && falls)
}

/// The rows in which the variable of the column has no part.
fn without_variable<'a>(
    alloc: Global,
    rows: &[&'a Row],
    column: usize,
) -> Result<Vec<&'a Row>, AllocError> {
    let mut left = Vec::new(alloc);
    for row in rows {
        if coefficient_at(row, column) == 0 {
            left.push(*row)?;
        }
    }
    Ok(left)
}

/// The rows without those that a variable can meet by itself, since it has one sign in all of them. Each of `columns` columns is looked at.
fn without_free<'a>(
    alloc: Global,
    rows: Vec<&'a Row>,
    columns: usize,
) -> Result<Vec<&'a Row>, AllocError> {
    let mut left = rows;
    for column in 0..columns {
        if has_one_sign(&left, column) {
            left = without_variable(alloc, &left, column)?;
        }
    }
    Ok(left)
}

/// Whether some point meets the rows, which is found without the solver: again and again those are left out that a variable meets by itself.
fn are_met_somewhere(alloc: Global, rows: &[Row], columns: usize) -> Result<bool, AllocError> {
    let mut left = Vec::new(alloc);
    for row in rows {
        left.push(row)?;
    }
    for _ in 0..rows.len() {
        let before = left.len();
        left = without_free(alloc, left, columns)?;
        if left.len() == before {
            break;
        }
    }
    Ok(left.iter().all(|row| is_number(row) && row.constant() <= 0))
}

/// What the solver says of rows with `columns` columns; `None` where it does not settle them, or is not asked since some point meets them.
fn refuted(
    alloc: Global,
    rows: &[Row],
    columns: usize,
    effort: &mut Effort,
) -> Result<Option<Refuted>, AllocError>
    ensures answers { IfOk result (λ answer. IfSome answer (IsRefuted columns rows.now)) }
    ensures fewer { effort.new.left ≤ effort.old.left }
{
    if are_met_somewhere(alloc, rows, columns)? || columns >= 1 << 31 || !effort.spend() {
        return Ok(None);
    }
    let columns = columns as u32;
    if !have_columns(rows, columns) {
        return Ok(None);
    }
    match refute(alloc, rows, columns, PIVOTS) {
        Ok(answer) => Ok(Some(answer)),
        Err(SolveFault::Memory) => Err(AllocError),
        Err(_) => Ok(None),
    }
}

/// The numbers in half the bits; `None` where one is not narrow.
fn halved(alloc: Global, numbers: &[i128]) -> Result<Option<Vec<i64>>, AllocError>
    ensures { IfOk result (λ half. IfSome half (λ list. list.items ≡ numbers.now)) }
{
    let mut half = Vec::new(alloc);
    for number in numbers {
        if !is_narrow(*number) {
            return Ok(None);
        }
        match i64::try_from(*number) {
            Err(_) => return Ok(None),
            Ok(number) => half.push(number)?,
        }
    }
    Ok(Some(half))
}

/// The denial of a row; `None` where it is not narrow.
pub fn denied(alloc: Global, row: &Row) -> Result<Option<Row>, AllocError>
    ensures { IfOk result (λ made. IfSome made (λ denied. denied ≡ denial row.now)) }
{
    match row.deny(alloc) {
        Ok(denial) => Ok(Some(denial)),
        Err(RowFault::Wide { .. }) => Ok(None),
        Err(RowFault::Memory) => Err(AllocError),
    }
}

/// The multipliers that show the row where the known rows are met, the denial's last; `None` where none were found.
pub fn shown(
    alloc: Global,
    known: &[Row],
    row: &Row,
    columns: usize,
    effort: &mut Effort,
) -> Result<Option<Vec<i64>>, AllocError>
    ensures refuting { IfOk result (λ found. IfSome found (λ line. Refutes columns (as_given (known.now ++ denial row.now ∷ [])) line.items)) }
    ensures fewer { effort.new.left ≤ effort.old.left }
{
    let Some(denial) = denied(alloc, row)? else {
        return Ok(None);
    };
    let mut rows = copies(alloc, known)?;
    rows.push(denial)?;
    match refuted(alloc, &rows, columns, effort)? {
        Some(Refuted::Empty { multipliers }) => halved(alloc, &multipliers),
        _ => Ok(None),
    }
}

/// The place of a row that alone shows the row, since it is no less at each point.
fn place_showing(known: &[Row], row: &Row) -> Option<usize> {
    known.iter().position(|other| {
        other.coefficients() == row.coefficients() && other.constant() >= row.constant()
    })
}

/// The multipliers of `rows` rows and a denial, which are 1 at the place and at the denial, and 0 else.
fn pair_of(alloc: Global, rows: usize, place: usize) -> Result<Vec<i64>, AllocError> {
    let mut line = vec![in alloc; 0; rows]?;
    if let Some(number) = line.get_mut(place) {
        *number = 1;
    }
    line.push(1)?;
    Ok(line)
}

/// The same as `shown`, without a call of the solver where one row, or none, shows the row by itself.
pub(crate) fn shown_by(
    alloc: Global,
    known: &[Row],
    row: &Row,
    columns: usize,
    effort: &mut Effort,
) -> Result<Option<Vec<i64>>, AllocError>
    ensures fewer { effort.new.left ≤ effort.old.left }
{
    if is_number(row) && row.constant() <= 0 {
        return Ok(Some(pair_of(alloc, known.len(), known.len())?));
    }
    match place_showing(known, row) {
        Some(place) => Ok(Some(pair_of(alloc, known.len(), place)?)),
        None => shown(alloc, known, row, columns, effort),
    }
}

/// The same of each of the rows; `None` where the multipliers of one were not found.
pub fn all_shown_by(
    alloc: Global,
    known: &[Row],
    rows: &[Row],
    columns: usize,
    effort: &mut Effort,
) -> Result<Option<Vec<Vec<i64>>>, AllocError>
    ensures counted { IfOk result (λ found. IfSome found (λ lines. length lines.items ≡ length rows.now)) }
    ensures fewer { effort.new.left ≤ effort.old.left }
{
    let mut lines = Vec::new(alloc);
    for row in rows {
        match shown_by(alloc, known, row, columns, effort)? {
            None => return Ok(None),
            Some(line) => lines.push(line)?,
        }
    }
    Ok(Some(lines))
}

/// Whether the known rows, which some point meets, show the row.
pub fn is_known(
    alloc: Global,
    known: &[Row],
    row: &Row,
    columns: usize,
    effort: &mut Effort,
) -> Result<bool, AllocError>
    ensures fewer { effort.new.left ≤ effort.old.left }
{
    if is_number(row) {
        return Ok(row.constant() <= 0);
    }
    Ok(shown_by(alloc, known, row, columns, effort)?.is_some())
}

/// The same by one call of the solver.
pub(crate) fn shown_once(
    alloc: Global,
    known: &[Row],
    row: &Row,
    columns: usize,
) -> Result<Option<Vec<i64>>, AllocError> {
    let mut effort = Effort::of(1);
    shown(alloc, known, row, columns, &mut effort)
}

/// Whether no point meets both rows, since one is the opposite of the other but for its constant.
fn are_opposed(first: &Row, second: &Row) -> bool {
    let is_opposite = first.coefficients().iter().zip(second.coefficients()).all(|(
        left,
        right,
    )| i128::from(*left) + i128::from(*right) == 0);
    match first.constant().checked_add(second.constant()) {
        Some(constant) => is_opposite && constant > 0,
        None => false,
    }
}

/// Whether one of the rows alone excludes this one.
fn is_excluded(rows: &[Row], row: &Row) -> bool {
    rows.iter().any(|other| are_opposed(other, row))
}

/// Whether the rows may have a point.
pub fn may_have_point(
    alloc: Global,
    rows: &[Row],
    columns: usize,
    effort: &mut Effort,
) -> Result<bool, AllocError>
    ensures fewer { effort.new.left ≤ effort.old.left }
{
    if rows.iter().any(|row| is_excluded(rows, row)) {
        return Ok(false);
    }
    match refuted(alloc, rows, columns, effort)? {
        Some(Refuted::Empty { .. }) => Ok(false),
        _ => Ok(true),
    }
}

/// The numbers, where none is too large for a graph.
fn all_bounded(alloc: Global, numbers: &[i128]) -> Result<Option<Vec<i64>>, AllocError>
    ensures { IfOk result (λ found. IfSome found (λ values. values.items ≡ numbers.now)) }
{
    let mut values = Vec::new(alloc);
    for number in numbers {
        match bounded(*number) {
            None => return Ok(None),
            Some(value) => values.push(value)?,
        }
    }
    Ok(Some(values))
}

/// Integers that meet the rows; `None` where none were found that are not too large.
pub fn whole_point(
    alloc: Global,
    rows: &[Row],
    columns: usize,
    effort: &mut Effort,
) -> Result<Option<Vec<i64>>, AllocError>
    ensures met { IfOk result (λ found. IfSome found (λ point. IsWholePoint columns rows.now point.items)) }
    ensures fewer { effort.new.left ≤ effort.old.left }
{
    if columns >= 1 << 31 || !effort.spend() {
        return Ok(None);
    }
    let columns = columns as u32;
    if !have_columns(rows, columns) {
        return Ok(None);
    }
    let budget = Budget {
        pivots: PIVOTS,
        splits: SPLITS,
        disjuncts: 0,
    };
    match empty(alloc, rows, columns, &budget) {
        Ok(Emptied::Whole(point)) => all_bounded(alloc, &point),
        Ok(Emptied::Tree(_)) => Ok(None),
        Err(CoverFault::Memory) => Err(AllocError),
        Err(_) => Ok(None),
    }
}
