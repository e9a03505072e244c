// Rows that hold again each time a closed walk is gone through.

ghost use Rattle.std.specs.Prelude.{◌≡◌, ◌≤◌, All, IfOk, IfSome, length};

use crate::cycles::way::Way;
use crate::limits::{ADDED_ROWS, TRIES};
use crate::rows::combining::{all_put_in, less, push_all_tight, push_tight, put_in, unit_rows};
use crate::rows::solving::{Effort, may_have_point, shown};
use std::alloc::{AllocError, Global};
use tv_linear::{Row, copies, push_copies};

/// The rows at a place of a walk: the guards of what follows and the rows at its end, each read there.
pub(crate) fn rows_before(
    alloc: Global,
    columns: usize,
    way: &Way,
    rows: &[Row],
) -> Result<Option<Vec<Row>>, AllocError>
    ensures { IfOk result (λ made. IfSome made (λ all. length rows.now ≤ length all.items)) }
{
    let Some(mut before) = all_put_in(alloc, columns, rows, &way.terms)? else {
        return Ok(None);
    };
    let mut all = copies(alloc, &way.guards)?;
    push_copies(alloc, &way.conditions, &mut all)?;
    all.append(&mut before)?;
    Ok(Some(all))
}

/// The guards of the walk and the rows at its end, read at its beginning.
pub fn rows_of_walk(
    alloc: Global,
    columns: usize,
    ways: &[Way],
    walk: &[usize],
    end: &[Row],
) -> Result<Option<Vec<Row>>, AllocError>
    ensures { IfOk result (λ made. IfSome made (λ all. length end.now ≤ length all.items)) }
{
    let mut rows = copies(alloc, end)?;
    for place in walk.iter().rev() {
        let Some(way) = ways.get(*place) else {
            return Ok(None);
        };
        match rows_before(alloc, columns, way, &rows)? {
            None => return Ok(None),
            Some(before) => rows = before,
        }
    }
    Ok(Some(rows))
}

/// The terms of the variables after the walk, over those before it.
pub fn terms_of_walk(
    alloc: Global,
    columns: usize,
    ways: &[Way],
    walk: &[usize],
) -> Result<Option<Vec<Row>>, AllocError>
    ensures counted { IfOk result (λ made. IfSome made (λ terms. length terms.items ≡ columns)) }
    ensures even { IfOk result (λ made. IfSome made (λ terms. All (λ row. length row.coefficients ≡ columns) terms.items)) }
{
    let Some(mut terms) = unit_rows(alloc, columns)? else {
        return Ok(None);
    };
    for place in walk.iter().rev() {
        let Some(way) = ways.get(*place) else {
            return Ok(None);
        };
        match all_put_in(alloc, columns, &terms, &way.terms)? {
            None => return Ok(None),
            Some(before) => terms = before,
        }
    }
    Ok(Some(terms))
}

/// A walk that is to be closed.
#[derive(Drop)]
struct Closing<'a> {
    columns: usize,
    /// The terms of the variables after the walk.
    terms: &'a [Row],
}

/// The first of the rows that is not shown to hold again after the walk, and what it is after it; `None` in its place where all do.
fn first_lost(
    alloc: Global,
    closing: &Closing,
    rows: &[Row],
    effort: &mut Effort,
) -> Result<Option<Lost>, AllocError>
    ensures fewer { effort.new.left ≤ effort.old.left }
{
    for (place, row) in rows.iter().enumerate() {
        let Some(after) = put_in(alloc, closing.columns, row, closing.terms)? else {
            return Ok(Some(Lost::Wide));
        };
        if shown(alloc, rows, &after, closing.columns, effort)?.is_none() {
            return Ok(Some(Lost::Row { place, after }));
        }
    }
    Ok(None)
}

/// Why rows do not hold again after a walk.
#[derive(Drop)]
enum Lost {
    /// The row at this place is not shown; what it is after the walk.
    Row { place: usize, after: Row },
    /// A row is too wide after the walk.
    Wide,
}

/// The rows and one more; `None` where no point meets them all.
fn with_row(
    alloc: Global,
    closing: &Closing,
    rows: &[Row],
    row: &Row,
    effort: &mut Effort,
) -> Result<Option<Vec<Row>>, AllocError>
    ensures fewer { effort.new.left ≤ effort.old.left }
{
    let mut more = copies(alloc, rows)?;
    if !push_tight(alloc, row, &mut more)? || more.len() == rows.len() {
        return Ok(None);
    }
    if may_have_point(alloc, &more, closing.columns, effort)? {
        Ok(Some(more))
    } else {
        Ok(None)
    }
}

/// Rows with these among them that hold again after the walk, within `tries` tries; `None` where none were found.
fn closed_rows(
    alloc: Global,
    closing: &Closing,
    rows: Vec<Row>,
    added: u32,
    tries: &mut usize,
    effort: &mut Effort,
) -> Result<Option<Vec<Row>>, AllocError>
    ensures fewer { effort.new.left ≤ effort.old.left }
{
    if *tries == 0 {
        return Ok(None);
    }
    *tries -= 1;
    let (place, after) = match first_lost(alloc, closing, &rows, effort)? {
        None => return Ok(Some(rows)),
        Some(Lost::Wide) => return Ok(None),
        Some(Lost::Row { place, after }) => (place, after),
    };
    if added == 0 {
        return Ok(None);
    }
    if let Some(row) = rows.get(place)
        && let Some(change) = less(alloc, closing.columns, &after, row)?
        && let Some(more) = with_row(alloc, closing, &rows, &change, effort)?
        && let Some(found) = closed_rows(alloc, closing, more, added - 1, tries, effort)?
    {
        return Ok(Some(found));
    }
    match with_row(alloc, closing, &rows, &after, effort)? {
        None => Ok(None),
        Some(more) => closed_rows(alloc, closing, more, added - 1, tries, effort),
    }
}

/// The guards of the walk, read at its beginning and tightened; `None` where no point meets them.
fn rows_at_first(
    alloc: Global,
    columns: usize,
    ways: &[Way],
    walk: &[usize],
    effort: &mut Effort,
) -> Result<Option<Vec<Row>>, AllocError>
    ensures fewer { effort.new.left ≤ effort.old.left }
{
    let Some(guards) = rows_of_walk(alloc, columns, ways, walk, &[])? else {
        return Ok(None);
    };
    let mut rows = Vec::new(alloc);
    if push_all_tight(alloc, &guards, &mut rows)?
        && may_have_point(alloc, &rows, columns, effort)?
    {
        Ok(Some(rows))
    } else {
        Ok(None)
    }
}

/// Rows where the walk can be gone through again and again; `None` where none were found.
pub fn closed(
    alloc: Global,
    columns: usize,
    ways: &[Way],
    walk: &[usize],
    effort: &mut Effort,
) -> Result<Option<Vec<Row>>, AllocError>
    ensures fewer { effort.new.left ≤ effort.old.left }
{
    let Some(terms) = terms_of_walk(alloc, columns, ways, walk)? else {
        return Ok(None);
    };
    let Some(rows) = rows_at_first(alloc, columns, ways, walk, effort)? else {
        return Ok(None);
    };
    let closing = Closing {
        columns,
        terms: &terms,
    };
    let mut tries = TRIES;
    closed_rows(alloc, &closing, rows, ADDED_ROWS, &mut tries, effort)
}
