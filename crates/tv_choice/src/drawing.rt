// Terms for draws.

ghost use Rattle.std.specs.Prelude.{◌≡◌, ◌+◌, ◌-◌, ◌^◌, ◌<◌, ◌++◌, ◌∷◌, [], All, length, map, pos, IfOk, IfSome, IsTrue};
ghost use Rattle.tv_linear.specs.Linear.{columns as width, value};
ghost use Rattle.tv_farkas.specs.Refuting.{AreShort};
ghost use Rattle.tv_choice.specs.ChoicePaths.{GivesAlone, IsTermAt, AreTermsAt};
ghost use Rattle.tv_choice.specs.Targets.{front, term_of, one_term, terms_given, draw_choices};

use std::alloc::{AllocError, Global};
use tv_linear::sums::{Slice, dot_from};
use tv_linear::{Row, held, push_item};

/// The row without its columns from `columns` on.
fn front(alloc: Global, row: &Row, columns: u32) -> Result<Row, AllocError>
    requires { columns < width row.now }
    ensures { IfOk result (λ r. r ≡ front columns row.now) }
{
    let (inner, _) = row.coefficients().split_at(columns as usize);
    let zero = Row::from_narrow(Vec::from_slice(alloc, inner)?, 0);
    zero.with_constant(alloc, row.constant())
}

/// The term that a row with the coefficient 1 or -1 at the one draw gives for it.
fn term_at(alloc: Global, row: &Row, columns: u32) -> Result<Option<Row>, AllocError>
    requires one { width row.now ≡ columns + 1 }
    ensures { IfOk result (λ o. o ≡ term_of columns row.now) }
{
    let coefficient = row.coefficient(columns);
    if coefficient == 1 {
        let rest = front(alloc, row, columns)?;
        return Ok(Some(rest.opposite(alloc)?));
    }
    if coefficient == -1 {
        return Ok(Some(front(alloc, row, columns)?));
    }
    Ok(None)
}

/// A list of one term.
fn listed(alloc: Global, term: Row) -> Result<Vec<Row>, AllocError>
    ensures { IfOk result (λ v. v.items ≡ term ∷ []) }
{
    let mut terms = Vec::new(alloc);
    push_item(&mut terms, term)?;
    Ok(terms)
}

/// Puts a term, if there is one, as a list of its own at the end of the lists.
fn push_term(alloc: Global, lists: &mut Vec<Vec<Row>>, term: Option<Row>) -> Result<(), AllocError>
    ensures { IfOk result (λ _. map (λ l. l.items) lists.new.items ≡ map (λ l. l.items) lists.old.items ++ one_term term) }
{
    match term {
        None => Ok(()),
        Some(term) => push_item(lists, listed(alloc, term)?),
    }
}

/// For each row that gives one the term for the one draw.
fn terms_given(alloc: Global, rows: &[Row], columns: u32) -> Result<Vec<Vec<Row>>, AllocError>
    requires one { All (λ r. width r ≡ columns + 1) rows.now }
    ensures { IfOk result (λ v. map (λ l. l.items) v.items ≡ terms_given columns rows.now) }
{
    let mut lists = Vec::new(alloc);
    'rows: for row in rows {
        push_term(alloc, &mut lists, term_at(alloc, row, columns)?)?;
    }
    Ok(lists)
}

/// The lists of terms for `draws` draws that the rows of a case give: one without terms where there are no draws, one for each row that
/// gives a term where there is one draw, and else none.
pub fn draw_choices(
    alloc: Global,
    draws: u32,
    rows: &[Row],
    columns: u32,
) -> Result<Vec<Vec<Row>>, AllocError>
    requires even { All (λ r. width r ≡ columns + draws) rows.now }
    ensures { IfOk result (λ v. map (λ l. l.items) v.items ≡ draw_choices draws columns rows.now) }
{
    if draws == 1 {
        return terms_given(alloc, rows, columns);
    }
    let mut lists = Vec::new(alloc);
    if draws == 0 {
        push_item(&mut lists, Vec::new(alloc))?;
    }
    Ok(lists)
}

/// Whether the value of a row at the numbers is found to be 0.
fn is_tight(row: &Row, values: &[i128]) -> bool
    requires { length values.now ≡ width row.now }
    ensures { IsTrue result → value row.now values.now ≡ pos 0 }
{
    match dot_from(0, row.coefficients(), &Slice(values)) {
        None => false,
        Some(total) => match held::sum(total, row.constant()) {
            None => false,
            Some(value) => value == 0,
        },
    }
}

/// The term that a row gives for one of `draws` draws, where it has the coefficient 1 or -1 at it and 0 at the others.
fn term_alone(
    alloc: Global,
    row: &Row,
    columns: u32,
    draws: u32,
    draw: u32,
) -> Result<Option<Row>, AllocError>
    requires bounded { draws < 2 ^ 32 - 1 }
    requires inside { draw < draws }
    requires even { width row.now ≡ columns + draws }
    ensures { IfOk result (λ o. IfSome o (GivesAlone columns draws row.now draw)) }
{
    let unit = Row::column(alloc, draws, draw)?;
    let (_, part) = row.coefficients().split_at(columns as usize);
    if part == unit.coefficients() {
        let rest = front(alloc, row, columns)?;
        return Ok(Some(rest.opposite(alloc)?));
    }
    let opposite = unit.opposite(alloc)?;
    if part == opposite.coefficients() {
        return Ok(Some(front(alloc, row, columns)?));
    }
    Ok(None)
}

/// The term for a draw at an integer point: that of the first row whose value there is 0 and that gives one, and else its number there.
fn term_for(
    alloc: Global,
    rows: &[Row],
    columns: u32,
    draws: u32,
    draw: u32,
    values: &[i128],
) -> Result<Row, AllocError>
    requires bounded { columns + draws < 2 ^ 32 - 1 }
    requires inside { draw < draws }
    requires even { All (λ r. width r ≡ columns + draws) rows.now }
    requires size { length values.now ≡ columns + draws }
    requires short { AreShort values.now }
    ensures { IfOk result (IsTermAt columns draws rows.now values.now draw) }
{
    'rows: for row in rows {
        if is_tight(row, values) {
            if let Some(term) = term_alone(alloc, row, columns, draws, draw)? {
                return Ok(term);
            }
        }
    }
    Row::narrow_number(alloc, columns, values[(columns + draw) as usize])
}

/// A term for each of `draws` draws at an integer point.
pub fn terms_at(
    alloc: Global,
    rows: &[Row],
    columns: u32,
    draws: u32,
    values: &[i128],
) -> Result<Vec<Row>, AllocError>
    requires bounded { columns + draws < 2 ^ 32 - 1 }
    requires even { All (λ r. width r ≡ columns + draws) rows.now }
    requires size { length values.now ≡ columns + draws }
    requires short { AreShort values.now }
    ensures { IfOk result (λ v. AreTermsAt columns draws rows.now values.now v.items) }
{
    let mut terms = Vec::new(alloc);
    'draws: for draw in 0..draws {
        push_item(
            &mut terms,
            term_for(alloc, rows, columns, draws, draw, values)?,
        )?;
    }
    Ok(terms)
}
