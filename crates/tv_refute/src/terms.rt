ghost use Rattle.std.specs.Prelude.{◌≡◌, ◌+◌, ◌<◌, length, get_or, MatchOption};
ghost use Rattle.tv_linear.specs.Known.{kept, put};
ghost use Rattle.tv_linear.specs.Terms.{update_of, draw_terms};
ghost use Rattle.tv_refute.specs.Terms.{terms_of};

use tv_linear::{Row, Update};

/// What the columns of a row are replaced by.
#[derive(Drop)]
pub enum Terms<'a> {
    /// Each variable by its term after the updates, and by itself where none gives it one.
    After { columns: u32, updates: &'a [Update] },
    /// Each variable by itself, and each draw by its term.
    Drawn { columns: u32, draws: &'a [Row] },
}

/// The row that the updates put for a variable; `None` where it is kept.
fn updated(updates: &[Update], v: usize) -> Option<&Row>
    ensures { MatchOption result (update_of updates.now v ≡ kept v) (λ row. update_of updates.now v ≡ put row.now) }
{
    for update in updates {
        if update.variable as usize == v {
            return Some(&update.term);
        }
    }
    None
}

/// How many variables and draws there are.
fn joined(columns: u32, draws: &[Row]) -> usize
    ensures { result ≡ columns + length draws.now }
{
    columns as usize + draws.len()
}

/// The term for a draw; `None` for a variable.
fn drawn(columns: u32, draws: &[Row], v: usize) -> Option<&Row>
    requires { v < columns + length draws.now }
    ensures { let term = get_or (draw_terms columns draws.now) v (kept 0) in
        MatchOption result (term ≡ kept v) (λ row. term ≡ put row.now) }
{
    let first = columns as usize;
    if v < first {
        None
    } else {
        Some(&draws[v - first])
    }
}

/// How many terms there are.
pub(crate) fn term_count(terms: &Terms) -> usize
    ensures { result ≡ length (terms_of terms.now) }
{
    match terms {
        Terms::After { columns, .. } => *columns as usize,
        Terms::Drawn { columns, draws } => joined(*columns, draws),
    }
}

/// The row that is put; `None` where the term is the variable itself.
pub(crate) fn row_put<'a>(terms: &Terms<'a>, v: usize) -> Option<&'a Row>
    requires { v < length (terms_of terms.now) }
    ensures { let term = get_or (terms_of terms.now) v (kept 0) in
        MatchOption result (term ≡ kept v) (λ row. term ≡ put row.now) }
{
    match terms {
        Terms::After { updates, .. } => updated(updates, v),
        Terms::Drawn { columns, draws } => drawn(*columns, draws, v),
    }
}
