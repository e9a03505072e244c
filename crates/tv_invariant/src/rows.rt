// Rows that others imply.

ghost use Rattle.std.specs.Prelude.{ℤ, List, All, IfOk, IsTrue};
ghost use Rattle.tv_linear.specs.Linear.{IsMet};
ghost use Rattle.tv_invariant.specs.Rows.{Implies, IsStronger};

use std::alloc::{AllocError, Global};
use tv_linear::{Row, push_item};

/// Whether the first row has the coefficients of the second, and no lesser constant.
pub fn implies(strong: &Row, weak: &Row) -> bool
    ensures { IsTrue result → Implies strong.now weak.now }
{
    strong.constant() >= weak.constant() && strong.coefficients() == weak.coefficients()
}

/// Whether one of the rows implies this one by its coefficients.
pub fn is_implied(rows: &[Row], row: &Row) -> bool
    ensures { IsTrue result → (xs : List ℤ) → All (IsMet xs) rows.now → IsMet xs row.now }
{
    'rows: for other in rows {
        if implies(other, row) {
            return true;
        }
    }
    false
}

/// Whether each of the other rows is implied by one of the rows by its coefficients.
pub fn are_implied(rows: &[Row], others: &[Row]) -> bool
    ensures { IsTrue result → (xs : List ℤ) → All (IsMet xs) rows.now → All (IsMet xs) others.now }
{
    'others: for other in others {
        if !is_implied(rows, other) {
            return false;
        }
    }
    true
}

/// The rows from the last to the first, without those that a later one implies.
fn last_first(alloc: Global, rows: Vec<Row>) -> Result<Vec<Row>, AllocError>
    ensures { IfOk result (λ v. IsStronger rows.items v.items) }
{
    let mut rows = rows;
    let mut kept = Vec::new(alloc);
    'rows: while let Some(row) = rows.pop() {
        if !is_implied(&kept, &row) {
            push_item(&mut kept, row)?;
        }
    }
    Ok(kept)
}

/// The rows without those that others imply by their coefficients.
pub fn strongest(alloc: Global, rows: Vec<Row>) -> Result<Vec<Row>, AllocError>
    ensures { IfOk result (λ v. IsStronger rows.items v.items) }
{
    let reversed = last_first(alloc, rows)?;
    let kept = last_first(alloc, reversed)?;
    Ok(kept)
}
