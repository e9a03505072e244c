// The refutation system of rows.

ghost use Rattle.std.specs.Prelude.{◌≡◌, ◌+◌, ◌-◌, ◌*◌, ◌^◌, ◌<◌, ◌≤◌, ◌++◌, ◌∷◌, [], length, map, pos, IfOk, IsTrue, ◌↔◌};
ghost use Rattle.tv_linear.specs.Linear.{entry};
ghost use Rattle.tv_linear.specs.Arithmetic.{zeros};
ghost use Rattle.tv_simplex.specs.Systems.{IsWhole};
ghost use Rattle.tv_simplex.specs.Views.{equations};
ghost use Rattle.tv_farkas.specs.RefutationSystem.{numbers_below, refutation_system, IsLarge};

use std::alloc::{AllocError, Global};
use tv_linear::{Row, push_item};
use tv_simplex::{Entries, System};

/// The number of a row in a column. The last column is the constant's.
fn number_at(row: &Row, column: usize) -> i128
    ensures { result ≡ entry row.now column }
{
    if column < row.columns() as usize {
        row.coefficient(column as u32)
    } else {
        row.constant()
    }
}

/// Puts the numbers of the rows in a column at the end of the list.
fn push_column(numbers: &mut Entries, rows: &[Row], column: usize) -> Result<(), AllocError>
    requires { length numbers.old + length rows.now ≤ 4000000 }
    ensures { IfOk result (λ _. numbers.new ≡ numbers.old ++ map (λ r. entry r column) rows.now) }
{
    'rows: for row in rows {
        numbers.push(number_at(row, column))?;
    }
    Ok(())
}

/// The numbers of the rows, column by column, the constants last.
fn numbers_of(alloc: Global, rows: &[Row], columns: u32) -> Result<Entries, AllocError>
    requires { (columns + 1) * length rows.now ≤ 4000000 }
    ensures { IfOk result (λ numbers. numbers ≡ numbers_below (columns + 1) rows.now) }
{
    let mut numbers = Entries::new(alloc);
    'columns: for column in 0..columns as usize + 1 {
        push_column(&mut numbers, rows, column)?;
    }
    Ok(numbers)
}

/// The right sides: 0 in each column, and 1 for the constants.
fn right_of(alloc: Global, columns: u32) -> Result<Vec<i128>, AllocError>
    ensures { IfOk result (λ right. right.items ≡ zeros columns ++ pos 1 ∷ []) }
{
    let mut right = vec![in alloc; 0i128; columns as usize]?;
    push_item(&mut right, 1)?;
    Ok(right)
}

/// Whether the refutation system has more than 4,000,000 entries.
pub fn is_large(rows: &[Row], columns: u32) -> bool
    ensures { IsTrue result ↔ IsLarge columns rows.now }
{
    (columns as u128 + 1) * rows.len() as u128 > 4000000
}

/// The system whose solutions refute the rows.
pub fn refutation_of(alloc: Global, rows: &[Row], columns: u32) -> Result<System, AllocError>
    requires bounded { columns < 2 ^ 32 - 1 }
    requires size { (columns + 1) * length rows.now ≤ 4000000 }
    ensures same { IfOk result (λ s. equations s ≡ refutation_system columns rows.now) }
    ensures whole { IfOk result (λ s. IsWhole (equations s)) }
{
    let entries = numbers_of(alloc, rows, columns)?;
    let right = right_of(alloc, columns)?;
    Ok(System {
        rows: columns + 1,
        columns: rows.len() as u32,
        entries,
        right,
    })
}
