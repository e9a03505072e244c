// Covers that split at one row after the other.

ghost use Rattle.std.specs.Prelude.{◌≡◌, ◌+◌, ◌^◌, ◌<◌, ◌≤◌, All, get_or, length, map, IfOk};
ghost use Rattle.tv_linear.specs.Linear.{IsNarrow};
ghost use Rattle.tv_rank.specs.Given.{lists};
ghost use Rattle.tv_nested.specs.Lines.{one_before, own_line, own_lines};
ghost use Rattle.tv_nested.specs.Splitting.{IsEntry, IsSplitFrom, IsSplitTree};

use std::alloc::{AllocError, Global};
use tv_farkas::split_of;
use tv_lexrank::{Fall, append_spread};
use tv_linear::{CoverTree, Row, copy_row, push_item};

/// Before the line multipliers of `many` rows: 1 for the one at the place, and 0 for the others.
pub fn one_before(
    alloc: Global,
    many: usize,
    place: usize,
    line: &[i64],
) -> Result<Vec<i64>, AllocError>
    requires { place < many }
    ensures { IfOk result (λ v. v.items ≡ one_before many place line.now) }
{
    let mut all = vec![in alloc; 0i64; place]?;
    push_item(&mut all, 1)?;
    let mut rest = vec![in alloc; 0i64; many - place - 1]?;
    all.append(&mut rest)?;
    all.extend_from_slice(line)?;
    Ok(all)
}

/// Beside `count` rows, 1 for the row at the place and 1 for its denial.
pub fn own_line(alloc: Global, count: usize, place: usize) -> Result<Vec<i64>, AllocError>
    requires { place < count }
    ensures { IfOk result (λ v. v.items ≡ own_line count place) }
{
    one_before(alloc, count, place, &[1])
}

/// Such a line for each of the last `above` rows, after `before` others.
fn own_lines(alloc: Global, before: usize, above: usize) -> Result<Vec<Vec<i64>>, AllocError>
    requires { before + above < 2 ^ 64 }
    ensures { IfOk result (λ v. lists v.items ≡ own_lines (before + above) before above) }
{
    let mut lines = Vec::new(alloc);
    'rows: for place in 0..above {
        push_item(&mut lines, own_line(alloc, before + above, before + place)?)?;
    }
    Ok(lines)
}

/// What leads into a target by a fall, beside `before` known rows and `above` of the splits.
fn entry(
    alloc: Global,
    target: u32,
    before: usize,
    above: usize,
    fall: &Fall,
) -> Result<CoverTree, AllocError>
    requires { before + above < 2 ^ 64 }
    ensures { IfOk result (IsEntry target before above fall.now) }
{
    let mut refutations = own_lines(alloc, before, above)?;
    append_spread(alloc, &mut refutations, &fall.lines, above)?;
    Ok(CoverTree::Into {
        target,
        fall: number_of(fall),
        refutations,
    })
}

fn number_of(fall: &Fall) -> u32
    ensures { result ≡ fall.now.number }
{
    fall.number
}

/// Each number of a row is below 2^62 in magnitude.
fn narrow_rows(rows: &[Row])
    ensures { All IsNarrow rows.now }
{
    'rows: for row in rows {
        row.columns();
    }
}

/// The cover beyond the last split, where all rows are denied.
fn beyond_splits(
    alloc: Global,
    rows: &[Row],
    before: usize,
    fall: &Fall,
) -> Result<CoverTree, AllocError>
    requires few { length rows.now ≤ 4 }
    requires room { before + 4 < 2 ^ 64 }
    ensures { IfOk result (IsSplitFrom rows.now (length rows.now) before fall.now) }
{
    narrow_rows(rows);
    number_of(fall);
    let count = rows.len();
    let tree = entry(alloc, count as u32, before, count, fall)?;
    Ok(tree)
}

/// The cover that splits at the row at a place, and goes on with the rest where that is denied.
fn split_at(
    alloc: Global,
    rows: &[Row],
    place: usize,
    before: usize,
    fall: &Fall,
    rest: CoverTree,
) -> Result<CoverTree, AllocError>
    requires place { place < length rows.now }
    requires few { length rows.now ≤ 4 }
    requires room { before + 4 < 2 ^ 64 }
    requires rest { IsSplitFrom rows.now (place + 1) before fall.now rest }
    ensures { IfOk result (IsSplitFrom rows.now place before fall.now) }
{
    narrow_rows(rows);
    number_of(fall);
    let into = entry(alloc, place as u32, before, place + 1, fall)?;
    let tree = split_of(alloc, copy_row(alloc, &rows[place])?, into, rest)?;
    Ok(tree)
}

/// The cover that splits at the rows, one after the other, beside `before` rows, with the fall into each target.
pub fn split_tree(
    alloc: Global,
    rows: &[Row],
    before: usize,
    fall: &Fall,
) -> Result<CoverTree, AllocError>
    requires few { length rows.now ≤ 4 }
    requires room { before + 4 < 2 ^ 64 }
    ensures { IfOk result (IsSplitTree rows.now before fall.now) }
{
    let mut tree = beyond_splits(alloc, rows, before, fall)?;
    'rows: for turn in 0..rows.len() {
        let place = rows.len() - 1 - turn;
        tree = split_at(alloc, rows, place, before, fall, tree)?;
    }
    Ok(tree)
}
