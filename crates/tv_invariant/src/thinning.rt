// Covers of some of the rows.

ghost use Rattle.std.specs.Prelude.{◌≡◌, ◌↔◌, IfOk, IsTrue, get_or, map, true};
ghost use Rattle.tv_invariant.specs.Thinning.{AreMarks, IsMultiplied, IsThinned, SomeIsMultiplied, Uses, picked};

use std::alloc::{AllocError, Global};
use tv_linear::{CoverTree, Row, push_item};

/// Whether the list has a number other than 0 at the place.
fn is_multiplied(multipliers: &[i64], place: usize) -> bool
    ensures { IsTrue result ↔ IsMultiplied multipliers.now place }
{
    place < multipliers.len() && multipliers[place] != 0
}

/// Whether some of the lists has.
fn some_is_multiplied(lists: &[Vec<i64>], place: usize) -> bool
    ensures { IsTrue result ↔ SomeIsMultiplied (map (λ l. l.items) lists.now) place }
{
    match lists {
        [] => false,
        [first, rest @ ..] => is_multiplied(first, place) || some_is_multiplied(rest, place),
    }
}

/// Whether the tree multiplies the row at the place somewhere.
fn uses(tree: &CoverTree, place: usize) -> bool
    ensures { IsTrue result ↔ Uses tree.now place }
{
    match tree {
        CoverTree::Split(_, holds, fails) => uses(holds, place) || uses(fails, place),
        CoverTree::Empty(multipliers) => is_multiplied(multipliers, place),
        CoverTree::Into { refutations, .. } => some_is_multiplied(refutations, place),
    }
}

/// Which of `count` rows the tree uses: those that have a multiplier other than 0 somewhere in it.
pub fn marks_of(alloc: Global, tree: &CoverTree, count: usize) -> Result<Vec<bool>, AllocError>
    ensures { IfOk result (λ v. AreMarks tree.now count v.items) }
{
    let mut marks = Vec::with_capacity(alloc, count)?;
    'places: for place in 0..count {
        marks.push(uses(tree, place))?;
    }
    Ok(marks)
}

/// Whether the item at a place is marked, or after the marks.
fn is_picked(marks: &[bool], place: usize) -> bool
    ensures { result ≡ get_or marks.now place true }
{
    place >= marks.len() || marks[place]
}

/// The marked rows.
pub fn marked(alloc: Global, rows: &[Row], marks: &[bool]) -> Result<Vec<Row>, AllocError>
    ensures { IfOk result (λ v. v.items ≡ picked marks.now rows.now) }
{
    let mut kept = Vec::new(alloc);
    'rows: for (place, row) in rows.iter().enumerate() {
        if is_picked(marks, place) {
            push_item(&mut kept, row.copy(alloc)?)?;
        }
    }
    Ok(kept)
}

/// The multipliers of the marked rows, and of those after the list.
fn thin(alloc: Global, multipliers: &[i64], marks: &[bool]) -> Result<Vec<i64>, AllocError>
    ensures { IfOk result (λ v. v.items ≡ picked marks.now multipliers.now) }
{
    let mut kept = Vec::new(alloc);
    'rows: for (place, multiplier) in multipliers.iter().enumerate() {
        if is_picked(marks, place) {
            kept.push(*multiplier)?;
        }
    }
    Ok(kept)
}

/// The same of each list.
fn thin_lists(
    alloc: Global,
    lists: &[Vec<i64>],
    marks: &[bool],
) -> Result<Vec<Vec<i64>>, AllocError>
    ensures { IfOk result (λ v. map (λ l. l.items) v.items ≡ map (λ l. picked marks.now l.items) lists.now) }
{
    let mut kept = Vec::new(alloc);
    'lists: for multipliers in lists {
        push_item(&mut kept, thin(alloc, multipliers, marks)?)?;
    }
    Ok(kept)
}

/// The tree over the marked rows alone.
pub fn thinned(alloc: Global, tree: &CoverTree, marks: &[bool]) -> Result<CoverTree, AllocError>
    ensures { IfOk result (λ thin. IsThinned marks.now tree.now thin) }
{
    match tree {
        CoverTree::Split(row, holds, fails) => {
            let row = row.copy(alloc)?;
            let holds = Box::new(alloc, thinned(alloc, holds, marks)?)?;
            let fails = Box::new(alloc, thinned(alloc, fails, marks)?)?;
            Ok(CoverTree::Split(row, holds, fails))
        }
        CoverTree::Empty(multipliers) => Ok(CoverTree::Empty(thin(alloc, multipliers, marks)?)),
        CoverTree::Into {
            target,
            fall,
            refutations,
        } => Ok(CoverTree::Into {
            target: *target,
            fall: *fall,
            refutations: thin_lists(alloc, refutations, marks)?,
        }),
    }
}
