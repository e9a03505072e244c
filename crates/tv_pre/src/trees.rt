// Covers and choices with the falls of ranks that are numbers.

ghost use Rattle.std.specs.Prelude.{◌≡◌, ◌==◌, ◌+◌, ◌^◌, ◌<◌, map, length, slice_get, IfOk};
ghost use Rattle.std.specs.List.{filter};
ghost use Rattle.tv_linear.specs.Depth.{splits};
ghost use Rattle.tv_linear.specs.ChoiceDepth.{choice_splits};
ghost use Rattle.tv_cases.specs.Systems.{cases_of};
ghost use Rattle.tv_pre.specs.Ranked.{last_line, IsFallingEntry, IsFallingCover, first_past, IsFallingChoice, NeverStops};

use std::alloc::{AllocError, Global};
use tv_cases::Cases;
use tv_linear::{ChoiceTree, CoverTree, Piece, copies_of_lists, push_copies, push_item};

/// Multipliers 0 for `count` rows, and 1 for the denial of the row that is shown.
fn last_line(alloc: Global, count: usize) -> Result<Vec<i64>, AllocError>
    ensures { IfOk result (λ v. v.items ≡ last_line count) }
{
    let mut line = vec![in alloc; 0i64; count]?;
    push_item(&mut line, 1)?;
    Ok(line)
}

/// How a target is entered.
#[derive(Drop)]
struct Entry {
    fall: u32,
    lists: Vec<Vec<i64>>,
}

/// How the target is entered: from number `first` on by fall 1.
fn entry_of(
    alloc: Global,
    target: u32,
    fall: u32,
    lists: &[Vec<i64>],
    first: usize,
    count: usize,
) -> Result<Entry, AllocError>
    ensures { let old = map (λ l. l.items) lists.now in
        IfOk result (λ e. IsFallingEntry first count target fall target e.fall old (map (λ l. l.items) e.lists.items)) }
{
    let mut lists = copies_of_lists(alloc, lists)?;
    if (target as usize) < first {
        return Ok(Entry { fall, lists });
    }
    push_item(&mut lists, last_line(alloc, count)?)?;
    push_item(&mut lists, last_line(alloc, count)?)?;
    Ok(Entry { fall: 1, lists })
}

/// The cover at `count` rows, with falls into the targets from number `first` on.
pub(crate) fn falling_cover(
    alloc: Global,
    tree: &CoverTree,
    count: usize,
    first: usize,
) -> Result<CoverTree, AllocError>
    requires room { count + splits tree.now < 2 ^ 64 }
    ensures { IfOk result (IsFallingCover first count tree.now) }
{
    match tree {
        CoverTree::Split(row, holds, fails) => {
            let holds = falling_cover(alloc, holds, count + 1, first)?;
            let holds = Box::new(alloc, holds)?;
            let fails = falling_cover(alloc, fails, count + 1, first)?;
            let fails = Box::new(alloc, fails)?;
            Ok(CoverTree::Split(row.copy(alloc)?, holds, fails))
        }
        CoverTree::Empty(multipliers) => Ok(CoverTree::Empty(Vec::from_slice(alloc, multipliers)?)),
        CoverTree::Into {
            target,
            fall,
            refutations,
        } => {
            let entry = entry_of(alloc, *target, *fall, refutations, first, count)?;
            Ok(CoverTree::Into {
                target: *target,
                fall: entry.fall,
                refutations: entry.lists,
            })
        }
    }
}

/// How many of the pieces are at the location.
pub(crate) fn count_at(pieces: &[Piece], location: u32) -> usize
    ensures { result ≡ length (filter (λ p. p.location == location) pieces.now) }
{
    pieces
        .iter()
        .filter(|piece| piece.location == location)
        .count()
}

/// How many of the pieces that are done are where the case of the number leads.
fn first_past(about: &Cases, taken: u32, done: &[Piece]) -> usize
    ensures { result ≡ first_past (slice_get (cases_of about.now).cases taken) done.now }
{
    match about.list().get(taken as usize) {
        Some(case) => count_at(done, case.to),
        None => 0,
    }
}

/// The choice at `count` rows, with falls into the pieces that are not done.
pub(crate) fn falling_choice(
    alloc: Global,
    about: &Cases,
    done: &[Piece],
    tree: &ChoiceTree,
    count: usize,
) -> Result<ChoiceTree, AllocError>
    requires room { count + choice_splits tree.now < 2 ^ 64 }
    requires goes { NeverStops tree.now }
    ensures { IfOk result (IsFallingChoice (cases_of about.now) done.now count tree.now) }
{
    match tree {
        ChoiceTree::Split(row, holds, fails) => {
            let holds = falling_choice(alloc, about, done, holds, count + 1)?;
            let holds = Box::new(alloc, holds)?;
            let fails = falling_choice(alloc, about, done, fails, count + 1)?;
            let fails = Box::new(alloc, fails)?;
            Ok(ChoiceTree::Split(row.copy(alloc)?, holds, fails))
        }
        ChoiceTree::Empty(multipliers) => {
            Ok(ChoiceTree::Empty(Vec::from_slice(alloc, multipliers)?))
        }
        ChoiceTree::NoStep(_) => unreachable!(),
        ChoiceTree::Take {
            taken,
            target,
            fall,
            draws,
            refutations,
        } => {
            let first = first_past(about, *taken, done);
            let entry = entry_of(alloc, *target, *fall, refutations, first, count)?;
            let mut terms = Vec::new(alloc);
            push_copies(alloc, draws, &mut terms)?;
            Ok(ChoiceTree::Take {
                taken: *taken,
                target: *target,
                fall: entry.fall,
                draws: terms,
                refutations: entry.lists,
            })
        }
    }
}
