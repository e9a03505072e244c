// A fall of the ranks after what a cover shows.

ghost use Rattle.std.specs.Prelude.{◌≡◌, ◌+◌, ◌^◌, ◌<◌, ◌++◌, map, min, IfOk};
ghost use Rattle.tv_linear.specs.Arithmetic.{zeros};
ghost use Rattle.tv_linear.specs.Depth.{splits};
ghost use Rattle.tv_farkas.specs.Refuting.{AreShort};
ghost use Rattle.tv_farkas.specs.Trees.{TreeNumbers};
ghost use Rattle.tv_rank.specs.Given.{lists as lists_of};
ghost use Rattle.tv_lexrank.specs.Falling.{put_in as spec_put_in, spread as spec_spread, AreNarrowLines, HasFall};

use std::alloc::{AllocError, Global};
use tv_farkas::split_of;
use tv_linear::{CoverTree, copies_of_lists, copy_row, push_item};

/// A fall of the ranks over a case, with what shows it.
#[derive(Drop)]
pub struct Fall {
    /// Which rank falls, counted from 1.
    pub number: u32,
    /// For each row of the fall multipliers: of the rows that are known where the case starts, then of its guards, and last of the denial
    /// of the row.
    pub lines: Vec<Vec<i64>>,
}

/// So many zeros.
fn zeros_of(alloc: Global, count: usize) -> Result<Vec<i64>, AllocError>
    ensures { IfOk result (λ v. v.items ≡ zeros count) }
{
    let zeros = vec![in alloc; 0i64; count]?;
    Ok(zeros)
}

/// The lesser of two numbers.
fn lesser(a: usize, b: usize) -> usize
    ensures { result ≡ min a b }
{
    if a < b { a } else { b }
}

/// The numbers with `many` zeros put in at a place, or after them all.
pub fn put_in(
    alloc: Global,
    line: &[i64],
    place: usize,
    many: usize,
) -> Result<Vec<i64>, AllocError>
    ensures { IfOk result (λ v. v.items ≡ spec_put_in place many line.now) }
{
    let (front, back) = line.split_at(lesser(place, line.len()));
    let zeros = zeros_of(alloc, many)?;
    let mut all = Vec::with_capacity(alloc, line.len().saturating_add(many))?;
    all.extend_from_slice(front)?;
    all.extend_from_slice(&zeros)?;
    all.extend_from_slice(back)?;
    Ok(all)
}

/// The multipliers with 0 for each of `above` rows before the last.
fn spread(alloc: Global, line: &[i64], above: usize) -> Result<Vec<i64>, AllocError>
    ensures { IfOk result (λ v. v.items ≡ spec_spread above line.now) }
{
    put_in(alloc, line, line.len().saturating_sub(1), above)
}

/// Puts the lines at the end of lists, each spread over `above` more rows.
pub fn append_spread(
    alloc: Global,
    lists: &mut Vec<Vec<i64>>,
    lines: &[Vec<i64>],
    above: usize,
) -> Result<(), AllocError>
    ensures { IfOk result (λ _. lists_of lists.new.items ≡ lists_of lists.old.items ++ map (spec_spread above) (lists_of lines.now)) }
{
    'lines: for line in lines {
        push_item(lists, spread(alloc, line, above)?)?;
    }
    Ok(())
}

fn number_of(fall: &Fall) -> u32
    ensures { result ≡ fall.now.number }
{
    fall.number
}

/// The cover, below `above` splits, with the lines of the fall after those of each target.
pub fn with_fall(
    alloc: Global,
    tree: &CoverTree,
    fall: &Fall,
    above: usize,
) -> Result<CoverTree, AllocError>
    requires room { above + splits tree.now < 2 ^ 64 }
    requires short { TreeNumbers AreShort tree.now }
    requires lines { AreNarrowLines (lists_of fall.now.lines.items) }
    ensures { IfOk result (HasFall fall.now above tree.now) }
{
    match tree {
        CoverTree::Split(row, holds, fails) => {
            let holds = with_fall(alloc, holds, fall, above + 1)?;
            let fails = with_fall(alloc, fails, fall, above + 1)?;
            Ok(split_of(alloc, copy_row(alloc, row)?, holds, fails)?)
        }
        CoverTree::Empty(multipliers) => Ok(CoverTree::Empty(Vec::from_slice(alloc, multipliers)?)),
        CoverTree::Into {
            target,
            fall: _,
            refutations,
        } => {
            let mut lists = copies_of_lists(alloc, refutations)?;
            append_spread(alloc, &mut lists, &fall.lines, above)?;
            Ok(CoverTree::Into {
                target: *target,
                fall: number_of(fall),
                refutations: lists,
            })
        }
    }
}
