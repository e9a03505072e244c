ghost use Rattle.std.specs.Prelude.{◌≡◌, ◌+◌, ◌-◌, ◌<◌, ◌≤◌, ◌^◌, ℕ, ℤ, pos, List, [], ◌∷◌, All, Option, IfOk, MatchOption, length};
ghost use Rattle.tv_cert.specs.TargetViews.{counts_of, AreFew};
ghost use Rattle.tv_cert_reader.specs.declared.cursor.Cursor.{Cursor};
ghost use Rattle.tv_cert_reader.specs.Covers.{IsBehind, IsSplitOf, IsTarget, NamesNone, ReadsTree};

use crate::context::Context;
use crate::cursor::Cursor;
use crate::failure::Failure;
use crate::kind::LineKind;
use crate::lines::take;
use crate::rows::{lists, row_of};
use std::alloc::{AllocError, Global};
use tv_cert::Targets;
use tv_linear::{CoverTree, Row};
use tv_lines::Head;

/// A number of 32 bits.
pub fn small(number: i64) -> Option<u32>
    ensures { MatchOption result ((n : ℕ) → number ≡ pos n → n < 2 ^ 32 → ⊥) (λ n. number ≡ pos n) }
{
    if number < 0 || number >= 1 << 32 {
        None
    } else {
        Some(number as u32)
    }
}

/// Two numbers of 32 bits.
pub fn two_small(numbers: &[i64]) -> Option<(u32, u32)>
    ensures { MatchOption result
        ((k j : ℕ) → numbers.now ≡ pos k ∷ pos j ∷ [] → k < 2 ^ 32 → j < 2 ^ 32 → ⊥)
        (λ x. numbers.now ≡ pos x.0 ∷ pos x.1 ∷ []) }
{
    let [first, second] = numbers else {
        return None;
    };
    match (small(*first), small(*second)) {
        (Some(first), Some(second)) => Some((first, second)),
        _ => None,
    }
}

/// The target and the fall that the numbers name, and how many rows they owe.
fn target_of(numbers: &[i64], targets: &Targets) -> Option<(u32, u32, usize)>
    requires { AreFew targets.now }
    ensures { MatchOption result (NamesNone (counts_of targets.now) numbers.now) (λ x. IsTarget (counts_of targets.now) numbers.now x.0 x.1 x.2) }
{
    let (target, fall) = two_small(numbers)?;
    let owed = targets.count(target, fall)?;
    Some((target, fall, owed))
}

/// A split at the row.
fn split_of(
    alloc: Global,
    row: Row,
    holds: CoverTree,
    fails: CoverTree,
) -> Result<CoverTree, AllocError>
    ensures { IfOk result (IsSplitOf row holds fails) }
{
    let holds = Box::new(alloc, holds)?;
    let fails = Box::new(alloc, fails)?;
    Ok(CoverTree::Split(row, holds, fails))
}

/// A refutation of the place by the multipliers of a line, if there are as many as rows.
fn empty_of(multipliers: Vec<i64>, known: u128, line: u32) -> Result<CoverTree, Failure>
    ensures { (width left : ℕ) (counts : ℕ → ℕ → Option ℕ) (old new : Cursor) →
        IsBehind Head.Empty multipliers.items old new → new.taken ≡ line →
        ReadsTree width counts known left old new result }
{
    if multipliers.len() as u128 == known {
        Ok(CoverTree::Empty(multipliers))
    } else {
        Err(Failure::Fault(LineKind::Shape, line))
    }
}

impl Context<'_> {
    /// A cover whose line into a target has these numbers.
    fn entered(
        &self,
        cursor: &mut Cursor,
        numbers: &[i64],
        known: u128,
        targets: &Targets,
    ) -> Result<CoverTree, Failure>
        requires bounded { AreFew targets.now }
        requires room { known < 2 ^ 127 }
        ensures { (width left : ℕ) (old : Cursor) → IsBehind Head.Into numbers.now old cursor.old →
            ReadsTree width (counts_of targets.now) known left old cursor.new result }
    {
        let Some((target, fall, owed)) = target_of(numbers, targets) else {
            return Err(Failure::Fault(LineKind::Shape, cursor.taken));
        };
        let refutations = lists(self.alloc, cursor, known + 1, owed as u128)?;
        Ok(CoverTree::Into {
            target,
            fall,
            refutations,
        })
    }

    /// A cover with at most `left` splits on a path, at a place with `known` rows. Its split rows have `width` columns.
    pub fn cover_tree(
        &self,
        cursor: &mut Cursor,
        left: u32,
        width: u32,
        known: u128,
        targets: &Targets,
    ) -> Result<CoverTree, Failure>
        requires narrow { width < 2 ^ 32 - 1 }
        requires bounded { AreFew targets.now }
        requires room { known + left < 2 ^ 127 }
        ensures { ReadsTree width (counts_of targets.now) known left cursor.old cursor.new result }
    {
        let (head, numbers) = take(self.alloc, cursor)?;
        match head {
            Head::Split => {
                if left == 0 {
                    return Err(Failure::Fault(LineKind::Deep, cursor.taken));
                }
                let Some(row) = row_of(numbers, width) else {
                    return Err(Failure::Fault(LineKind::Shape, cursor.taken));
                };
                let holds = self.cover_tree(cursor, left - 1, width, known + 1, targets)?;
                let fails = self.cover_tree(cursor, left - 1, width, known + 1, targets)?;
                let split = split_of(self.alloc, row, holds, fails)?;
                Ok(split)
            }
            Head::Empty => empty_of(numbers, known, cursor.taken),
            Head::Into => self.entered(cursor, &numbers, known, targets),
            _ => Err(Failure::Fault(LineKind::Shape, cursor.taken)),
        }
    }
}
