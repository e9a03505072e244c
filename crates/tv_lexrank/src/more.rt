// What shows a case, under more rows that are known.

ghost use Rattle.std.specs.Prelude.{◌≡◌, map, IfOk};
ghost use Rattle.tv_rank.specs.Given.{lists as lists_of};
ghost use Rattle.tv_lexrank.specs.Falling.{put_in as spec_put_in};
ghost use Rattle.tv_lexrank.specs.More.{IsUnderMore};

use crate::CaseShown;
use crate::falling::{Fall, put_in};
use std::alloc::{AllocError, Global};
use tv_linear::push_item;

/// Copies of lists, each with `many` zeros put in at a place.
fn put_in_each(
    alloc: Global,
    lists: &[Vec<i64>],
    place: usize,
    many: usize,
) -> Result<Vec<Vec<i64>>, AllocError>
    ensures { IfOk result (λ v. lists_of v.items ≡ map (spec_put_in place many) (lists_of lists.now)) }
{
    let mut all = Vec::new(alloc);
    'lists: for list in lists {
        push_item(&mut all, put_in(alloc, list, place, many)?)?;
    }
    Ok(all)
}

/// A fall whose lines have `many` zeros put in at a place.
fn fall_under(alloc: Global, fall: &Fall, place: usize, many: usize) -> Result<Fall, AllocError>
    ensures number { IfOk result (λ f. f.number ≡ fall.now.number) }
    ensures lines { IfOk result (λ f. lists_of f.lines.items ≡ map (spec_put_in place many) (lists_of fall.now.lines.items)) }
{
    let lines = put_in_each(alloc, &fall.lines, place, many)?;
    Ok(Fall {
        number: fall.number,
        lines,
    })
}

/// What shows a case under more rows that are known where it starts: `many` more, after the first `place` of those under which it was
/// shown. Their multipliers are 0.
pub fn under_more(
    alloc: Global,
    shown: &CaseShown,
    place: usize,
    many: usize,
) -> Result<CaseShown, AllocError>
    ensures { IfOk result (IsUnderMore place many shown.now) }
{
    match shown {
        CaseShown::Untaken(multipliers) => {
            let multipliers = put_in(alloc, multipliers, place, many)?;
            Ok(CaseShown::Untaken(multipliers))
        }
        CaseShown::Falls(fall) => {
            let fall = fall_under(alloc, fall, place, many)?;
            Ok(CaseShown::Falls(fall))
        }
    }
}
