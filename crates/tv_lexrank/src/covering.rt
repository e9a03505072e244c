// The covers of the steps over cases, as the rounds show them.

ghost use Rattle.std.specs.Prelude.{◌≡◌, ◌+◌, ◌<◌, ◌≤◌, ◌++◌, ◌∷◌, [], length, IfOk, pos};
ghost use Rattle.tv_linear.specs.Arithmetic.{zeros};
ghost use Rattle.tv_rank.specs.Given.{lists};
ghost use Rattle.tv_lexrank.specs.Rounds.{place_in as spec_place, line_at, lines_of as spec_lines, falls_in};
ghost use Rattle.tv_lexrank.specs.Covering.{AreLined};

use crate::Round;
use std::alloc::{AllocError, Global};
use tv_linear::push_item;

/// The first place of a number in a list, or the list's length.
pub fn place_in(set: &[u32], number: u32) -> usize
    ensures is { result ≡ spec_place set.now number }
    ensures within { result ≤ length set.now }
{
    'places: for place in 0..set.len() {
        if set[place] == number {
            return place;
        }
    }
    set.len()
}

/// A copy of the multipliers at a place of a round.
fn line_of(alloc: Global, round: &Round, place: usize) -> Result<Vec<i64>, AllocError>
    requires { place < length round.now.multipliers.items }
    ensures { IfOk result (λ v. v.items ≡ line_at round.now place) }
{
    Vec::from_slice(alloc, &round.multipliers[place])
}

/// The multipliers 0, one for each row that is met, and 1 for the denial of what they show.
pub fn zero_line(alloc: Global, count: usize) -> Result<Vec<i64>, AllocError>
    ensures { IfOk result (λ v. v.items ≡ zeros count ++ pos 1 ∷ []) }
{
    let mut line = Vec::with_capacity(alloc, count.saturating_add(1))?;
    'rows: for row in 0..count {
        let _row = row;
        push_item(&mut line, 0)?;
    }
    push_item(&mut line, 1)?;
    Ok(line)
}

/// What the rounds tell of a case: its multipliers, in the order of the rows of its fall, and how many rounds are before the one in which
/// it falls.
#[derive(Drop)]
pub struct Fallen {
    pub lines: Vec<Vec<i64>>,
    pub round: usize,
}

/// Puts the multipliers of a case in the rounds up to its fall after a first list.
pub fn fall_of(
    alloc: Global,
    rounds: &[Round],
    case: u32,
    first: Vec<i64>,
) -> Result<Fallen, AllocError>
    requires { AreLined rounds.now }
    ensures lines { IfOk result (λ f. lists f.lines.items ≡ first.items ∷ spec_lines case rounds.now) }
    ensures round { IfOk result (λ f. f.round ≡ falls_in case rounds.now) }
    ensures within { IfOk result (λ f. f.round ≤ length rounds.now) }
{
    let mut lines = Vec::new(alloc);
    push_item(&mut lines, first)?;
    let mut before = 0;
    'rounds: for round in rounds {
        if round.set[round.place] == case {
            push_item(&mut lines, line_of(alloc, round, round.place)?)?;
            push_item(&mut lines, line_of(alloc, round, round.set.len())?)?;
            return Ok(Fallen {
                lines,
                round: before,
            });
        }
        push_item(
            &mut lines,
            line_of(alloc, round, place_in(&round.set, case))?,
        )?;
        before += 1;
    }
    Ok(Fallen {
        lines,
        round: before,
    })
}
