// The covers of the steps over cases.

ghost use Rattle.std.specs.Prelude.{◌<◌, length, IfOk};
ghost use Rattle.std.specs.Result.{IfErr};
ghost use Rattle.tv_cases.specs.Systems.{cases_of};
ghost use Rattle.tv_lexrank.specs.Steps.{IsRefutation, AreRanked, FallsOver, ShowsCase, ShowsStep, RefusesStep};

use crate::closed::closing;
use crate::falling::{Fall, with_fall};
use crate::ranking::Ranking;
use crate::{CaseShown, RankFault};
use std::alloc::{AllocError, Global};
use tv_linear::CoverTree;

/// The cover of a case that is never taken.
fn refutation_cover(alloc: Global, multipliers: &[i64]) -> Result<CoverTree, AllocError>
    ensures { IfOk result (IsRefutation multipliers.now) }
{
    Ok(CoverTree::Empty(Vec::from_slice(alloc, multipliers)?))
}

/// The cover of a step over a case by which the ranks fall so.
fn falling_cover(
    alloc: Global,
    ranking: &Ranking,
    number: u32,
    fall: &Fall,
) -> Result<CoverTree, RankFault>
    requires number { number < length (cases_of ranking.now.about.now).cases }
    requires falls { FallsOver ranking.now number fall.now }
    ensures shows { IfOk result (ShowsStep ranking.now number) }
    ensures refusals { IfErr result (RefusesStep ranking.now) }
{
    let leads = match closing(alloc, ranking.about, ranking.known, number, ranking.budget) {
        Ok(leads) => leads,
        Err(fault) => return Err(fault),
    };
    match with_fall(alloc, leads.tree(), fall, 0) {
        Ok(tree) => Ok(tree),
        Err(_) => Err(RankFault::Memory),
    }
}

/// The cover of a step over a case, by what shows the case: that it leads into the rows that are known where it ends and that the ranks
/// fall, or that it is never taken.
pub fn step_cover(
    alloc: Global,
    ranking: &Ranking,
    number: u32,
    shown: &CaseShown,
) -> Result<CoverTree, RankFault>
    requires ranked { AreRanked ranking.now }
    requires number { number < length (cases_of ranking.now.about.now).cases }
    requires shown { ShowsCase ranking.now number shown.now }
    ensures shows { IfOk result (ShowsStep ranking.now number) }
    ensures refusals { IfErr result (RefusesStep ranking.now) }
{
    match shown {
        CaseShown::Untaken(multipliers) => {
            let refuted = refutation_cover(alloc, multipliers)?;
            Ok(refuted)
        }
        CaseShown::Falls(fall) => falling_cover(alloc, ranking, number, fall),
    }
}
