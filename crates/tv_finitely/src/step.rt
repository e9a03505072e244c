// The covers of the steps over cases.

ghost use Rattle.std.specs.Prelude.{◌<◌, length, IfOk};
ghost use Rattle.std.specs.Result.{IfErr};
ghost use Rattle.tv_lexrank.specs.Steps.{IsRefutation};
ghost use Rattle.tv_finitely.specs.Ranked.{system_of, AreRanked, FallsOver, ShowsStep, IsStepProof, RefusesStep};

use crate::ranking::Ranking;
use crate::shown::case_shown;
use std::alloc::Global;
use tv_cert::Proof;
use tv_lexrank::{CaseShown, Fall, RankFault, closing, with_fall};
use tv_linear::{Cover, CoverTree};

/// The cover of a case that is never taken.
fn refutation_cover(multipliers: Vec<i64>) -> CoverTree
    ensures { IsRefutation multipliers.items result }
{
    CoverTree::Empty(multipliers)
}

/// The cover of a step over a case by which the ranks fall so, or do not grow.
fn falling_cover(
    alloc: Global,
    ranking: &Ranking,
    number: u32,
    fall: &Fall,
) -> Result<CoverTree, RankFault>
    requires number { number < length (system_of ranking.now).cases }
    requires falls { FallsOver ranking.now number fall.now }
    ensures shows { IfOk result (ShowsStep ranking.now number) }
    ensures refusals { IfErr result (RefusesStep ranking.now) }
{
    let leads = match closing(
        alloc,
        &ranking.about.cases,
        ranking.known,
        number,
        ranking.budget,
    ) {
        Ok(leads) => leads,
        Err(fault) => return Err(fault),
    };
    match with_fall(alloc, leads.tree(), fall, 0) {
        Ok(tree) => Ok(tree),
        Err(_) => Err(RankFault::Memory),
    }
}

/// The cover of a step over a case: it leads into the rows that are known where it ends, and the ranks fall, or do not grow where the case
/// does not enter; or it is never taken.
fn step_cover(alloc: Global, ranking: &Ranking, number: u32) -> Result<CoverTree, RankFault>
    requires ranked { AreRanked ranking.now }
    requires number { number < length (system_of ranking.now).cases }
    ensures shows { IfOk result (ShowsStep ranking.now number) }
    ensures refusals { IfErr result (RefusesStep ranking.now) }
{
    let shown = case_shown(alloc, ranking, number)?;
    match shown {
        CaseShown::Untaken(multipliers) => Ok(refutation_cover(multipliers)),
        CaseShown::Falls(fall) => falling_cover(alloc, ranking, number, &fall),
    }
}

/// The proof of the step over a case.
pub fn step_proof(alloc: Global, ranking: &Ranking, number: u32) -> Result<Proof, RankFault>
    requires ranked { AreRanked ranking.now }
    requires number { number < length (system_of ranking.now).cases }
    ensures shows { IfOk result (IsStepProof ranking.now number) }
    ensures refusals { IfErr result (RefusesStep ranking.now) }
{
    let tree = match step_cover(alloc, ranking, number) {
        Ok(tree) => tree,
        Err(fault) => return Err(fault),
    };
    match Cover::new(tree) {
        Some(cover) => Ok(Proof::Covered(cover)),
        None => unreachable!(),
    }
}
