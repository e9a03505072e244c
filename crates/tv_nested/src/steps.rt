// The covers of the steps over cases, from the pieces of their locations.

ghost use Rattle.std.specs.Prelude.{◌<◌, length, IfOk};
ghost use Rattle.std.specs.Result.{IfErr};
ghost use Rattle.tv_cases.specs.Systems.{cases_of};
ghost use Rattle.tv_nested.specs.Ranks.{AreRanked, HasPiece, ShowsCase, ShowsStep, RefusesRanking};

use crate::NestFault;
use crate::ranking::Ranking;
use crate::stepping::step_tree;
use std::alloc::Global;
use tv_lexrank::{CaseShown, case_of};
use tv_linear::CoverTree;

/// The cover of a step over a case from a piece, by what shows the case: that it leads into the pieces where it ends and that the ranks
/// fall, or that it is never taken.
pub fn step_cover(
    alloc: Global,
    ranking: &Ranking,
    number: u32,
    piece: u32,
    shown: &CaseShown,
) -> Result<CoverTree, NestFault>
    requires ranked { AreRanked ranking.now }
    requires number { number < length (cases_of ranking.now.about.now).cases }
    requires piece { HasPiece ranking.now number piece }
    requires shown { ShowsCase ranking.now number piece shown.now }
    ensures shows { IfOk result (ShowsStep ranking.now number piece) }
    ensures refusals { IfErr result (RefusesRanking ranking.now) }
{
    let case = case_of(ranking.about, number);
    let variables = ranking.about.variables();
    let signs = ranking.signs(alloc, case.to)?;
    let before = ranking.row_count(case.from, piece);
    match step_tree(alloc, case, variables, &signs, before, shown) {
        Ok(tree) => Ok(tree),
        Err(fault) => Err(fault),
    }
}
