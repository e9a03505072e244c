// Whether the cases lead from the known rows into the known rows.

ghost use Rattle.std.specs.Prelude.{◌≡◌, ◌+◌, ◌-◌, ◌^◌, ◌<◌, ◌≤◌, ◌∷◌, [], All, length, IfOk};
ghost use Rattle.std.specs.Result.{IfErr};
ghost use Rattle.tv_linear.specs.Linear.{columns as width};
ghost use Rattle.tv_cases.specs.Systems.{cases_of};
ghost use Rattle.tv_cases.specs.Views.{case_view};
ghost use Rattle.tv_cases.specs.Before.{AreRowsBefore};
ghost use Rattle.tv_cover.specs.Covering.{IsCoverFault};
ghost use Rattle.tv_cover.specs.Targets.{AreEven};
ghost use Rattle.tv_cover.specs.Single.{IsCoveredByOne, IsCoverInto};
ghost use Rattle.tv_lexrank.specs.Known.{AreKnown};
ghost use Rattle.tv_lexrank.specs.Closing.{IsWholeCover, IsUnmade, IsHandedOn, RefusesCover, IsClosed, RefusesClosed};

use crate::RankFault;
use crate::known::{known_at, rows_with};
use crate::sorting::case_of;
use std::alloc::Global;
use tv_cases::{Case, Cases, all_before};
use tv_cover::{Covered, cover_one};
use tv_farkas::{Budget, CoverFault};
use tv_linear::{Cover, CoverTree, Poly, Region, Row, RowFault};

/// The cover by one target without rows, into which no fall is owed.
pub fn whole_cover(alloc: Global) -> Cover
    ensures { IsWholeCover result }
{
    let tree = CoverTree::Into {
        target: 0,
        fall: 0,
        refutations: Vec::new(alloc),
    };
    match Cover::new(tree) {
        Some(cover) => cover,
        None => unreachable!(),
    }
}

/// The rows that have before the case the values of these rows after it.
fn rows_before(
    alloc: Global,
    rows: &[Row],
    case: &Case,
    variables: u32,
) -> Result<Vec<Row>, RankFault>
    requires bounded { variables + case.now.draws < 2 ^ 32 - 1 }
    requires terms { All (λ u. width u.term ≡ variables + case.now.draws) (case_view case.now).updates }
    requires even { All (λ r. width r ≡ variables) rows.now }
    ensures rows { IfOk result (λ v. AreRowsBefore (case_view case.now) rows.now v.items) }
    ensures refusals { IfErr result (IsUnmade (case_view case.now) rows.now) }
{
    match all_before(alloc, rows, case, variables) {
        Ok(all) => Ok(all),
        Err(RowFault::Wide { column }) => Err(RankFault::Cover {
            fault: CoverFault::Wide { column },
        }),
        Err(RowFault::Memory) => Err(RankFault::Memory),
    }
}

/// A cover of the rows over a case into one target, or the values of a hole.
fn cover_into(
    alloc: Global,
    ambient: &Poly,
    target: Vec<Row>,
    taken: u32,
    budget: &Budget,
) -> Result<Cover, RankFault>
    requires bounded { ambient.now.columns < 2 ^ 32 - 1 }
    requires even { AreEven ambient.now.columns ambient.now.rows.items }
    requires same { AreEven ambient.now.columns target.items }
    requires splits { budget.now.splits ≤ 128 }
    ensures covered { IfOk result (IsCoverInto ambient.now.columns ambient.now.rows.items target.items) }
    ensures refusals { IfErr result (RefusesCover ambient.now.columns ambient.now.rows.items target.items budget.now taken) }
{
    match cover_one(alloc, ambient, target, budget) {
        Ok(Covered::Tree(cover)) => Ok(cover),
        Ok(Covered::Hole(values)) => Err(RankFault::Open { taken, values }),
        Err(fault) => Err(unsettled(fault)),
    }
}

/// The refusal where a cover was not settled.
fn unsettled(fault: CoverFault) -> RankFault
    ensures { IsHandedOn fault result }
{
    match fault {
        CoverFault::Memory => RankFault::Memory,
        fault => RankFault::Cover { fault },
    }
}

/// A cover of the rows that are met where a case is taken into those that are known where it leads.
pub fn closing(
    alloc: Global,
    about: &Cases,
    known: &Region,
    number: u32,
    budget: &Budget,
) -> Result<Cover, RankFault>
    requires number { number < length (cases_of about.now).cases }
    requires known { AreKnown (cases_of about.now) known.now.pieces.items }
    requires splits { budget.now.splits ≤ 128 }
    ensures closed { IfOk result (IsClosed (cases_of about.now) known.now.pieces.items number) }
    ensures refusals { IfErr result (RefusesClosed (cases_of about.now) known.now.pieces.items budget.now) }
{
    let case = case_of(about, number);
    let owed = known_at(&known.pieces, case.to);
    if owed.is_empty() {
        return Ok(whole_cover(alloc));
    }
    let columns = about.variables() + case.draws;
    let target = match rows_before(alloc, owed, case, about.variables()) {
        Ok(target) => target,
        Err(fault) => return Err(fault),
    };
    let started = known_at(&known.pieces, case.from);
    let rows = rows_with(alloc, started, &case.guards.rows, case.draws)?;
    match cover_into(alloc, &Poly { columns, rows }, target, number, budget) {
        Ok(cover) => Ok(cover),
        Err(fault) => Err(fault),
    }
}
