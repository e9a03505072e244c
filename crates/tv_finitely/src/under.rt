// Visits under rows that are known.

ghost use Rattle.std.specs.Prelude.{◌≡◌, ◌≤◌, length, IfOk};
ghost use Rattle.std.specs.Result.{IfErr};
ghost use Rattle.tv_rank.specs.Ways.{rows_at};
ghost use Rattle.tv_lexrank.specs.Attempt.{AreBelow};
ghost use Rattle.tv_lexrank.specs.Certified.{BeginsKnown, IsStartCover};
ghost use Rattle.tv_lexrank.specs.First.{AreComponents};
ghost use Rattle.tv_lexrank.specs.Known.{AreKnown};
ghost use Rattle.tv_finitely.specs.Parts.{PartsFrom};
ghost use Rattle.tv_finitely.specs.Ranked.{system_of, AreRanked, RefusesStep};
ghost use Rattle.tv_finitely.specs.Splits.{split_of};
ghost use Rattle.tv_finitely.specs.Found.{AreVisits, IsFound, RefusesBegun, RefusesShown, RefusesUnder};

use crate::attempt::{Attempt, visit_components};
use crate::offered::proofs_of;
use crate::part::Part;
use crate::pieces::pieces_of;
use crate::ranking::{Ranking, rank_count};
use crate::split_program::Split;
use crate::visits::Visits;
use std::alloc::Global;
use tv_cert::Pieces;
use tv_farkas::{Budget, CoverFault};
use tv_lexrank::{RankFault, components_of, count_of, known_at, start_cover, whole_cover};
use tv_linear::{Cover, Region};

/// What is found under known rows: visits, or a set of cases that is stuck.
#[derive(Drop)]
pub enum Found {
    Visits(Visits),
    Stuck {
        set: Vec<u32>,
        barriers: Vec<Vec<i128>>,
    },
}

/// A cover of the start by the rows that are known there, which all values meet. None is looked for where there are no rows.
fn begun(alloc: Global, about: &Split, known: &Region, budget: &Budget) -> Result<Cover, RankFault>
    requires known { AreKnown (split_of about.now).system known.now.pieces.items }
    requires begins { BeginsKnown (split_of about.now).system known.now.pieces.items }
    requires splits { budget.now.splits ≤ 128 }
    ensures covers { let system = (split_of about.now).system in
        IfOk result (IsStartCover system.variables (rows_at known.now.pieces.items system.start)) }
    ensures refusals { IfErr result (RefusesBegun (split_of about.now).system known.now.pieces.items budget.now) }
{
    if known_at(&known.pieces, about.cases.start()).is_empty() {
        return Ok(whole_cover(alloc));
    }
    match start_cover(alloc, &about.cases, known, budget) {
        Ok(cover) => Ok(cover),
        Err(CoverFault::Memory) => Err(RankFault::Memory),
        Err(fault) => Err(RankFault::Cover { fault }),
    }
}

/// The visits of a ranking, where the start is covered by the rows that are known there.
fn visits_by(alloc: Global, ranking: &Ranking, root: Cover) -> Result<Visits, RankFault>
    requires ranked { AreRanked ranking.now }
    requires root { let system = system_of ranking.now in
        IsStartCover system.variables (rows_at ranking.now.known.now.pieces.items system.start) root }
    ensures visits { IfOk result (AreVisits (split_of ranking.now.about.now)) }
    ensures refusals { IfErr result (RefusesStep ranking.now) }
{
    let list = pieces_of(alloc, ranking)?;
    let proofs = match proofs_of(alloc, ranking) {
        Ok(proofs) => proofs,
        Err(fault) => return Err(fault),
    };
    let pieces = Pieces::new(alloc, list)?;
    Ok(Visits {
        pieces,
        ranks: ranking.count,
        proofs,
        root,
    })
}

/// The visits by the rounds of all components.
fn ranked_visits(
    alloc: Global,
    about: &Split,
    known: &Region,
    numbers: &[u32],
    parts: &[Part],
    budget: &Budget,
) -> Result<Visits, RankFault>
    requires known { AreKnown (split_of about.now).system known.now.pieces.items }
    requires begins { BeginsKnown (split_of about.now).system known.now.pieces.items }
    requires components { AreComponents (split_of about.now).system numbers.now }
    requires below { AreBelow (length parts.now) numbers.now }
    requires bounded { length parts.now ≤ 1024 }
    requires parts { PartsFrom (split_of about.now) known.now.pieces.items numbers.now 0 parts.now }
    requires splits { budget.now.splits ≤ 128 }
    ensures visits { IfOk result (AreVisits (split_of about.now)) }
    ensures refusals { IfErr result (RefusesShown (split_of about.now).system known.now.pieces.items budget.now) }
{
    let count = rank_count(parts);
    let ranking = Ranking {
        about,
        known,
        numbers,
        parts,
        count,
        budget,
    };
    let root = match begun(alloc, about, known, budget) {
        Ok(root) => root,
        Err(fault) => return Err(fault),
    };
    match visits_by(alloc, &ranking, root) {
        Ok(visits) => Ok(visits),
        Err(fault) => Err(fault),
    }
}

/// Looks for visits under known rows, which each case keeps and all values at the start meet.
///
/// The strongly connected components of the location graph are gone through one after the other, in the order of their numbers. Of the
/// cases inside a component those whose known rows and guards have a rational point are taken out round by round, until none that is left
/// enters: the first over which some family of terms falls that grows over none of those that are left.
pub fn visits_under(
    alloc: Global,
    about: &Split,
    known: &Region,
    budget: &Budget,
) -> Result<Found, RankFault>
    requires known { AreKnown (split_of about.now).system known.now.pieces.items }
    requires begins { BeginsKnown (split_of about.now).system known.now.pieces.items }
    requires splits { budget.now.splits ≤ 128 }
    ensures found { IfOk result (IsFound (split_of about.now) known.now.pieces.items) }
    ensures refusals { IfErr result (RefusesUnder (split_of about.now) known.now.pieces.items budget.now) }
{
    let numbers = components_of(alloc, &about.cases)?;
    let count = count_of(&numbers);
    match visit_components(alloc, about, known, &numbers, count, budget.pivots) {
        Err(fault) => Err(fault),
        Ok(Attempt::Stuck { set, barriers }) => Ok(Found::Stuck { set, barriers }),
        Ok(Attempt::Whole(parts)) => {
            match ranked_visits(alloc, about, known, &numbers, &parts, budget) {
                Ok(visits) => Ok(Found::Visits(visits)),
                Err(fault) => Err(fault),
            }
        }
    }
}
