// The components of the location graph, and their ranks.

ghost use Rattle.std.specs.Prelude.{◌≡◌, ◌<◌, ◌≤◌, length, map, All, IfOk};
ghost use Rattle.std.specs.Result.{IfErr};
ghost use Rattle.tv_cases.specs.Systems.{cases_of};
ghost use Rattle.tv_cases.specs.Views.{case_views};
ghost use Rattle.tv_known.specs.Ranking.{HasLexicographicRanking};
ghost use Rattle.tv_lexrank.specs.Known.{AreBare, AreKnown};
ghost use Rattle.tv_lexrank.specs.Attempt.{AreBelow, PartsFrom};
ghost use Rattle.tv_lexrank.specs.Closing.{RefusesClosed};
ghost use Rattle.tv_lexrank.specs.First.{arc_of, AreComponents, IsOutcome, IsNode, RefusesFirst};
ghost use Rattle.tv_lexrank.specs.Outcomes.{IsAnswer, Refuses};

use crate::attempt::{Attempt, bare_region, rank_components};
use crate::node::ranked_node;
use crate::part::Part;
use crate::ranking::{Ranking, rank_count};
use crate::shown::each_shown;
use crate::{RankFault, Ranked};
use std::alloc::{AllocError, Global};
use tv_cases::{Case, Cases};
use tv_farkas::Budget;
use tv_graph::{Arc, components};
use tv_linear::{Region, push_item};

/// An arc for each case, in order.
pub fn arcs_of(alloc: Global, list: &[Case]) -> Result<Vec<Arc>, AllocError>
    ensures { IfOk result (λ v. v.items ≡ map arc_of (case_views list.now)) }
{
    let mut arcs = Vec::with_capacity(alloc, list.len())?;
    'cases: for case in list {
        push_item(
            &mut arcs,
            Arc {
                from: case.from,
                to: case.to,
            },
        )?;
    }
    Ok(arcs)
}

/// One more than the greatest number.
pub fn count_of(numbers: &[u32]) -> u32
    requires { All (λ n. n < 1024) numbers.now }
    ensures below { AreBelow result numbers.now }
    ensures bounded { result ≤ 1024 }
{
    let mut count = 0;
    'numbers: for number in numbers {
        if *number >= count {
            count = *number + 1;
        }
    }
    count
}

/// The answer of components that are ranked: the node, and what shows each case.
fn ranked_parts(
    alloc: Global,
    about: &Cases,
    known: &Region,
    numbers: &[u32],
    parts: &[Part],
    budget: &Budget,
) -> Result<Ranked, RankFault>
    requires known { AreKnown (cases_of about.now) known.now.pieces.items }
    requires components { AreComponents (cases_of about.now) numbers.now }
    requires below { AreBelow (length parts.now) numbers.now }
    requires bounded { length parts.now ≤ 1024 }
    requires parts { PartsFrom (cases_of about.now) known.now.pieces.items numbers.now 0 parts.now }
    requires splits { budget.now.splits ≤ 128 }
    ensures ranked { IfOk result (IsAnswer (cases_of about.now) known.now.pieces.items) }
    ensures node { IfOk result IsNode }
    ensures lexicographic { AreBare known.now.pieces.items → IfOk result (λ _. HasLexicographicRanking (cases_of about.now)) }
    ensures refusals { IfErr result (RefusesClosed (cases_of about.now) known.now.pieces.items budget.now) }
{
    let count = rank_count(parts);
    let ranking = Ranking {
        about,
        known,
        numbers,
        parts,
        count,
        budget,
    };
    let shown = each_shown(alloc, &ranking)?;
    match ranked_node(alloc, &ranking, &shown) {
        Ok(node) => Ok(Ranked::Node { node, shown }),
        Err(fault) => Err(fault),
    }
}

/// The components of the location graph, by the number of each location.
pub fn components_of(alloc: Global, about: &Cases) -> Result<Vec<u32>, AllocError>
    ensures components { IfOk result (λ v. AreComponents (cases_of about.now) v.items) }
    ensures below { IfOk result (λ v. All (λ n. n < 1024) v.items) }
{
    let arcs = arcs_of(alloc, about.list())?;
    let numbers = components(alloc, about.locations(), &arcs)?;
    Ok(numbers)
}

/// Looks for ranks under which every run ends that starts where the known rows are met.
///
/// The known rows stand in a piece for each location, in the order of the locations. They are to be closed: each case is to lead from the
/// known rows where it starts into those where it ends, which a cover of its own shows beside the fall. No cover is asked where no row is
/// known at the end.
///
/// The strongly connected components of the location graph are ranked one after the other, in the order of their numbers. Of the
/// cases inside a component those whose known rows and guards have a rational point are taken out round by round: the first over which
/// some family of terms falls that grows over none of those that are left. The ranks of a location are the number of its component,
/// which falls where a case leaves the component, and then the terms of the component's rounds. Beside the node stands for each case the
/// fall with its multipliers, or what refutes that it is ever taken: they hold as well under more rows, with 0 for each.
///
/// Each round is that of A. Podelski and A. Rybalchenko, "A complete method for the synthesis of linear ranking functions",
/// VMCAI 2004. Where no family falls over any case that is left, the set is stuck; where the cases have a lexicographic linear
/// ranking over the rationals this never comes. Where no rows are known, a node is answered only where they have one.
///
/// `Open` comes where a case leaves the known rows, `Cover` where it is not settled whether one does, and `Solve` where the named system is
/// not settled.
pub fn lex_rank(
    alloc: Global,
    about: &Cases,
    known: &Region,
    budget: &Budget,
) -> Result<Ranked, RankFault>
    requires known { AreKnown (cases_of about.now) known.now.pieces.items }
    requires splits { budget.now.splits ≤ 128 }
    ensures ranked { IfOk result (IsAnswer (cases_of about.now) known.now.pieces.items) }
    ensures never_stuck { HasLexicographicRanking (cases_of about.now) → IfOk result IsNode }
    ensures lexicographic { AreBare known.now.pieces.items → IfOk result (λ r. IsNode r → HasLexicographicRanking (cases_of about.now)) }
    ensures refusals { IfErr result (Refuses (cases_of about.now) known.now.pieces.items budget.now) }
{
    let numbers = components_of(alloc, about)?;
    let count = count_of(&numbers);
    match rank_components(alloc, about, known, &numbers, count, budget.pivots) {
        Err(fault) => Err(fault),
        Ok(Attempt::Stuck { set, barriers }) => Ok(Ranked::Stuck { set, barriers }),
        Ok(Attempt::Whole(parts)) => {
            match ranked_parts(alloc, about, known, &numbers, &parts, budget) {
                Ok(ranked) => Ok(ranked),
                Err(fault) => Err(fault),
            }
        }
    }
}

/// The same where no rows are known: every run ends. `Open` and `Cover` never come.
pub fn first_attempt(alloc: Global, about: &Cases, pivots: u64) -> Result<Ranked, RankFault>
    ensures ranked { IfOk result (λ r. IsOutcome (cases_of about.now) r) }
    ensures never_stuck { HasLexicographicRanking (cases_of about.now) → IfOk result IsNode }
    ensures lexicographic { IfOk result (λ r. IsNode r → HasLexicographicRanking (cases_of about.now)) }
    ensures refusals { IfErr result (λ e. RefusesFirst (cases_of about.now) pivots e) }
{
    let known = bare_region(alloc, about.variables(), about.locations())?;
    let budget = Budget {
        pivots,
        splits: 0,
        disjuncts: 0,
    };
    match lex_rank(alloc, about, &known, &budget) {
        Ok(ranked) => Ok(ranked),
        Err(fault) => Err(fault),
    }
}
