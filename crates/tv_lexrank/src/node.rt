// The node of a ranking.

ghost use Rattle.std.specs.Prelude.{IfOk};
ghost use Rattle.std.specs.Result.{IfErr};
ghost use Rattle.tv_cases.specs.Systems.{cases_of};
ghost use Rattle.tv_lexrank.specs.Steps.{AreRanked, ShowsEach, RefusesStep};
ghost use Rattle.tv_lexrank.specs.Nodes.{IsRankedBy};

use crate::offered::proofs_of;
use crate::pieces::pieces_of;
use crate::ranking::Ranking;
use crate::{CaseShown, RankFault};
use std::alloc::Global;
use tv_cert::Node;
use tv_shape::node_of;

/// The node that shows that every run from the known states ends: at each location the rows that are known there, by the ranks of the
/// location; what shows each case is handed in.
pub fn ranked_node(alloc: Global, ranking: &Ranking, shown: &[CaseShown]) -> Result<Node, RankFault>
    requires ranked { AreRanked ranking.now }
    requires shown { ShowsEach ranking.now shown.now }
    ensures ranked { let known = ranking.now.known.now.pieces.items in
        IfOk result (λ node. IsRankedBy (cases_of ranking.now.about.now) known node shown.now) }
    ensures refusals { IfErr result (RefusesStep ranking.now) }
{
    let list = pieces_of(alloc, ranking)?;
    ranking.about.locations();
    let proofs = match proofs_of(alloc, ranking, shown) {
        Ok(proofs) => proofs,
        Err(fault) => return Err(fault),
    };
    let node = node_of(alloc, list, ranking.count, Vec::new(alloc), proofs)?;
    Ok(node)
}
