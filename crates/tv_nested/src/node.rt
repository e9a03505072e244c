// The node of nested terms.

ghost use Rattle.std.specs.Prelude.{IfOk};
ghost use Rattle.std.specs.Result.{IfErr};
ghost use Rattle.tv_nested.specs.NodesShown.{IsRankedNode};
ghost use Rattle.tv_nested.specs.Ranks.{AreRanked, RefusesRanking};

use crate::NestFault;
use crate::offered::proofs_of;
use crate::pieces::pieces_of;
use crate::ranking::Ranking;
use std::alloc::Global;
use tv_cert::Node;
use tv_shape::node_of;

/// The node that shows that every run ends: at each location the pieces by the signs of the nested terms there, by the ranks of the location.
pub fn nested_node(alloc: Global, ranking: &Ranking) -> Result<Node, NestFault>
    requires { AreRanked ranking.now }
    ensures node { IfOk result (IsRankedNode ranking.now) }
    ensures refusals { IfErr result (RefusesRanking ranking.now) }
{
    let list = match pieces_of(alloc, ranking) {
        Ok(list) => list,
        Err(fault) => return Err(fault),
    };
    let proofs = match proofs_of(alloc, ranking) {
        Ok(proofs) => proofs,
        Err(fault) => return Err(fault),
    };
    let node = node_of(alloc, list, ranking.count, Vec::new(alloc), proofs)?;
    Ok(node)
}
