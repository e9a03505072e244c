// The proofs that the known states are not at the location.

ghost use Rattle.std.specs.Prelude.{◌<◌, IfOk};
ghost use Rattle.std.specs.Result.{IfErr};
ghost use Rattle.tv_cases.specs.Systems.{cases_of};
ghost use Rattle.tv_settling.specs.Nodes.{IsHoldProof, Refuses};

use crate::barrier::Barrier;
use std::alloc::Global;
use tv_cert::Proof;
use tv_cover::{Emptied, empty};
use tv_farkas::CoverFault;
use tv_lexrank::{known_at, narrow_tree};
use tv_points::bare_proof;

/// The proof at the location itself, where no integer point meets the rows that are known there.
fn empty_proof(alloc: Global, barrier: &Barrier) -> Result<Proof, CoverFault>
    ensures shows { IfOk result (IsHoldProof barrier.now barrier.now.location) }
    ensures refusals { IfErr result (Refuses barrier.now) }
{
    let rows = known_at(&barrier.known.pieces, barrier.location);
    match empty(alloc, rows, barrier.about.variables(), barrier.budget) {
        Ok(Emptied::Tree(cover)) => {
            narrow_tree(cover.tree());
            Ok(Proof::Covered(cover))
        }
        Ok(Emptied::Whole(_)) => unreachable!(),
        Err(fault) => Err(fault),
    }
}

/// The proof at a location.
pub fn hold_proof(alloc: Global, barrier: &Barrier, location: u32) -> Result<Proof, CoverFault>
    requires { location < (cases_of barrier.now.about.now).locations }
    ensures shows { IfOk result (IsHoldProof barrier.now location) }
    ensures refusals { IfErr result (Refuses barrier.now) }
{
    if location != barrier.location {
        return Ok(bare_proof(alloc));
    }
    match empty_proof(alloc, barrier) {
        Ok(proof) => Ok(proof),
        Err(fault) => Err(fault),
    }
}
