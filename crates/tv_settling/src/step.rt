// The proofs that cases lead into the known rows.

ghost use Rattle.std.specs.Prelude.{◌<◌, length, IfOk};
ghost use Rattle.std.specs.Result.{IfErr};
ghost use Rattle.tv_cases.specs.Systems.{cases_of};
ghost use Rattle.tv_settling.specs.Nodes.{IsStepProof, Refuses};

use crate::barrier::Barrier;
use std::alloc::Global;
use tv_cert::Proof;
use tv_farkas::CoverFault;
use tv_lexrank::{RankFault, closing, narrow_tree};

/// The proof that the case with a number leads into the known rows. None leads out of them.
pub fn step_proof(alloc: Global, barrier: &Barrier, number: u32) -> Result<Proof, CoverFault>
    requires { number < length (cases_of barrier.now.about.now).cases }
    ensures shows { IfOk result (IsStepProof barrier.now number) }
    ensures refusals { IfErr result (Refuses barrier.now) }
{
    match closing(alloc, barrier.about, barrier.known, number, barrier.budget) {
        Ok(cover) => {
            narrow_tree(cover.tree());
            Ok(Proof::Covered(cover))
        }
        Err(RankFault::Cover { fault }) => Err(fault),
        Err(RankFault::Memory) => Err(CoverFault::Memory),
        Err(RankFault::Open { .. }) => unreachable!(),
        Err(RankFault::Solve { .. }) => unreachable!(),
    }
}
