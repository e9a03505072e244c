// The greatest inductive part of a list.

ghost use Rattle.std.specs.Prelude.{◌≡◌, List, ◌≤◌, IfOk};
ghost use Rattle.std.specs.Result.{IfErr};
ghost use Rattle.tv_cases.specs.Systems.{cases_of};
ghost use Rattle.tv_candidates.specs.declared.candidate.Candidate.{Candidate};
ghost use Rattle.tv_candidates.specs.Inductive.{IsLargestInductive};
ghost use Rattle.tv_invariant.specs.Passes.{AreOver};
ghost use Rattle.tv_invariant.specs.Falling.{IsLeft, IsRefusal};

use crate::passes::{Tries, pass};
use crate::reached::met_at;
use crate::start::begin;
use crate::walks::walks;
use std::alloc::Global;
use tv_candidates::Candidate;
use tv_cases::Cases;
use tv_farkas::{Budget, CoverFault};

/// The candidates, in order, of the greatest inductive part of a list: their rows at the start hold at all whole values, and each
/// case keeps them.
///
/// Those that some state at the start, or on one of some runs, does not meet are taken out, and then again and again those that some
/// case does not keep, until a pass over the cases takes none out (the algorithm of Houdini: Flanagan and Leino, 2001). A case is tried
/// again only where candidates fell where it leaves, and an integer point that throws a candidate out is tried on the others before a cover
/// is asked for.
pub fn largest_inductive(
    alloc: Global,
    about: &Cases,
    candidates: Vec<Candidate>,
    budget: &Budget,
) -> Result<Vec<Candidate>, CoverFault>
    requires over { AreOver (cases_of about.now).variables candidates.items }
    requires splits { budget.now.splits ≤ 128 }
    ensures largest { IfOk result (λ part. IsLargestInductive (cases_of about.now) candidates.items part.items) }
    ensures order { IfOk result (λ part. IsLeft (cases_of about.now) candidates.items part.items) }
    ensures refusals { IfErr result (IsRefusal (cases_of about.now) candidates.items budget.now.pivots budget.now.splits) }
{
    let begun = begin(alloc, about, candidates)?;
    let mut now = met_at(alloc, about, &walks(alloc, about)?, begun)?;
    let mut tries = Tries {
        open: vec![in alloc; true; about.list().len()]?,
        memory: Vec::new(alloc),
    };
    'passes: loop {
        let before = now.len();
        match pass(alloc, about, now, &mut tries, budget) {
            Err(fault) => return Err(fault),
            Ok(kept) => now = kept,
        }
        if now.len() == before {
            return Ok(now);
        }
    }
}
