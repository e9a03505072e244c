//! The first states of a run that is followed.

ghost use Rattle.std.specs.Prelude.{◌++◌, ◌∷◌, []};
ghost use Rattle.tv_program.specs.Programs.{system_of};
ghost use Rattle.tv_cases.specs.Systems.{cases_of};
ghost use Rattle.tv_sound.specs.Following.{Spot, offered, onward};
ghost use Rattle.tv_trace.specs.Steps.{AreCasesOf, IsAt, TakesOn, IsFollowed, FollowsAt, IsStop};
ghost use Rattle.tv_trace.specs.Tracing.{Traces};

use crate::fault::StepFault;
use crate::offers::proof_at;
use crate::shown::{Shown, TraceFault};
use crate::steps::{Course, Here, next};
use std::alloc::Global;
use tv_cert::Proof;

/// What comes of a fault of the step from the last of the states.
fn stopped(fault: StepFault, mut before: Vec<Shown>, last: Shown) -> TraceFault
    ensures { IsStop fault (before.items ++ last ∷ []) result }
{
    match fault {
        StepFault::Memory => TraceFault::Memory,
        StepFault::Wide => match before.push(last) {
            Ok(()) => TraceFault::Wide { shown: before },
            Err(_) => TraceFault::Memory,
        },
    }
}

/// The first `count` states of the run from a state at which a choice is offered.
fn run<'a>(
    alloc: Global,
    course: &Course<'a>,
    proof: &'a Proof,
    state: Shown,
    count: u32,
) -> Result<Vec<Shown>, TraceFault>
    requires cases { AreCasesOf (system_of course.now.program.now) (cases_of course.now.about.now) }
    requires followed { IsFollowed (cases_of course.now.about.now) (offered course.now.pieces.now course.now.proofs.now) proof.now state }
    ensures { let system = cases_of course.now.about.now in
        let all = offered course.now.pieces.now course.now.proofs.now in
        (s : Spot) → IsAt proof.now state s → TakesOn system all s →
        Traces (system_of course.now.program.now) (onward system all) s count result }
{
    let mut shown = Vec::new(alloc);
    if count == 0 {
        return Ok(shown);
    }
    let mut here = Here { proof, state };
    'steps: for _ in 0..count - 1 {
        match next(alloc, course, &here) {
            Ok(further) => {
                let Here { proof: _, state } = here;
                shown.push(state)?;
                here = further;
            }
            Err(fault) => {
                let Here { proof: _, state } = here;
                return Err(stopped(fault, shown, state));
            }
        }
    }
    let Here { proof: _, state } = here;
    shown.push(state)?;
    Ok(shown)
}

/// The first `count` states of the run from these values at the start, in the piece that is named of those there.
pub(crate) fn from_start(
    alloc: Global,
    course: &Course,
    piece: u32,
    values: &[i128],
    count: u32,
) -> Result<Vec<Shown>, TraceFault>
    requires cases { AreCasesOf (system_of course.now.program.now) (cases_of course.now.about.now) }
    requires followed { let all = offered course.now.pieces.now course.now.proofs.now in
        FollowsAt (system_of course.now.program.now) (cases_of course.now.about.now) all piece values.now }
    ensures { let p = system_of course.now.program.now in
        let system = cases_of course.now.about.now in
        let all = offered course.now.pieces.now course.now.proofs.now in
        (f : FollowsAt p system all piece values.now) → Traces p (onward system all) f.first count result }
{
    let proof = proof_at(course.pieces, course.proofs, course.about.start(), piece);
    let values = Vec::from_slice(alloc, values)?;
    let location = course.program.start();
    run(alloc, course, proof, Shown { location, values }, count)
}
