//! One step along a run, with the numbers of an `i128`.

ghost use Rattle.std.specs.Prelude.{◌≡◌, ◌<◌, true, false, length, slice_get, Some, MatchOption, MatchResult};
ghost use Rattle.tv_program.specs.Programs.{system_of};
ghost use Rattle.tv_cases.specs.LinearCases.{LinearCase};
ghost use Rattle.tv_cases.specs.Systems.{cases_of};
ghost use Rattle.tv_cases.specs.Views.{case_view};
ghost use Rattle.tv_sound.specs.Following.{Spot, TakesAt, offered, onward};
ghost use Rattle.tv_trace.specs.Steps.{IsStepFault, AreCasesOf, Ends, IsEnabled, values_next, IsAt, StandsAt};
ghost use Rattle.tv_trace.specs.Widths.{way_is_held, case_is_held, step_is_held};

use crate::choosing::end_at;
use crate::fault::StepFault;
use crate::offers::proof_at;
use crate::shown::Shown;
use crate::sums::values_at;
use std::alloc::Global;
use tv_cases::{Case, Cases};
use tv_cert::{Marked, Proof, Take};
use tv_edges::edge_of;
use tv_exec::{ExecFault, exec_values};
use tv_linear::ChoiceTree;
use tv_program::Program;

/// What a run is followed in: a program and its cases, and the pieces of a node with a proof for each.
#[derive(Clone, Copy)]
pub(crate) struct Course<'a> {
    pub program: &'a Program,
    pub about: &'a Cases,
    pub pieces: &'a [Marked],
    pub proofs: &'a [Proof],
}

/// A state on a run, and the choice that is offered there.
#[derive(Drop)]
pub(crate) struct Here<'a> {
    pub proof: &'a Proof,
    pub state: Shown,
}

/// The case with a number.
fn case_at(about: &Cases, number: u32) -> &Case
    requires { number < length (cases_of about.now).cases }
    ensures { slice_get (cases_of about.now).cases number ≡ Some (case_view result.now) }
{
    &about.list()[number as usize]
}

/// What the choice takes at the values; `None` where a number on the way down is not held.
fn take_at<'a>(proof: &'a Proof, values: &[i128]) -> Option<Take<'a>>
    requires { Ends proof.now values.now }
    ensures { (e : Ends proof.now values.now) → let held = way_is_held values.now e.tree in
        MatchOption result (held ≡ false)
        (λ take. (held ≡ true) × (take.taken ≡ e.number) × (take.target ≡ e.target) × (take.draws.now ≡ e.draws.items)) }
{
    match proof {
        Proof::Covered(_) => unreachable!(),
        Proof::Chosen(choice) => match end_at(choice.tree(), values) {
            None => None,
            Some(
                ChoiceTree::Take {
                    taken,
                    target,
                    fall,
                    draws,
                    refutations,
                },
            ) => Some(Take {
                taken: *taken,
                target: *target,
                fall: *fall,
                draws,
                refutations,
            }),
            Some(_) => unreachable!(),
        },
    }
}

/// The values after the commands of the edge that the case is from, with the values of the terms for its draws.
fn values_after(
    alloc: Global,
    course: &Course,
    take: &Take,
    values: &[i128],
) -> Result<Vec<i128>, StepFault>
    requires cases { AreCasesOf (system_of course.now.program.now) (cases_of course.now.about.now) }
    requires enabled { (c : LinearCase) × IsEnabled (cases_of course.now.about.now) values.now take.now.taken take.now.draws.now c }
    ensures { let system = cases_of course.now.about.now in
        let draws = take.now.draws.now in
        let held = case_is_held (system_of course.now.program.now) take.now.taken values.now draws in
        (c : LinearCase) → IsEnabled system values.now take.now.taken draws c →
        MatchResult result (λ v. (held ≡ true) × (v.items ≡ values_next system values.now draws c)) (IsStepFault held) }
{
    let drawn = values_at(alloc, take.draws, values)?;
    let edge = edge_of(course.program, take.taken);
    match exec_values(alloc, course.program, edge, values, &drawn) {
        Ok(next) => Ok(next),
        Err(ExecFault::Blocked) => unreachable!(),
        Err(ExecFault::Wide) => Err(StepFault::Wide),
        Err(ExecFault::Memory) => Err(StepFault::Memory),
    }
}

/// The next state, and the choice that is offered there.
pub(crate) fn next<'a>(
    alloc: Global,
    course: &Course<'a>,
    here: &Here<'a>,
) -> Result<Here<'a>, StepFault>
    requires cases { AreCasesOf (system_of course.now.program.now) (cases_of course.now.about.now) }
    requires stands { let all = offered course.now.pieces.now course.now.proofs.now in
        StandsAt (cases_of course.now.about.now) all here.now.proof.now here.now.state }
    ensures { let system = cases_of course.now.about.now in
        let all = offered course.now.pieces.now course.now.proofs.now in
        (s : Spot) → IsAt here.now.proof.now here.now.state s → TakesAt system all s →
        let held = step_is_held (system_of course.now.program.now) s in
        MatchResult result (λ next. (held ≡ true) × IsAt next.proof.now next.state (onward system all s)) (IsStepFault held) }
{
    let now = here.state.values.as_slice();
    let take = match take_at(here.proof, now) {
        None => return Err(StepFault::Wide),
        Some(take) => take,
    };
    match values_after(alloc, course, &take, now) {
        Err(fault) => Err(fault),
        Ok(values) => {
            let location = case_at(course.about, take.taken).to;
            Ok(Here {
                proof: proof_at(course.pieces, course.proofs, location, take.target),
                state: Shown { location, values },
            })
        }
    }
}
