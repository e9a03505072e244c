// The proofs at the pieces of a run.

ghost use Rattle.std.specs.Prelude.{◌≡◌, ◌+◌, ◌<◌, MatchResult, length, true, false};
ghost use Rattle.tv_cases.specs.Systems.{cases_of};
ghost use Rattle.tv_points.specs.States.{IsStepAt};
ghost use Rattle.tv_points.specs.Lines.{IsLineFault};
ghost use Rattle.tv_points.specs.Nodes.{lines_of_step, lines_of_steps, IsRunMade, AreStepsOf, IsStepProof, AreChoicesPushed, AreTwoPushed};

use crate::bare::bare_proof;
use crate::fault::PointFault;
use crate::pieces::place_among;
use crate::state::State;
use crate::step::Step;
use crate::taking::{Taking, take};
use std::alloc::Global;
use tv_cases::Cases;
use tv_cert::{Marked, Proof};
use tv_linear::push_item;

/// A run whose pieces are made.
#[derive(Drop)]
pub(crate) struct Run<'a> {
    pub about: &'a Cases,
    pub states: &'a [State],
    pub pieces: &'a [Marked],
    /// Whether it is to come to an end.
    pub ends: bool,
}

/// The choice that takes the step of the state at a place.
fn choice_at(alloc: Global, run: &Run, place: usize, step: &Step) -> Result<Proof, PointFault>
    requires made { IsRunMade run.now }
    requires leads { IsStepAt (cases_of run.now.about.now) run.now.states.now place step.now }
    requires falling { run.now.ends ≡ true → place < step.now.next }
    ensures { MatchResult result (IsStepProof run.now place step.now) (IsLineFault (lines_of_step run.now place step.now)) }
{
    let next = step.next as usize;
    let taking = Taking {
        about: run.about,
        state: &run.states[place],
        step,
        from: &run.pieces[place],
        into: &run.pieces[next],
        place: place_among(run.pieces, next),
        falls: run.ends,
    };
    match take(alloc, &taking) {
        Ok(choice) => Ok(Proof::Chosen(choice)),
        Err(fault) => Err(fault),
    }
}

/// Puts the choices of the steps from a place on at the end of the list.
pub(crate) fn push_choices(
    alloc: Global,
    run: &Run,
    place: usize,
    steps: &[Step],
    proofs: &mut Vec<Proof>,
) -> Result<(), PointFault>
    requires steps { AreStepsOf run.now place steps.now }
    requires endless { run.now.ends ≡ false }
    requires many { place + length steps.now ≡ length run.now.states.now }
    ensures { let pushed = AreChoicesPushed run.now place proofs.old.items proofs.new.items in
        MatchResult result (λ _. pushed) (IsLineFault (lines_of_steps run.now place steps.now)) }
{
    match steps {
        [] => Ok(()),
        [step, rest @ ..] => match choice_at(alloc, run, place, step) {
            Err(fault) => Err(fault),
            Ok(proof) => {
                push_item(proofs, proof)?;
                push_choices(alloc, run, place + 1, rest, proofs)
            }
        },
    }
}

/// Puts the two proofs at each piece from a place on at the end of the list: at the last two covers, and else a cover and the choice of the
/// step.
pub(crate) fn push_run(
    alloc: Global,
    run: &Run,
    place: usize,
    steps: &[Step],
    proofs: &mut Vec<Proof>,
) -> Result<(), PointFault>
    requires steps { AreStepsOf run.now place steps.now }
    requires ends { run.now.ends ≡ true }
    requires many { place + length steps.now + 1 ≡ length run.now.states.now }
    ensures { let pushed = AreTwoPushed run.now place proofs.old.items proofs.new.items in
        MatchResult result (λ _. pushed) (IsLineFault (lines_of_steps run.now place steps.now)) }
{
    match steps {
        [] => {
            push_item(proofs, bare_proof(alloc))?;
            push_item(proofs, bare_proof(alloc))?;
            Ok(())
        }
        [step, rest @ ..] => match choice_at(alloc, run, place, step) {
            Err(fault) => Err(fault),
            Ok(proof) => {
                push_item(proofs, bare_proof(alloc))?;
                push_item(proofs, proof)?;
                push_run(alloc, run, place + 1, rest, proofs)
            }
        },
    }
}
