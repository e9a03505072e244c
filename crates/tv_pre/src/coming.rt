// Pieces from which steps lead by falls of the ranks to the end.

ghost use Rattle.std.specs.Prelude.{◌≡◌, ◌≤◌, ◌⊎◌, ◌∷◌, false, ℕ, List, IfOk};
ghost use Rattle.std.specs.Result.{IfErr};
ghost use Rattle.tv_formula.specs.declared.tree.Path.TheVariants.{Every};
ghost use Rattle.tv_cases.specs.LinearCases.{CaseSteps};
ghost use Rattle.tv_cases.specs.Systems.{cases_of};
ghost use Rattle.tv_cert.specs.declared.node.Kind.TheVariants as kind;
ghost use Rattle.tv_cert.specs.declared.node.Marked.{Marked};
ghost use Rattle.tv_cert.specs.Claims.{about_with};
ghost use Rattle.tv_cert.specs.Obligations.{cover_of, steps_of, step_fall, hold_side, first_of, second_of};
ghost use Rattle.tv_known.specs.Rounds.{GoesInto, Goes};
ghost use Rattle.tv_region.specs.Regions.{IsPieceOf, IsRegion};
ghost use Rattle.tv_region.specs.StepRegions.{InState};
ghost use Rattle.tv_pre.specs.Pieces.{ArePieces, InPieces, AreMarked};
ghost use Rattle.tv_pre.specs.Inclusions.{OfPiece, LeadsTo};
ghost use Rattle.tv_pre.specs.Offers.{Adds, ShowsSuccessor};
ghost use Rattle.tv_pre.specs.Questions.{lies, chooses, IsRefusal, AsksSteps};
ghost use Rattle.tv_pre.specs.Growing.{IsEverywhere, come_of, AsksCome};
ghost use Rattle.tv_pre.specs.Ranked.{IsLayered};

use crate::atoms::{atom, whole_lists};
use crate::falls::{choice_falling, step_falling};
use crate::inside::choice_inside;
use crate::proving::{PieceProver, prove_cover};
use crate::{Setting, Test};
use std::alloc::{AllocError, Global};
use tv_cases::Cases;
use tv_cert::Proof;
use tv_farkas::CoverFault;
use tv_formula::{Path, Shape};
use tv_linear::{Choice, Piece, Region, push_item};

/// All states, by one piece without rows at each location.
pub(crate) fn everywhere(alloc: Global, about: &Cases) -> Result<Region, AllocError>
    ensures { IfOk result (IsEverywhere (cases_of about.now)) }
{
    let whole = whole_lists(alloc)?;
    let part = atom(alloc, about, &Test::Rows(&whole))?;
    Ok(part.region)
}

/// A choice that some step leads from each state of the piece.
pub(crate) fn successor(
    setting: &Setting,
    piece: &Piece,
    anywhere: &Region,
) -> Result<Choice, CoverFault>
    requires splits { setting.now.budget.now.splits ≤ 128 }
    requires piece { IsPieceOf (cases_of setting.now.about.now).variables (cases_of setting.now.about.now).locations piece.now }
    requires anywhere { IsEverywhere (cases_of setting.now.about.now) anywhere.now }
    requires goes { let about = cases_of setting.now.about.now in
        OfPiece about piece.now (Goes about) }
    ensures shows { IfOk result (ShowsSuccessor (cases_of setting.now.about.now) piece.now) }
    ensures refusals { let system = cases_of setting.now.about.now in
        IfErr result (IsRefusal system setting.now.budget.now (λ a. a ≡ chooses piece.now false anywhere.now.pieces.items)) }
{
    let _variables = setting.about.variables();
    match choice_inside(setting, piece, anywhere, false) {
        Err(fault) => Err(fault),
        Ok(choice) => Ok(choice),
    }
}

/// Adds a cover for each case from the location of a piece, each step from which leads into pieces that are done or have lesser ranks.
pub(crate) fn prove_falling_steps(
    setting: &Setting,
    piece: &Piece,
    into: &[Piece],
    done: &[Piece],
    proofs: &mut Vec<Proof>,
) -> Result<(), CoverFault>
    requires splits { setting.now.budget.now.splits ≤ 128 }
    requires piece { IsPieceOf (cases_of setting.now.about.now).variables (cases_of setting.now.about.now).locations piece.now }
    requires into { ArePieces (cases_of setting.now.about.now) into.now }
    requires stays { let about = cases_of setting.now.about.now in
        OfPiece about piece.now (LeadsTo about Every (InPieces into.now)) }
    ensures adds { let system = cases_of setting.now.about.now in
        IfOk result (λ _. (number : ℕ) (p : Marked) (all : List Marked) → IsLayered system.variables piece.now done.now into.now p all →
        Adds (steps_of number (about_with system) p all (step_fall (about_with system) p)) proofs.old.items proofs.new.items) }
    ensures refusals { let system = cases_of setting.now.about.now in
        IfErr result (IsRefusal system setting.now.budget.now (AsksSteps system piece.now into.now)) }
{
    let mut k = 0;
    'cases: while let Some(case) = setting.about.leaving(piece.location, k) {
        match step_falling(setting, piece, case, into, done) {
            Err(fault) => return Err(fault),
            Ok(cover) => push_item(proofs, Proof::Covered(cover))?,
        }
        k += 1;
    }
    Ok(())
}

/// Pieces that a round adds: they lie where the hold side holds, and go into the pieces of the rounds before.
#[derive(Drop)]
pub(crate) struct Round<'a> {
    pub path: Path,
    pub shape: Shape,
    pub hold: &'a Region,
    pub anywhere: &'a Region,
    pub earlier: &'a Region,
    pub done: &'a [Piece],
}

/// Adds the proofs that the steps from a piece lead into the pieces of the rounds before.
fn prove_coming(
    round: &Round,
    setting: &Setting,
    piece: &Piece,
    proofs: &mut Vec<Proof>,
) -> Result<(), CoverFault>
    requires splits { setting.now.budget.now.splits ≤ 128 }
    requires piece { IsPieceOf (cases_of setting.now.about.now).variables (cases_of setting.now.about.now).locations piece.now }
    requires anywhere { IsEverywhere (cases_of setting.now.about.now) round.now.anywhere.now }
    requires earlier { ArePieces (cases_of setting.now.about.now) round.now.earlier.now.pieces.items }
    requires goes { let about = cases_of setting.now.about.now in
        OfPiece about piece.now (GoesInto (CaseSteps about) round.now.path (InState round.now.earlier.now)) }
    ensures adds { let about = cases_of setting.now.about.now in
        let earlier = round.now.earlier.now.pieces.items in
        IfOk result (λ _. (number : ℕ) (p : Marked) (all : List Marked) → IsLayered about.variables piece.now round.now.done.now earlier p all →
        Adds (come_of about number round.now.path p all) proofs.old.items proofs.new.items) }
    ensures refusals { let about = cases_of setting.now.about.now in
        IfErr result (IsRefusal about setting.now.budget.now (AsksCome about round.now.path piece.now round.now.earlier.now.pieces.items)) }
{
    match round.path {
        Path::Every => {
            match successor(setting, piece, round.anywhere) {
                Err(fault) => return Err(fault),
                Ok(choice) => push_item(proofs, Proof::Chosen(choice))?,
            }
            match prove_falling_steps(setting, piece, &round.earlier.pieces, round.done, proofs) {
                Err(fault) => Err(fault),
                Ok(()) => Ok(()),
            }
        }
        Path::Any => match choice_falling(setting, piece, round.earlier, round.done) {
            Err(fault) => Err(fault),
            Ok(choice) => {
                push_item(proofs, Proof::Chosen(choice))?;
                Ok(())
            }
        },
    }
}

impl PieceProver for Round<'_> {
    ghost of = { λ s about q. IsPieceOf about.variables about.locations q
        × IsRegion about.variables about.locations s.hold.now × IsEverywhere about s.anywhere.now
        × ArePieces about s.earlier.now.pieces.items × OfPiece about q (InState s.hold.now)
        × OfPiece about q (GoesInto (CaseSteps about) s.path (InState s.earlier.now)) };

    ghost fits = { λ s about a p q. IsLayered about.variables q s.done.now s.earlier.now.pieces.items p a.pieces
        × AreMarked (hold_side s.shape (first_of a.kids) (second_of a.kids)) s.hold.now.pieces.items };

    ghost owes = { λ s about a p. let held = hold_side s.shape (first_of a.kids) (second_of a.kids) in
        cover_of a.number kind.Hold (about_with about) p held ∷ come_of about a.number s.path p a.pieces };

    ghost asks = { λ s about q a. (a ≡ lies q s.hold.now.pieces.items) ⊎ AsksCome about s.path q s.earlier.now.pieces.items a };

    fn prove(
        &self,
        setting: &Setting,
        piece: &Piece,
        proofs: &mut Vec<Proof>,
    ) -> Result<(), CoverFault> {
        match prove_cover(setting, piece, &self.hold.pieces, proofs) {
            Err(fault) => return Err(fault),
            Ok(()) => {}
        }
        match prove_coming(self, setting, piece, proofs) {
            Err(fault) => Err(fault),
            Ok(()) => Ok(()),
        }
    }
}
