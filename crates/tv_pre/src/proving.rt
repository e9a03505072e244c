// Proofs of what the pieces of a node owe, in the order of the obligations.

ghost use Rattle.std.specs.Prelude.{◌≡◌, ◌≤◌, ℕ, List, [], ◌∷◌, All, IfOk};
ghost use Rattle.std.specs.Result.{IfErr};
ghost use Rattle.std.specs.List.{flat_map, AllZip};
ghost use Rattle.tv_formula.specs.declared.tree.Path.TheVariants.{Every};
ghost use Rattle.tv_linear.specs.declared.region.Piece.{Piece};
ghost use Rattle.tv_cases.specs.LinearCases.{CaseSystem};
ghost use Rattle.tv_cases.specs.Systems.{cases_of};
ghost use Rattle.tv_cert.specs.declared.node.Kind.{Kind};
ghost use Rattle.tv_cert.specs.declared.node.Marked.{Marked};
ghost use Rattle.tv_cert.specs.Claims.{about_with};
ghost use Rattle.tv_cert.specs.Obligations.{Obligation, cover_of, steps_of, choice_of, choice_into};
ghost use Rattle.tv_cert.specs.Targets.{no_fall};
ghost use Rattle.tv_region.specs.Regions.{IsPieceOf};
ghost use Rattle.tv_pre.specs.Pieces.{ArePieces, InPieces, IsMarked, AreMarked};
ghost use Rattle.tv_pre.specs.Inclusions.{OfPiece, LeadsTo, Chooses};
ghost use Rattle.tv_pre.specs.Offers.{Adds};
ghost use Rattle.tv_pre.specs.Questions.{Question, lies, chooses, IsRefusal, AsksSteps, AsksOf};
ghost use Rattle.tv_pre.specs.Around.{Around};

use crate::Setting;
use crate::inside::{choice_inside, cover_inside, step_inside};
use tv_cert::Proof;
use tv_farkas::CoverFault;
use tv_linear::{Piece, Region, push_item};

/// Adds a cover of a piece that lies in some pieces.
pub(crate) fn prove_cover(
    setting: &Setting,
    piece: &Piece,
    into: &[Piece],
    proofs: &mut Vec<Proof>,
) -> Result<(), CoverFault>
    requires splits { setting.now.budget.now.splits ≤ 128 }
    requires piece { IsPieceOf (cases_of setting.now.about.now).variables (cases_of setting.now.about.now).locations piece.now }
    requires into { ArePieces (cases_of setting.now.about.now) into.now }
    requires inside { OfPiece (cases_of setting.now.about.now) piece.now (InPieces into.now) }
    ensures adds { let about = about_with (cases_of setting.now.about.now) in
        IfOk result (λ _. (number : ℕ) (k : Kind) (p : Marked) (ps : List Marked) → IsMarked p piece.now → AreMarked ps into.now →
        Adds (cover_of number k about p ps ∷ []) proofs.old.items proofs.new.items) }
    ensures refusals { let system = cases_of setting.now.about.now in
        IfErr result (IsRefusal system setting.now.budget.now (λ a. a ≡ lies piece.now into.now)) }
{
    match cover_inside(setting, piece, into) {
        Err(fault) => Err(fault),
        Ok(cover) => {
            push_item(proofs, Proof::Covered(cover))?;
            Ok(())
        }
    }
}

/// Adds a choice at a piece. From each of its states a step leads into a region, or none leads on where `stop` allows that.
pub(crate) fn prove_choice(
    setting: &Setting,
    piece: &Piece,
    into: &Region,
    stop: bool,
    proofs: &mut Vec<Proof>,
) -> Result<(), CoverFault>
    requires splits { setting.now.budget.now.splits ≤ 128 }
    requires piece { IsPieceOf (cases_of setting.now.about.now).variables (cases_of setting.now.about.now).locations piece.now }
    requires into { ArePieces (cases_of setting.now.about.now) into.now.pieces.items }
    requires leads { OfPiece (cases_of setting.now.about.now) piece.now (Chooses (cases_of setting.now.about.now) stop into.now.pieces.items) }
    ensures adds { let about = about_with (cases_of setting.now.about.now) in
        IfOk result (λ _. (number : ℕ) (k : Kind) (p : Marked) (ps : List Marked) → IsMarked p piece.now → AreMarked ps into.now.pieces.items →
        Adds (choice_of number k about p stop (choice_into about ps (λ c draws. no_fall)) ∷ []) proofs.old.items proofs.new.items) }
    ensures refusals { let system = cases_of setting.now.about.now in
        IfErr result (IsRefusal system setting.now.budget.now (λ a. a ≡ chooses piece.now stop into.now.pieces.items)) }
{
    match choice_inside(setting, piece, into, stop) {
        Err(fault) => Err(fault),
        Ok(choice) => {
            push_item(proofs, Proof::Chosen(choice))?;
            Ok(())
        }
    }
}

/// Adds a cover for each case from the location of a piece, each step from which leads into some pieces.
pub(crate) fn prove_steps(
    setting: &Setting,
    piece: &Piece,
    into: &[Piece],
    proofs: &mut Vec<Proof>,
) -> Result<(), CoverFault>
    requires splits { setting.now.budget.now.splits ≤ 128 }
    requires piece { IsPieceOf (cases_of setting.now.about.now).variables (cases_of setting.now.about.now).locations piece.now }
    requires into { ArePieces (cases_of setting.now.about.now) into.now }
    requires stays { OfPiece (cases_of setting.now.about.now) piece.now (LeadsTo (cases_of setting.now.about.now) Every (InPieces into.now)) }
    ensures adds { let about = about_with (cases_of setting.now.about.now) in
        IfOk result (λ _. (number : ℕ) (p : Marked) (ps : List Marked) → IsMarked p piece.now → AreMarked ps into.now →
        Adds (steps_of number about p ps (λ c. no_fall)) proofs.old.items proofs.new.items) }
    ensures refusals { let system = cases_of setting.now.about.now in
        IfErr result (IsRefusal system setting.now.budget.now (AsksSteps system piece.now into.now)) }
{
    let mut k = 0;
    'cases: while let Some(case) = setting.about.leaving(piece.location, k) {
        match step_inside(setting, piece, case, into) {
            Err(fault) => return Err(fault),
            Ok(cover) => push_item(proofs, Proof::Covered(cover))?,
        }
        k += 1;
    }
    Ok(())
}

/// What each piece of a list owes, with proofs of it.
pub(crate) trait PieceProver {
    /// The pieces that are spoken of.
    ghost of: { Self → CaseSystem → Piece → Type 0 };

    /// What a node is made of, around a piece of it that is one of the list.
    ghost fits: { Self → CaseSystem → Around → Marked → Piece → Type 0 };

    /// What such a piece owes.
    ghost owes: { Self → CaseSystem → Around → Marked → List Obligation };

    /// What is asked of such a piece.
    ghost asks: { Self → CaseSystem → Piece → Question → Type 0 };

    /// Adds the proofs of what a piece owes.
    fn prove(
        &self,
        setting: &Setting,
        piece: &Piece,
        proofs: &mut Vec<Proof>,
    ) -> Result<(), CoverFault>
        requires splits { setting.now.budget.now.splits ≤ 128 }
        requires of { of self.now (cases_of setting.now.about.now) piece.now }
        ensures adds { let system = cases_of setting.now.about.now in
            IfOk result (λ _. (a : Around) (p : Marked) → fits self.now system a p piece.now →
            Adds (owes self.now system a p) proofs.old.items proofs.new.items) }
        ensures refusals { let system = cases_of setting.now.about.now in
            IfErr result (IsRefusal system setting.now.budget.now (asks self.now system piece.now)) };
}

/// Adds the proofs of what all pieces of a list owe.
pub(crate) fn prove_all<O: PieceProver>(
    setting: &Setting,
    prover: &O,
    pieces: &[Piece],
    proofs: &mut Vec<Proof>,
) -> Result<(), CoverFault>
    requires splits { setting.now.budget.now.splits ≤ 128 }
    requires of { All (O.of prover.now (cases_of setting.now.about.now)) pieces.now }
    ensures adds { let system = cases_of setting.now.about.now in
        IfOk result (λ _. (a : Around) (ps : List Marked) → AllZip (O.fits prover.now system a) ps pieces.now →
        Adds (flat_map (O.owes prover.now system a) ps) proofs.old.items proofs.new.items) }
    ensures refusals { let system = cases_of setting.now.about.now in
        IfErr result (IsRefusal system setting.now.budget.now (AsksOf (O.asks prover.now system) pieces.now)) }
{
    'pieces: for piece in pieces {
        match prover.prove(setting, piece, proofs) {
            Err(fault) => return Err(fault),
            Ok(()) => {}
        }
    }
    Ok(())
}
