// The nodes of fixpoints that may hold for ever: weak until and release.

ghost use Rattle.std.specs.Prelude.{◌≡◌, ◌≤◌, ◌⊎◌, ℕ, List, [], ◌∷◌, false, IfOk};
ghost use Rattle.std.specs.Result.{IfErr};
ghost use Rattle.tv_formula.specs.Properties.{Property, fix, none, more};
ghost use Rattle.tv_cases.specs.LinearCases.{CaseSteps};
ghost use Rattle.tv_cases.specs.Systems.{cases_of};
ghost use Rattle.tv_cert.specs.declared.node.Kind.TheVariants as kind;
ghost use Rattle.tv_cert.specs.Claims.{about_with};
ghost use Rattle.tv_cert.specs.declared.node.Marked.{Marked};
ghost use Rattle.tv_cert.specs.Obligations.{cover_of, hold_side, first_of, second_of};
ghost use Rattle.tv_known.specs.Rounds.{StaysIn, must_end};
ghost use Rattle.tv_region.specs.Regions.{IsPieceOf, IsRegion};
ghost use Rattle.tv_region.specs.StepRegions.{InState};
ghost use Rattle.tv_pre.specs.Pieces.{ArePieces, IsMarked, AreMarked};
ghost use Rattle.tv_pre.specs.Inclusions.{OfPiece};
ghost use Rattle.tv_pre.specs.Offers.{Adds};
ghost use Rattle.tv_pre.specs.Questions.{lies, IsRefusal, AsksStay};
ghost use Rattle.tv_pre.specs.Around.{stay_of};
ghost use Rattle.tv_pre.specs.Fixed.{AreOver, IsJoined, AreStaying, ShowsStaying, AsksStaying};
ghost use Rattle.tv_pre.specs.Parts.{IsPart, AreParts, joined_pieces};

use crate::ends::{Ends, hold_of};
use crate::joining::joined;
use crate::marking::push_marked;
use crate::plain::part_of;
use crate::proving::{PieceProver, prove_all, prove_choice, prove_cover, prove_steps};
use crate::{Part, Setting, Sides};
use tv_cert::{Mark, Node, Proof};
use tv_farkas::CoverFault;
use tv_formula::{Path, Shape};
use tv_linear::{Piece, Region};

/// Adds the proofs that each step, or some step, leads from a piece into a region, or that none leads anywhere.
fn prove_stay(
    setting: &Setting,
    path: Path,
    piece: &Piece,
    own: &Region,
    proofs: &mut Vec<Proof>,
) -> Result<(), CoverFault>
    requires splits { setting.now.budget.now.splits ≤ 128 }
    requires piece { IsPieceOf (cases_of setting.now.about.now).variables (cases_of setting.now.about.now).locations piece.now }
    requires own { IsRegion (cases_of setting.now.about.now).variables (cases_of setting.now.about.now).locations own.now }
    requires stays { let about = cases_of setting.now.about.now in
        OfPiece about piece.now (StaysIn (CaseSteps about) path (InState own.now)) }
    ensures adds { let about = cases_of setting.now.about.now in
        IfOk result (λ _. (number : ℕ) (p : Marked) (ps : List Marked) → IsMarked p piece.now → AreMarked ps own.now.pieces.items →
        Adds (stay_of about number path p ps) proofs.old.items proofs.new.items) }
    ensures refusals { let about = cases_of setting.now.about.now in
        IfErr result (IsRefusal about setting.now.budget.now (AsksStay about path piece.now own.now.pieces.items)) }
{
    match path {
        Path::Every => match prove_steps(setting, piece, &own.pieces, proofs) {
            Err(fault) => Err(fault),
            Ok(()) => Ok(()),
        },
        Path::Any => match prove_choice(setting, piece, own, true, proofs) {
            Err(fault) => Err(fault),
            Ok(()) => Ok(()),
        },
    }
}

/// Pieces that go on: they lie where the hold side holds, and their steps stay in the node.
#[derive(Drop)]
struct Onward<'a> {
    path: Path,
    shape: Shape,
    hold: &'a Region,
    own: &'a Region,
}

impl PieceProver for Onward<'_> {
    ghost of = { λ s about q. IsPieceOf about.variables about.locations q
        × IsRegion about.variables about.locations s.hold.now × IsRegion about.variables about.locations s.own.now
        × OfPiece about q (InState s.hold.now) × OfPiece about q (StaysIn (CaseSteps about) s.path (InState s.own.now)) };

    ghost fits = { λ s about a p q. IsMarked p q × AreMarked (hold_side s.shape (first_of a.kids) (second_of a.kids)) s.hold.now.pieces.items
        × AreMarked a.pieces s.own.now.pieces.items };

    ghost owes = { λ s about a p. let held = hold_side s.shape (first_of a.kids) (second_of a.kids) in
        cover_of a.number kind.Hold (about_with about) p held ∷ stay_of about a.number s.path p a.pieces };

    ghost asks = { λ s about q a. (a ≡ lies q s.hold.now.pieces.items) ⊎ AsksStay about s.path q s.own.now.pieces.items a };

    fn prove(
        &self,
        setting: &Setting,
        piece: &Piece,
        proofs: &mut Vec<Proof>,
    ) -> Result<(), CoverFault> {
        match prove_cover(setting, piece, &self.hold.pieces, proofs) {
            Err(fault) => return Err(fault),
            Ok(()) => {}
        }
        match prove_stay(setting, self.path, piece, self.own, proofs) {
            Err(fault) => Err(fault),
            Ok(()) => Ok(()),
        }
    }
}

/// The proofs of pieces that are done and of pieces that go on, whose steps stay in a region.
fn staying_proofs(
    setting: &Setting,
    sides: &Sides,
    done: &[Piece],
    onward: &[Piece],
    own: &Region,
) -> Result<Vec<Proof>, CoverFault>
    requires splits { setting.now.budget.now.splits ≤ 128 }
    requires shape { must_end sides.now.shape ≡ false }
    requires sides { AreOver (cases_of setting.now.about.now) sides.now }
    requires done { ArePieces (cases_of setting.now.about.now) done.now }
    requires onward { ArePieces (cases_of setting.now.about.now) onward.now }
    requires own { IsRegion (cases_of setting.now.about.now).variables (cases_of setting.now.about.now).locations own.now }
    requires staying { AreStaying (cases_of setting.now.about.now) sides.now done.now onward.now own.now.pieces.items }
    ensures shows { IfOk result (λ v. ShowsStaying (cases_of setting.now.about.now) sides.now done.now onward.now own.now.pieces.items v.items) }
    ensures refusals { let about = cases_of setting.now.about.now in
        IfErr result (IsRefusal about setting.now.budget.now (AsksStaying about sides.now done.now onward.now own.now.pieces.items)) }
{
    let mut proofs = Vec::new(setting.alloc);
    let ends = Ends {
        shape: sides.shape,
        first: sides.first,
        second: sides.second,
    };
    match prove_all(setting, &ends, done, &mut proofs) {
        Err(fault) => return Err(fault),
        Ok(()) => {}
    }
    let goes_on = Onward {
        path: sides.path,
        shape: sides.shape,
        hold: hold_of(sides),
        own,
    };
    match prove_all(setting, &goes_on, onward, &mut proofs) {
        Err(fault) => Err(fault),
        Ok(()) => Ok(proofs),
    }
}

/// The part of a weak until or a release: states that are done, where all end sides hold, and states that go on.
///
/// Those that go on lie where the hold side holds. Each step from them, or some step where there is one, leads into the one or the other.
/// The region has the pieces that are done and then the others. A refusal is of a question whether a piece lies in the region of a side, or
/// how its steps lead.
pub fn weak(
    setting: &Setting,
    sides: &Sides,
    children: Vec<Node>,
    done: Region,
    onward: Region,
) -> Result<Part, CoverFault>
    requires splits { setting.now.budget.now.splits ≤ 128 }
    requires shape { must_end sides.now.shape ≡ false }
    requires sides { AreOver (cases_of setting.now.about.now) sides.now }
    requires done { IsRegion (cases_of setting.now.about.now).variables (cases_of setting.now.about.now).locations done }
    requires onward { IsRegion (cases_of setting.now.about.now).variables (cases_of setting.now.about.now).locations onward }
    requires staying { let own = joined_pieces (done ∷ onward ∷ []) in
        AreStaying (cases_of setting.now.about.now) sides.now done.pieces.items onward.pieces.items own }
    ensures region { IfOk result (λ part. IsJoined (cases_of setting.now.about.now) (done ∷ onward ∷ []) part.region) }
    ensures part { let about = cases_of setting.now.about.now in
        let regions = sides.now.first.now ∷ sides.now.second.now ∷ [] in
        IfOk result (λ part. (f g : Property) → AreParts about (more f (more g none)) regions children.items →
        IsPart about (fix sides.now.path sides.now.shape f g) part.region part.node) }
    ensures refusals { let about = cases_of setting.now.about.now in
        let own = joined_pieces (done ∷ onward ∷ []) in
        IfErr result (IsRefusal about setting.now.budget.now (AsksStaying about sides.now done.pieces.items onward.pieces.items own)) }
{
    let alloc = setting.alloc;
    let first: &[Piece] = &done.pieces;
    let count = first.len();
    let own = joined(done, onward)?;
    let list: &[Piece] = &own.pieces;
    let (done, onward) = list.split_at(count);
    let proofs = match staying_proofs(setting, sides, done, onward, &own) {
        Err(fault) => return Err(fault),
        Ok(proofs) => proofs,
    };
    let variables = setting.about.variables();
    let mut pieces = Vec::new(alloc);
    push_marked(alloc, variables, done, Mark::Done, &[], &mut pieces)?;
    push_marked(alloc, variables, onward, Mark::Go, &[], &mut pieces)?;
    Ok(part_of(alloc, own, pieces, 0, children, proofs)?)
}
