// The nodes of fixpoints that are to come to an end where all states are ranked.

ghost use Rattle.std.specs.Prelude.{◌≡◌, ◌≤◌, ◌⊎◌, [], ◌∷◌, true, IfOk};
ghost use Rattle.std.specs.Result.{IfErr};
ghost use Rattle.tv_formula.specs.declared.tree.Path.TheVariants.{Every};
ghost use Rattle.tv_formula.specs.Properties.{Property, fix, none, more};
ghost use Rattle.tv_cases.specs.LinearCases.{CaseSteps};
ghost use Rattle.tv_cases.specs.Systems.{cases_of};
ghost use Rattle.tv_cert.specs.declared.node.Kind.TheVariants as kind;
ghost use Rattle.tv_cert.specs.Claims.{about_with};
ghost use Rattle.tv_cert.specs.Nodes.{pieces_of};
ghost use Rattle.tv_cert.specs.Obligations.{cover_of, hold_side, first_of, second_of};
ghost use Rattle.tv_known.specs.Rounds.{GoesInto, must_end};
ghost use Rattle.tv_lexrank.specs.Nodes.{IsRankedBy};
ghost use Rattle.tv_lexrank.specs.Shown.{AreShown};
ghost use Rattle.tv_region.specs.Regions.{IsPieceOf, IsRegion};
ghost use Rattle.tv_region.specs.StepRegions.{InState};
ghost use Rattle.tv_pre.specs.Fixed.{AreOver, IsJoined};
ghost use Rattle.tv_pre.specs.Growing.{IsEverywhere, come_of, AsksCome};
ghost use Rattle.tv_pre.specs.Inclusions.{OfPiece};
ghost use Rattle.tv_pre.specs.Lowering.{IsPlaced};
ghost use Rattle.tv_pre.specs.Parts.{IsPart, AreParts, joined_pieces};
ghost use Rattle.tv_pre.specs.Pieces.{ArePieces, InPieces, AreMarked};
ghost use Rattle.tv_pre.specs.Questions.{lies, IsRefusal};
ghost use Rattle.tv_pre.specs.RankedUntil.{AreComing, ShowsComing, AsksComing};

use crate::coming::{everywhere, successor};
use crate::ends::{Ends, hold_of};
use crate::joining::joined;
use crate::marking::push_marked;
use crate::plain::part_of;
use crate::proving::{PieceProver, prove_all, prove_cover};
use crate::ranked_marking::push_ranked;
use crate::ranked_steps::prove_ranked_steps;
use crate::{Part, RankedCases, Setting, Sides};
use tv_cert::{Mark, Node, Proof};
use tv_farkas::CoverFault;
use tv_formula::Shape;
use tv_linear::{Piece, Region, push_item};

/// Pieces that lie where the hold side holds, and go into pieces that are done or have lesser ranks.
#[derive(Drop)]
struct Ranked<'a> {
    shape: Shape,
    hold: &'a Region,
    anywhere: &'a Region,
    done: &'a [Piece],
    own: &'a [Piece],
    ranking: &'a RankedCases<'a>,
}

impl PieceProver for Ranked<'_> {
    ghost of = { λ s about q. IsPieceOf about.variables about.locations q
        × IsRegion about.variables about.locations s.hold.now × IsEverywhere about s.anywhere.now × ArePieces about s.own.now
        × AreShown about [] (pieces_of s.ranking.now.node.now) s.ranking.now.shown.now
        × OfPiece about q (InState s.hold.now) × OfPiece about q (GoesInto (CaseSteps about) Every (InPieces s.own.now)) };

    ghost fits = { λ s about a p q. IsPlaced (pieces_of s.ranking.now.node.now) q s.done.now s.own.now p a.pieces
        × AreMarked (hold_side s.shape (first_of a.kids) (second_of a.kids)) s.hold.now.pieces.items };

    ghost owes = { λ s about a p. let held = hold_side s.shape (first_of a.kids) (second_of a.kids) in
        cover_of a.number kind.Hold (about_with about) p held ∷ come_of about a.number Every p a.pieces };

    ghost asks = { λ s about q a. (a ≡ lies q s.hold.now.pieces.items) ⊎ AsksCome about Every q s.own.now a };

    fn prove(
        &self,
        setting: &Setting,
        piece: &Piece,
        proofs: &mut Vec<Proof>,
    ) -> Result<(), CoverFault> {
        match prove_cover(setting, piece, &self.hold.pieces, proofs) {
            Err(fault) => return Err(fault),
            Ok(()) => {}
        }
        match successor(setting, piece, self.anywhere) {
            Err(fault) => return Err(fault),
            Ok(choice) => push_item(proofs, Proof::Chosen(choice))?,
        }
        match prove_ranked_steps(setting, self.ranking, piece, self.own, self.done, proofs) {
            Err(fault) => Err(fault),
            Ok(()) => Ok(()),
        }
    }
}

/// The proofs of pieces that are done and of pieces that go on, over whose steps the ranks fall.
fn ranked_proofs(
    setting: &Setting,
    sides: &Sides,
    done: &[Piece],
    onward: &[Piece],
    own: &[Piece],
    ranking: &RankedCases,
) -> Result<Vec<Proof>, CoverFault>
    requires splits { setting.now.budget.now.splits ≤ 128 }
    requires path { sides.now.path ≡ Every }
    requires shape { must_end sides.now.shape ≡ true }
    requires sides { AreOver (cases_of setting.now.about.now) sides.now }
    requires done { ArePieces (cases_of setting.now.about.now) done.now }
    requires onward { ArePieces (cases_of setting.now.about.now) onward.now }
    requires own { ArePieces (cases_of setting.now.about.now) own.now }
    requires coming { AreComing (cases_of setting.now.about.now) sides.now done.now onward.now own.now }
    requires ranked { IsRankedBy (cases_of setting.now.about.now) [] ranking.now.node.now ranking.now.shown.now }
    ensures shows { let ranked = pieces_of ranking.now.node.now in
        IfOk result (λ v. ShowsComing (cases_of setting.now.about.now) sides.now ranked done.now onward.now own.now v.items) }
    ensures refusals { let about = cases_of setting.now.about.now in
        IfErr result (IsRefusal about setting.now.budget.now (AsksComing about sides.now done.now onward.now own.now)) }
{
    let mut proofs = Vec::new(setting.alloc);
    let ends = Ends {
        shape: sides.shape,
        first: sides.first,
        second: sides.second,
    };
    match prove_all(setting, &ends, done, &mut proofs) {
        Err(fault) => return Err(fault),
        Ok(()) => {}
    }
    let anywhere = everywhere(setting.alloc, setting.about)?;
    let goes_on = Ranked {
        shape: sides.shape,
        hold: hold_of(sides),
        anywhere: &anywhere,
        done,
        own,
        ranking,
    };
    match prove_all(setting, &goes_on, onward, &mut proofs) {
        Err(fault) => Err(fault),
        Ok(()) => Ok(proofs),
    }
}

/// The part of an until or a strong until over every run, where all states are ranked: states that are done, where all end sides hold, and
/// states that go on.
///
/// Those that go on lie where the hold side holds. Each step from them, and there is one, leads into the one or the other, and lowers the
/// ranks. The region has the pieces that are done and then the others. A refusal is of a question whether a piece lies in the region of a
/// side, or how its steps lead.
pub fn ranked_until(
    setting: &Setting,
    sides: &Sides,
    children: Vec<Node>,
    done: Region,
    onward: Region,
    ranking: &RankedCases,
) -> Result<Part, CoverFault>
    requires splits { setting.now.budget.now.splits ≤ 128 }
    requires path { sides.now.path ≡ Every }
    requires shape { must_end sides.now.shape ≡ true }
    requires sides { AreOver (cases_of setting.now.about.now) sides.now }
    requires done { IsRegion (cases_of setting.now.about.now).variables (cases_of setting.now.about.now).locations done }
    requires onward { IsRegion (cases_of setting.now.about.now).variables (cases_of setting.now.about.now).locations onward }
    requires coming { let own = joined_pieces (done ∷ onward ∷ []) in
        AreComing (cases_of setting.now.about.now) sides.now done.pieces.items onward.pieces.items own }
    requires ranked { IsRankedBy (cases_of setting.now.about.now) [] ranking.now.node.now ranking.now.shown.now }
    ensures region { IfOk result (λ part. IsJoined (cases_of setting.now.about.now) (done ∷ onward ∷ []) part.region) }
    ensures part { let about = cases_of setting.now.about.now in
        let regions = sides.now.first.now ∷ sides.now.second.now ∷ [] in
        IfOk result (λ part. (f g : Property) → AreParts about (more f (more g none)) regions children.items →
        IsPart about (fix Every sides.now.shape f g) part.region part.node) }
    ensures refusals { let about = cases_of setting.now.about.now in
        let own = joined_pieces (done ∷ onward ∷ []) in
        IfErr result (IsRefusal about setting.now.budget.now (AsksComing about sides.now done.pieces.items onward.pieces.items own)) }
{
    let alloc = setting.alloc;
    let first: &[Piece] = &done.pieces;
    let count = first.len();
    let own = joined(done, onward)?;
    let list: &[Piece] = &own.pieces;
    let (done, onward) = list.split_at(count);
    let proofs = match ranked_proofs(setting, sides, done, onward, list, ranking) {
        Err(fault) => return Err(fault),
        Ok(proofs) => proofs,
    };
    let variables = setting.about.variables();
    let mut pieces = Vec::new(alloc);
    push_marked(alloc, variables, done, Mark::Done, &[], &mut pieces)?;
    push_ranked(alloc, variables, ranking.node, onward, &mut pieces)?;
    let ranks = ranking.node.ranks;
    Ok(part_of(alloc, own, pieces, ranks, children, proofs)?)
}
