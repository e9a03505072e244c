// The proofs of the node of nested terms: one for each piece and each case from its location.

ghost use Rattle.std.specs.Prelude.{◌≡◌, ◌<◌, ◌≤◌, length, map, IfOk};
ghost use Rattle.std.specs.Result.{IfErr};
ghost use Rattle.tv_cases.specs.LinearCases.{leaving, from_of};
ghost use Rattle.tv_cases.specs.Systems.{cases_of};
ghost use Rattle.tv_places.specs.Places.{IsIndexOf};
ghost use Rattle.tv_nested.specs.NodePieces.{node_pieces, pieces_there};
ghost use Rattle.tv_nested.specs.NodeProofs.{IsStepProof, AreStepsShown, AreOffered, Offer};
ghost use Rattle.tv_nested.specs.Ranks.{AreRanked, HasPiece, RefusesRanking, signs_at};

use crate::NestFault;
use crate::ranking::Ranking;
use crate::showing::case_shown;
use crate::steps::step_cover;
use std::alloc::Global;
use tv_cert::Proof;
use tv_lexrank::starts_of;
use tv_linear::{Cover, push_item};
use tv_places::{Stand, count_of, index, place_at};

/// The proof of the step over a case from a piece.
fn step_proof(alloc: Global, ranking: &Ranking, number: u32, piece: u32) -> Result<Proof, NestFault>
    requires ranked { AreRanked ranking.now }
    requires number { number < length (cases_of ranking.now.about.now).cases }
    requires piece { HasPiece ranking.now number piece }
    ensures shows { IfOk result (IsStepProof ranking.now number piece) }
    ensures refusals { IfErr result (RefusesRanking ranking.now) }
{
    let shown = case_shown(alloc, ranking, number, piece)?;
    let tree = match step_cover(alloc, ranking, number, piece, &shown) {
        Ok(tree) => tree,
        Err(fault) => return Err(fault),
    };
    match Cover::new(tree) {
        Some(cover) => Ok(Proof::Covered(cover)),
        None => unreachable!(),
    }
}

/// Puts a proof for each case from a piece of a location at the end of the list.
fn push_steps(
    proofs: &mut Vec<Proof>,
    alloc: Global,
    ranking: &Ranking,
    stands: &[Stand],
    location: u32,
    piece: u32,
) -> Result<(), NestFault>
    requires ranked { AreRanked ranking.now }
    requires stands { IsIndexOf (map from_of (cases_of ranking.now.about.now).cases) stands.now }
    requires piece { piece ≤ length (signs_at ranking.now location) }
    ensures shown { let cases = leaving location (cases_of ranking.now.about.now).cases in
        IfOk result (λ _. AreStepsShown ranking.now location piece cases proofs.old.items proofs.new.items) }
    ensures refusals { IfErr result (RefusesRanking ranking.now) }
{
    'places: for place in 0..count_of(stands, location) {
        match place_at(stands, location, place) {
            Some(number) => match step_proof(alloc, ranking, number, piece) {
                Ok(proof) => push_item(proofs, proof)?,
                Err(fault) => return Err(fault),
            },
            None => unreachable!(),
        }
    }
    Ok(())
}

/// Puts the proofs that the pieces of a location owe at the end of the list.
fn push_proofs(
    proofs: &mut Vec<Proof>,
    alloc: Global,
    ranking: &Ranking,
    stands: &[Stand],
    location: u32,
) -> Result<(), NestFault>
    requires ranked { AreRanked ranking.now }
    requires stands { IsIndexOf (map from_of (cases_of ranking.now.about.now).cases) stands.now }
    requires location { location < (cases_of ranking.now.about.now).locations }
    ensures offered { IfOk result (λ _. AreOffered ranking.now (pieces_there ranking.now location) proofs.old.items proofs.new.items) }
    ensures refusals { IfErr result (RefusesRanking ranking.now) }
{
    'pieces: for piece in 0..ranking.sign_count(location) + 1 {
        match push_steps(proofs, alloc, ranking, stands, location, piece) {
            Ok(()) => {}
            Err(fault) => return Err(fault),
        }
    }
    Ok(())
}

/// The proofs that all pieces owe, location by location.
pub fn proofs_of(alloc: Global, ranking: &Ranking) -> Result<Vec<Proof>, NestFault>
    requires { AreRanked ranking.now }
    ensures offered { IfOk result (λ v. Offer ranking.now (node_pieces ranking.now (cases_of ranking.now.about.now).locations) v.items) }
    ensures refusals { IfErr result (RefusesRanking ranking.now) }
{
    let starts = starts_of(alloc, ranking.about.list())?;
    let stands = index(alloc, &starts)?;
    let mut proofs = Vec::new(alloc);
    'locations: for location in 0..ranking.about.locations() {
        match push_proofs(&mut proofs, alloc, ranking, &stands, location) {
            Ok(()) => {}
            Err(fault) => return Err(fault),
        }
    }
    Ok(proofs)
}
