// The proofs of visits: one for each piece and each case from its location.

ghost use Rattle.std.specs.Prelude.{◌<◌, ◌∷◌, [], length, IfOk};
ghost use Rattle.std.specs.Result.{IfErr};
ghost use Rattle.tv_finitely.specs.Ranked.{split_in, system_of, AreRanked, RefusesStep};
ghost use Rattle.tv_finitely.specs.Proofs.{AreStepsOver, AreStepsOf, AreProofsBelow};
ghost use Rattle.tv_finitely.specs.Walks.{marked_at};

use crate::ranking::Ranking;
use crate::step::step_proof;
use std::alloc::Global;
use tv_cert::Proof;
use tv_lexrank::{RankFault, case_of};
use tv_linear::push_item;

/// Puts a proof for the case with a number at the end of the list, where it is from a location.
fn push_step(
    proofs: &mut Vec<Proof>,
    alloc: Global,
    ranking: &Ranking,
    location: u32,
    number: u32,
) -> Result<(), RankFault>
    requires ranked { AreRanked ranking.now }
    requires number { number < length (system_of ranking.now).cases }
    ensures shown { let m = marked_at (split_in ranking.now) number in
        IfOk result (λ _. AreStepsOver ranking.now location (m ∷ []) proofs.old.items proofs.new.items) }
    ensures refusals { IfErr result (RefusesStep ranking.now) }
{
    if case_of(&ranking.about.cases, number).from != location {
        return Ok(());
    }
    match step_proof(alloc, ranking, number) {
        Ok(proof) => {
            push_item(proofs, proof)?;
            Ok(())
        }
        Err(fault) => Err(fault),
    }
}

/// Puts a proof for each case from a location at the end of the list.
fn push_steps(
    proofs: &mut Vec<Proof>,
    alloc: Global,
    ranking: &Ranking,
    location: u32,
) -> Result<(), RankFault>
    requires ranked { AreRanked ranking.now }
    ensures shown { IfOk result (λ _. AreStepsOf ranking.now location proofs.old.items proofs.new.items) }
    ensures refusals { IfErr result (RefusesStep ranking.now) }
{
    let count = ranking.about.count();
    'cases: for number in 0..count {
        match push_step(proofs, alloc, ranking, location, number) {
            Ok(()) => {}
            Err(fault) => return Err(fault),
        }
    }
    Ok(())
}

/// The proofs of all pieces, in order.
pub fn proofs_of(alloc: Global, ranking: &Ranking) -> Result<Vec<Proof>, RankFault>
    requires ranked { AreRanked ranking.now }
    ensures shown { IfOk result (λ v. AreProofsBelow ranking.now (system_of ranking.now).locations v.items) }
    ensures refusals { IfErr result (RefusesStep ranking.now) }
{
    let mut proofs = Vec::new(alloc);
    'locations: for location in 0..ranking.about.cases.locations() {
        match push_steps(&mut proofs, alloc, ranking, location) {
            Ok(()) => {}
            Err(fault) => return Err(fault),
        }
    }
    Ok(proofs)
}
