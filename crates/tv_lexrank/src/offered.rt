// The proofs of the node of a ranking: one for each case, by the locations where they start.

ghost use Rattle.std.specs.Prelude.{◌≡◌, ◌<◌, length, map, IfOk};
ghost use Rattle.std.specs.Result.{IfErr};
ghost use Rattle.tv_cases.specs.LinearCases.{leaving, from_of};
ghost use Rattle.tv_cases.specs.Systems.{cases_of};
ghost use Rattle.tv_cases.specs.Views.{case_views};
ghost use Rattle.tv_places.specs.Places.{IsIndexOf};
ghost use Rattle.tv_lexrank.specs.Steps.{AreRanked, ShowsEach, RefusesStep};
ghost use Rattle.tv_lexrank.specs.Offered.{IsStepProof, AreStepsShown, AreShownBelow};

use crate::ranking::Ranking;
use crate::step::step_cover;
use crate::{CaseShown, RankFault};
use std::alloc::{AllocError, Global};
use tv_cases::Case;
use tv_cert::Proof;
use tv_linear::{Cover, push_item};
use tv_places::{Stand, count_of, index, place_at};

/// The proof of the step over a case.
fn step_proof(
    alloc: Global,
    ranking: &Ranking,
    shown: &[CaseShown],
    number: u32,
) -> Result<Proof, RankFault>
    requires ranked { AreRanked ranking.now }
    requires shown { ShowsEach ranking.now shown.now }
    requires number { number < length (cases_of ranking.now.about.now).cases }
    ensures shows { IfOk result (λ p. IsStepProof ranking.now number p) }
    ensures refusals { IfErr result (RefusesStep ranking.now) }
{
    let tree = match step_cover(alloc, ranking, number, &shown[number as usize]) {
        Ok(tree) => tree,
        Err(fault) => return Err(fault),
    };
    match Cover::new(tree) {
        Some(cover) => Ok(Proof::Covered(cover)),
        None => unreachable!(),
    }
}

/// Puts a proof for each case from a location at the end of the list.
fn push_steps(
    proofs: &mut Vec<Proof>,
    alloc: Global,
    ranking: &Ranking,
    shown: &[CaseShown],
    stands: &[Stand],
    location: u32,
) -> Result<(), RankFault>
    requires ranked { AreRanked ranking.now }
    requires shown { ShowsEach ranking.now shown.now }
    requires stands { IsIndexOf (map from_of (cases_of ranking.now.about.now).cases) stands.now }
    ensures shown { let cases = leaving location (cases_of ranking.now.about.now).cases in
        IfOk result (λ _. AreStepsShown ranking.now location cases proofs.old.items proofs.new.items) }
    ensures refusals { IfErr result (RefusesStep ranking.now) }
{
    'places: for place in 0..count_of(stands, location) {
        match place_at(stands, location, place) {
            Some(number) => match step_proof(alloc, ranking, shown, number) {
                Ok(proof) => push_item(proofs, proof)?,
                Err(fault) => return Err(fault),
            },
            None => unreachable!(),
        }
    }
    Ok(())
}

/// The locations where the cases start, in order.
pub fn starts_of(alloc: Global, list: &[Case]) -> Result<Vec<u32>, AllocError>
    ensures { IfOk result (λ v. v.items ≡ map from_of (case_views list.now)) }
{
    let mut starts = Vec::with_capacity(alloc, list.len())?;
    'cases: for case in list {
        push_item(&mut starts, case.from)?;
    }
    Ok(starts)
}

/// The proofs for all cases, by the locations where they start.
pub fn proofs_of(
    alloc: Global,
    ranking: &Ranking,
    shown: &[CaseShown],
) -> Result<Vec<Proof>, RankFault>
    requires ranked { AreRanked ranking.now }
    requires shown { ShowsEach ranking.now shown.now }
    ensures shown { IfOk result (λ v. AreShownBelow ranking.now (cases_of ranking.now.about.now).locations v.items) }
    ensures refusals { IfErr result (RefusesStep ranking.now) }
{
    let starts = starts_of(alloc, ranking.about.list())?;
    let stands = index(alloc, &starts)?;
    let mut proofs = Vec::new(alloc);
    'locations: for location in 0..ranking.about.locations() {
        match push_steps(&mut proofs, alloc, ranking, shown, &stands, location) {
            Ok(()) => {}
            Err(fault) => return Err(fault),
        }
    }
    Ok(proofs)
}
