// The proofs of the node: for each location that its known states are not at the location, and that each case from there leads into the
// known rows.

ghost use Rattle.std.specs.Prelude.{◌<◌, map, IfOk};
ghost use Rattle.std.specs.Result.{IfErr};
ghost use Rattle.tv_cases.specs.LinearCases.{leaving, from_of};
ghost use Rattle.tv_cases.specs.Systems.{cases_of};
ghost use Rattle.tv_places.specs.Places.{IsIndexOf};
ghost use Rattle.tv_settling.specs.Nodes.{AreStepsShown, AreShownAt, AreShownBelow, Refuses};

use crate::barrier::Barrier;
use crate::hold::hold_proof;
use crate::step::step_proof;
use std::alloc::Global;
use tv_cert::Proof;
use tv_farkas::CoverFault;
use tv_lexrank::starts_of;
use tv_linear::push_item;
use tv_places::{Stand, count_of, index, place_at};

/// Puts a proof for each case from a location at the end of the list.
fn push_steps(
    proofs: &mut Vec<Proof>,
    alloc: Global,
    barrier: &Barrier,
    stands: &[Stand],
    location: u32,
) -> Result<(), CoverFault>
    requires { IsIndexOf (map from_of (cases_of barrier.now.about.now).cases) stands.now }
    ensures shown { let cases = leaving location (cases_of barrier.now.about.now).cases in
        IfOk result (λ _. AreStepsShown barrier.now location cases proofs.old.items proofs.new.items) }
    ensures refusals { IfErr result (Refuses barrier.now) }
{
    'places: for place in 0..count_of(stands, location) {
        match place_at(stands, location, place) {
            Some(number) => match step_proof(alloc, barrier, number) {
                Ok(proof) => push_item(proofs, proof)?,
                Err(fault) => return Err(fault),
            },
            None => unreachable!(),
        }
    }
    Ok(())
}

/// Puts the proofs of a location at the end of the list.
fn push_proofs(
    proofs: &mut Vec<Proof>,
    alloc: Global,
    barrier: &Barrier,
    stands: &[Stand],
    location: u32,
) -> Result<(), CoverFault>
    requires inside { location < (cases_of barrier.now.about.now).locations }
    requires stands { IsIndexOf (map from_of (cases_of barrier.now.about.now).cases) stands.now }
    ensures shown { IfOk result (λ _. AreShownAt barrier.now location proofs.old.items proofs.new.items) }
    ensures refusals { IfErr result (Refuses barrier.now) }
{
    match hold_proof(alloc, barrier, location) {
        Ok(proof) => push_item(proofs, proof)?,
        Err(fault) => return Err(fault),
    }
    match push_steps(proofs, alloc, barrier, stands, location) {
        Ok(()) => Ok(()),
        Err(fault) => Err(fault),
    }
}

/// The proofs of all locations, in order.
pub fn proofs_of(alloc: Global, barrier: &Barrier) -> Result<Vec<Proof>, CoverFault>
    ensures shown { IfOk result (λ v. AreShownBelow barrier.now (cases_of barrier.now.about.now).locations v.items) }
    ensures refusals { IfErr result (Refuses barrier.now) }
{
    let starts = starts_of(alloc, barrier.about.list())?;
    let stands = index(alloc, &starts)?;
    let mut proofs = Vec::new(alloc);
    'locations: for location in 0..barrier.about.locations() {
        match push_proofs(&mut proofs, alloc, barrier, &stands, location) {
            Ok(()) => {}
            Err(fault) => return Err(fault),
        }
    }
    Ok(proofs)
}
