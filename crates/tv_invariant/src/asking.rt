// What proposers offer.

ghost use Rattle.std.specs.Prelude.{◌≡◌, ◌≤◌, ◌∷◌, [], List, IfOk};
ghost use Rattle.std.specs.Result.{IfErr};
ghost use Rattle.tv_cases.specs.Systems.{cases_of};
ghost use Rattle.tv_candidates.specs.declared.candidate.Candidate.{Candidate};
ghost use Rattle.tv_candidates.specs.Offered.{fits, joined};
ghost use Rattle.tv_invariant.specs.Passes.{AreOver};
ghost use Rattle.tv_invariant.specs.Asking.{IsTold, Gave, AreTaken, HaveNoMore};

use std::alloc::{AllocError, Global};
use tv_candidates::Candidate;
use tv_cases::Cases;
use tv_linear::push_item;
use tv_propose::Proposer;

/// Whether the location and the columns of a candidate fit.
fn fits(about: &Cases, candidate: &Candidate) -> bool
    ensures { result ≡ fits (cases_of about.now) candidate.now }
{
    candidate.location < about.locations() && candidate.row.columns() == about.variables()
}

/// Puts a candidate at the end of the list, where it fits.
fn put(about: &Cases, candidate: Candidate, list: &mut Vec<Candidate>) -> Result<(), AllocError>
    requires over { AreOver (cases_of about.now).variables list.old.items }
    ensures put { IfOk result (λ _. AreTaken (cases_of about.now) list.old.items (candidate ∷ []) list.new.items) }
    ensures over { IfOk result (λ _. AreOver (cases_of about.now).variables list.new.items) }
{
    if fits(about, &candidate) {
        push_item(list, candidate)?;
    }
    Ok(())
}

/// Takes all that a proposer offers and that fits.
fn ask(
    alloc: Global,
    about: &Cases,
    proposer: &mut dyn Proposer,
    list: &mut Vec<Candidate>,
) -> Result<(), AllocError>
    requires over { AreOver (cases_of about.now).variables list.old.items }
    ensures given { let about = cases_of about.now in
        IfOk result (λ _. (given : List Candidate) × IsTold (rest proposer.old about) given × AreTaken about list.old.items given list.new.items) }
    ensures over { IfOk result (λ _. AreOver (cases_of about.now).variables list.new.items) }
    ensures spent { IfOk result (λ _. left proposer.new ≡ 0) }
    ensures fewer { left proposer.new ≤ left proposer.old }
{
    'offers: loop {
        match proposer.next(alloc, about)? {
            None => return Ok(()),
            Some(candidate) => put(about, candidate, list)?,
        }
    }
}

/// The same of a proposer in a box.
fn ask_box(
    alloc: Global,
    about: &Cases,
    proposer: &mut Box<dyn Proposer>,
    list: &mut Vec<Candidate>,
) -> Result<(), AllocError>
    requires over { AreOver (cases_of about.now).variables list.old.items }
    ensures given { let about = cases_of about.now in
        IfOk result (λ _. (given : List Candidate) × IsTold (rest proposer.old about) given × AreTaken about list.old.items given list.new.items) }
    ensures over { IfOk result (λ _. AreOver (cases_of about.now).variables list.new.items) }
    ensures spent { IfOk result (λ _. left proposer.new ≡ 0) }
    ensures fewer { left proposer.new ≤ left proposer.old }
{
    ask(alloc, about, &mut **proposer, list)
}

/// Takes all that proposers offer and that fits. Each is asked until it offers no more, and is dropped then.
pub fn ask_all(
    alloc: Global,
    about: &Cases,
    proposers: &mut Vec<Box<dyn Proposer>>,
    list: &mut Vec<Candidate>,
) -> Result<(), AllocError>
    requires over { AreOver (cases_of about.now).variables list.old.items }
    ensures given { let about = cases_of about.now in
        IfOk result (λ _. (lists : List (List Candidate)) × Gave (λ p. rest p about) proposers.old.items lists
        × AreTaken about list.old.items (joined lists) list.new.items) }
    ensures over { IfOk result (λ _. AreOver (cases_of about.now).variables list.new.items) }
    ensures asked { IfOk result (λ _. proposers.new.items ≡ []) }
    ensures kept { IfErr result (λ _. HaveNoMore (λ p. left p) proposers.old.items proposers.new.items) }
{
    'proposers: while proposers.len() > 0 {
        ask_box(alloc, about, &mut proposers[0], list)?;
        let _ = proposers.remove(0);
    }
    Ok(())
}
