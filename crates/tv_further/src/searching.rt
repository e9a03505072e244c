// The searches, one after another.

ghost use Rattle.std.specs.Prelude.{◌≡◌, IfOk, IfSome};
ghost use Rattle.tv_cases.specs.Systems.{cases_of};
ghost use Rattle.tv_cert.specs.Claims.{claim_variables};
ghost use Rattle.tv_shape.specs.Certificates.{IsSettling};

use crate::answer::Further;
use crate::formulas::ranked_regions::RankedRegions;
use crate::limits::FIRST_GRAPHS;
use std::alloc::{AllocError, Global};
use tv_candidates::Candidate;
use tv_cases::Cases;
use tv_cert::Claim;
use tv_sound::accepted;
use tv_walks::{
    Attempt, Budget, ClosedCycles, Effort, ExplicitGraph, Question, Search, Spent, Walks,
};

/// Adds what was spent besides.
fn add(spent: &mut Spent, more: Spent) {
    spent.states = spent.states.saturating_add(more.states);
    spent.calls = spent.calls.saturating_add(more.calls);
}

/// What one search finds and the checker accepts, and what it took besides what was spent before.
fn found_by<S: Search>(
    search: &S,
    question: &Question,
    claim: &Claim,
    spent: &mut Spent,
) -> Result<Option<Further>, AllocError>
    requires variables { claim_variables claim.now ≡ (cases_of question.now.about.now).variables }
    ensures { IfOk result (λ found. IfSome found (λ f. IsSettling (cases_of question.now.about.now) claim.now f.certificate)) }
{
    let mut effort = Effort::of(question.budget.calls);
    let attempt = search.attempt(question, &mut effort)?;
    add(spent, effort.spent(question.budget));
    let Some(Attempt { verdict, root }) = attempt else {
        return Ok(None);
    };
    match accepted(question.alloc, question.about, claim, verdict, root)? {
        None => Ok(None),
        Some(certificate) => Ok(Some(Further {
            certificate,
            by: search.name(),
            spent: *spent,
        })),
    }
}

/// What is found by single states.
fn by_states(question: &Question, claim: &Claim) -> Result<Option<Further>, AllocError>
    requires variables { claim_variables claim.now ≡ (cases_of question.now.about.now).variables }
    ensures { IfOk result (λ found. IfSome found (λ f. IsSettling (cases_of question.now.about.now) claim.now f.certificate)) }
{
    let mut spent = Spent {
        states: 0,
        calls: 0,
    };
    let search = ExplicitGraph {
        graphs: FIRST_GRAPHS,
    };
    found_by(&search, question, claim, &mut spent)
}

/// What is found by the searches that make no claim but that they end: the first of them, in their order.
fn first_found(question: &Question, claim: &Claim) -> Result<Option<Further>, AllocError>
    requires variables { claim_variables claim.now ≡ (cases_of question.now.about.now).variables }
    ensures { IfOk result (λ found. IfSome found (λ f. IsSettling (cases_of question.now.about.now) claim.now f.certificate)) }
{
    let mut spent = Spent {
        states: 0,
        calls: 0,
    };
    let graphs = ExplicitGraph { graphs: usize::MAX };
    if let Some(found) = found_by(&graphs, question, claim, &mut spent)? {
        return Ok(Some(found));
    }
    if let Some(found) = found_by(&RankedRegions, question, claim, &mut spent)? {
        return Ok(Some(found));
    }
    if let Some(found) = found_by(&ClosedCycles, question, claim, &mut spent)? {
        return Ok(Some(found));
    }
    found_by(&Walks, question, claim, &mut spent)
}

/// Which searches are made.
#[derive(Clone, Copy)]
enum Reach {
    /// The search of single states alone.
    States,
    All,
}

/// What the searches find of the claim.
fn reached(
    alloc: Global,
    about: &Cases,
    claim: &Claim,
    known: &[Candidate],
    budget: &Budget,
    reach: Reach,
) -> Result<Option<Further>, AllocError>
    requires variables { claim_variables claim.now ≡ (cases_of about.now).variables }
    ensures { IfOk result (λ found. IfSome found (λ f. IsSettling (cases_of about.now) claim.now f.certificate)) }
{
    let question = Question::of(alloc, about, claim, known, budget)?;
    match reach {
        Reach::States => by_states(&question, claim),
        Reach::All => first_found(&question, claim),
    }
}

/// A certificate of the claim that a further search finds and the checker accepts: that of the first search that finds one.
///
/// The known rows may be put into its pieces: they are of use where they hold whenever a run is at their location, and do no harm where
/// they do not. Nothing is promised of when there is a certificate. It depends on the program, the claim, the rows and the budget alone.
pub fn further(
    alloc: Global,
    about: &Cases,
    claim: &Claim,
    known: &[Candidate],
    budget: &Budget,
) -> Result<Option<Further>, AllocError>
    requires variables { claim_variables claim.now ≡ (cases_of about.now).variables }
    ensures { IfOk result (λ found. IfSome found (λ f. IsSettling (cases_of about.now) claim.now f.certificate)) }
{
    reached(alloc, about, claim, known, budget, Reach::All)
}

/// The same by a few graphs of single states alone.
pub fn look(
    alloc: Global,
    about: &Cases,
    claim: &Claim,
    budget: &Budget,
) -> Result<Option<Further>, AllocError>
    requires variables { claim_variables claim.now ≡ (cases_of about.now).variables }
    ensures { IfOk result (λ found. IfSome found (λ f. IsSettling (cases_of about.now) claim.now f.certificate)) }
{
    reached(alloc, about, claim, &[], budget, Reach::States)
}
