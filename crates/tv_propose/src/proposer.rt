ghost use Rattle.std.specs.Prelude.{◌≡◌, ◌≤◌, ℕ, List, Option, IfOk, Ok, None};
ghost use Rattle.std.specs.Result.{IfErr};
ghost use Rattle.tv_cases.specs.LinearCases.{CaseSystem};
ghost use Rattle.tv_cases.specs.Systems.{cases_of};
ghost use Rattle.tv_candidates.specs.declared.candidate.Candidate.{Candidate};
ghost use Rattle.tv_propose.specs.Rests.{IsFewer, IsGiven};

use std::alloc::{AllocError, Global};
use tv_candidates::Candidate;
use tv_cases::Cases;

/// What offers candidates.
///
/// A proposer need not keep to the locations or the variables of the cases: whoever asks leaves out what does not fit.
pub trait Proposer: Drop {
    /// A bound on the number of candidates that are still to come.
    ghost left: { Self → ℕ };

    /// The candidates that are still to come for these cases, where the proposer reports them.
    ghost rest: { Self → CaseSystem → Option (List Candidate) };

    /// A bound on the number of candidates that are still to come.
    fn left(&self) -> u64
        ensures { result ≡ left self.now };

    /// The next candidate; `None` where there is none.
    fn next(&mut self, alloc: Global, about: &Cases) -> Result<Option<Candidate>, AllocError>
        ensures fewer { IfOk result (IsFewer (left self.old) (left self.new)) }
        ensures spent { left self.old ≡ 0 → result ≡ Ok None }
        ensures kept { IfErr result (λ _. left self.new ≤ left self.old) }
        ensures given { IfOk result (IsGiven (rest self.old (cases_of about.now)) (rest self.new (cases_of about.now))) };
}
