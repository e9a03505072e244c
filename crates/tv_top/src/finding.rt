// What a search finds.

ghost use Rattle.std.specs.Prelude.{◌≡◌, ◌↔◌, ◌≤◌, Ok, IfOk, IsTrue, length};
ghost use Rattle.tv_program.specs.Programs.{system_of};
ghost use Rattle.tv_formula.specs.Formulas.{property_of, variables_of};
ghost use Rattle.tv_formula.specs.Parts.{HasParts};
ghost use Rattle.tv_formula.specs.Properties.{Property, term};
ghost use Rattle.tv_cases.specs.Answers.{IsOfProgram, HaveSameSteps};
ghost use Rattle.tv_cases.specs.ProgramCases.{linear_cases};
ghost use Rattle.tv_cases.specs.Systems.{cases_of};
ghost use Rattle.tv_cert.specs.Claims.{IsClaim, claim_variables, about_with, shown};
ghost use Rattle.tv_shape.specs.Certificates.{IsOf, IsSettling};
ghost use Rattle.tv_top.specs.Answers.{uncovered};
ghost use Rattle.tv_top.specs.Finding.{budget_of, offers_of, IsTextOf, TellsClaim, SaysVerdict, Settles, Finds};
ghost use Rattle.tv_top.specs.Searching.{IsOfOne, Answers};
ghost use Rattle.tv_top.specs.Views.{limits_of, wanted_view, task_view};

use crate::answer::Answer;
use crate::assignment::Assignment;
use crate::cause::Cause;
use crate::ending::ends;
use crate::excluded::excluded;
use crate::further::{looked_at, or_further};
use crate::limits::Limits;
use crate::making::count_lines;
use crate::paths::{or_over_paths, over_paths};
use crate::safety::safe;
use crate::search::Search;
use crate::system_fault::unsolved;
use crate::task::Task;
use crate::tracing::run_text;
use crate::wanted::Wanted;
use std::alloc::{AllocError, Global};
use tv_cases::Cases;
use tv_cert::{Claim, Verdict};
use tv_cert_spelling::write_certificate;
use tv_farkas::{Budget, CoverFault};
use tv_formula::{Formula, Tree};
use tv_program::Program;
use tv_propose::Proposer;
use tv_pruning::smaller;
use tv_rank::Name;
use tv_shape::Certificate;
use tv_sound::check_claim;

/// The answer where a question of integer points was not settled.
pub(crate) fn uncovered(fault: CoverFault) -> Answer
    ensures { result ≡ uncovered fault }
{
    match fault {
        CoverFault::Splits { path } => Answer::Unknown(Cause::Spent { path }),
        CoverFault::Solve { rows, fault } => unsolved(Name::Rows(rows), fault),
        CoverFault::Wide { column } => Answer::Unknown(Cause::Composed { column }),
        CoverFault::Memory => Answer::Memory,
    }
}

/// Whether the formula says that every run ends.
pub(crate) fn is_termination(formula: &Formula) -> bool
    ensures { IsTrue result ↔ (property_of formula.now ≡ term) }
{
    match formula.tree() {
        Tree::Term => true,
        _ => false,
    }
}

/// What is written after the verdict of the certificate.
fn text_of(alloc: Global, search: &Search, certificate: &Certificate) -> Result<Vec<u8>, AllocError>
    requires one { IsOfOne search.now }
    requires settling { IsSettling (cases_of search.now.about.now) search.now.claim.now certificate.now }
    ensures { let s = search.now in let wanted = wanted_view s.task.now.wanted in
        IfOk result (λ text. IsTextOf wanted (system_of s.program.now) (cases_of s.about.now) s.claim.now certificate.now text.items) }
{
    match search.task.wanted {
        Wanted::Nothing => Ok(Vec::new(alloc)),
        Wanted::Certificate => write_certificate(alloc, certificate),
        Wanted::Counts(loops) => {
            let cases = search.about.list().len() as u64;
            count_lines(alloc, loops.count, cases, certificate.obligations())
        }
        Wanted::Trace { count } => run_text(alloc, search, certificate, count),
    }
}

/// The certificate is checked, so that what it says is so.
fn ensure_met(search: &Search, certificate: &Certificate)
    requires one { IsOfOne search.now }
    requires settling { IsSettling (cases_of search.now.about.now) search.now.claim.now certificate.now }
    ensures { (f : Property) → IsClaim search.now.claim.now f →
        TellsClaim (system_of search.now.program.now) f (cases_of search.now.about.now) certificate.now }
{
    match check_claim(search.program, search.about, search.claim, certificate) {
        Ok(()) => {}
        Err(_) => unreachable!(),
    }
}

/// The answer of what a verdict says, with the text of its certificate.
fn verdict_answer(alloc: Global, program: &Program, verdict: &Verdict, text: Vec<u8>) -> Answer
    ensures { SaysVerdict (system_of program.now) verdict.now text.items result }
{
    match verdict {
        Verdict::Proved(_) => Answer::Proved(text),
        Verdict::Disproved { values, .. } => match Assignment::new(alloc, program, values) {
            Ok(at) => Answer::Disproved {
                at,
                certificate: text,
            },
            Err(_) => Answer::Memory,
        },
    }
}

/// The answer of this certificate, which settles what is claimed.
fn told_by(alloc: Global, search: &Search, certificate: &Certificate) -> Answer
    requires one { IsOfOne search.now }
    requires settling { IsSettling (cases_of search.now.about.now) search.now.claim.now certificate.now }
    ensures { (f : Property) → IsClaim search.now.claim.now f →
        Settles (wanted_view search.now.task.now.wanted) (system_of search.now.program.now) f (cases_of search.now.about.now) result }
{
    ensure_met(search, certificate);
    match text_of(alloc, search, certificate) {
        Ok(text) => verdict_answer(alloc, search.program, certificate.verdict(), text),
        Err(_) => Answer::Memory,
    }
}

/// The certificate, or a smaller one of the same where it is to be written.
fn shortened(
    alloc: Global,
    search: &Search,
    certificate: Certificate,
) -> Result<Certificate, AllocError>
    requires one { IsOfOne search.now }
    requires settling { IsSettling (cases_of search.now.about.now) search.now.claim.now certificate }
    ensures { IfOk result (IsSettling (cases_of search.now.about.now) search.now.claim.now) }
{
    match search.task.wanted {
        Wanted::Certificate => smaller(alloc, search.about, search.claim, certificate),
        _ => Ok(certificate),
    }
}

/// The answer of a certificate that settles what is claimed. Where it is to be written, the pieces that nothing enters are left out.
pub(crate) fn told(alloc: Global, search: &Search, certificate: Certificate) -> Answer
    requires one { IsOfOne search.now }
    requires settling { IsSettling (cases_of search.now.about.now) search.now.claim.now certificate }
    ensures { (f : Property) → IsClaim search.now.claim.now f →
        Settles (wanted_view search.now.task.now.wanted) (system_of search.now.program.now) f (cases_of search.now.about.now) result }
{
    match shortened(alloc, search, certificate) {
        Ok(found) => told_by(alloc, search, &found),
        Err(_) => Answer::Memory,
    }
}

/// How far a search goes.
pub(crate) fn budget_of(limits: &Limits) -> Budget
    ensures exact { result ≡ budget_of (limits_of limits.now) }
    ensures bounded { result.splits ≤ 128 }
{
    Budget {
        pivots: u64::from(limits.pivots),
        splits: limits.splits,
        disjuncts: limits.disjuncts,
    }
}

/// The answer to what is claimed, which is not that every run ends.
fn settle_other(alloc: Global, search: &Search, proposers: &mut Vec<Box<dyn Proposer>>) -> Answer
    requires one { IsOfOne search.now }
    requires other { property_of search.now.claim.now.proved ≡ term → ⊥ }
    ensures { (f : Property) → IsClaim search.now.claim.now f → HasParts f →
        Answers (offers_of (λ p. rest p) proposers.old.items) search.now f result }
{
    match excluded(search.claim.proved()) {
        Some(location) => {
            if location < search.about.locations() {
                safe(alloc, search, location, proposers)
            } else {
                over_paths(alloc, search)
            }
        }
        None => over_paths(alloc, search),
    }
}

/// The answer to what is claimed, by the search for its kind of property. A program with many cases is looked at by single states before rows
/// and regions are sought.
fn settle_once(alloc: Global, search: &Search, proposers: &mut Vec<Box<dyn Proposer>>) -> Answer
    requires { IsOfOne search.now }
    ensures { (f : Property) → IsClaim search.now.claim.now f → HasParts f →
        Answers (offers_of (λ p. rest p) proposers.old.items) search.now f result }
{
    if is_termination(search.claim.proved()) {
        return ends(alloc, search, proposers);
    }
    match looked_at(alloc, search) {
        Ok(Some(certificate)) => told(alloc, search, certificate),
        Ok(None) => settle_other(alloc, search, proposers),
        Err(_) => Answer::Memory,
    }
}

/// The answer to what is claimed.
fn settle(alloc: Global, search: &Search, proposers: &mut Vec<Box<dyn Proposer>>) -> Answer
    requires { IsOfOne search.now }
    ensures { (f : Property) → IsClaim search.now.claim.now f → HasParts f →
        Answers (offers_of (λ p. rest p) proposers.old.items) search.now f result }
{
    let answer = settle_once(alloc, search, proposers);
    let further = or_further(alloc, search, proposers, answer);
    or_over_paths(alloc, search, further)
}

/// The answer of a search to whether the program, with these cases, has the property.
pub fn find(
    alloc: Global,
    task: &Task,
    program: &Program,
    property: &Formula,
    about: &Cases,
    proposers: &mut Vec<Box<dyn Proposer>>,
) -> Answer
    requires variables { variables_of property.now ≡ length (system_of program.now).variables }
    requires parts { HasParts (property_of property.now) }
    requires same_program { IsOfProgram (system_of program.now) (cases_of about.now) }
    requires same_steps { HaveSameSteps (system_of program.now) (cases_of about.now) }
    requires are_cases { linear_cases (system_of program.now) ≡ Ok (cases_of about.now).cases }
    ensures { Finds (offers_of (λ p. rest p) proposers.old.items)
        (task_view task.now) (system_of program.now) (property_of property.now) (cases_of about.now) result }
{
    match Claim::new(alloc, property) {
        Ok(claim) => {
            let search = Search {
                task,
                program,
                about,
                claim: &claim,
            };
            settle(alloc, &search, proposers)
        }
        Err(_) => Answer::Memory,
    }
}
