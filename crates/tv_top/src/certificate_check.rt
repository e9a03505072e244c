ghost use Rattle.std.specs.Prelude.{◌≡◌, ◌-◌, ◌<◌, ◌^◌, length};
ghost use Rattle.tv_program.specs.Programs.{system_of};
ghost use Rattle.tv_formula.specs.Formulas.{property_of, variables_of};
ghost use Rattle.tv_formula.specs.Properties.{Property};
ghost use Rattle.tv_cases.specs.Answers.{IsOfProgram, HaveSameSteps};
ghost use Rattle.tv_cases.specs.Systems.{cases_of};
ghost use Rattle.tv_cert.specs.Claims.{IsClaim, claim_variables};
ghost use Rattle.tv_top.specs.Answers.{without_certificate};
ghost use Rattle.tv_top.specs.CertificateChecks.{AnswersCheck, Says};

use crate::accepting::check_claim_text;
use crate::answer::Answer;
use crate::assignment::Assignment;
use std::alloc::Global;
use tv_cases::Cases;
use tv_cert::Claim;
use tv_check_text::{Accepted, TextFailing};
use tv_formula::Formula;
use tv_program::Program;

/// The answer for a text that is not accepted as a certificate.
fn without_certificate(failing: TextFailing) -> Answer
    ensures { result ≡ without_certificate failing }
{
    match failing {
        TextFailing::Line(_, line) => Answer::CertificateLine(line),
        TextFailing::Obligation(failing) => Answer::Obligation(failing),
        TextFailing::Memory => Answer::Memory,
    }
}

/// The answer for what a certificate says all of whose obligations are met.
fn accepted_answer(alloc: Global, program: &Program, accepted: &Accepted) -> Answer
    ensures { Says (system_of program.now) accepted.now.proved accepted.now.values.items result }
{
    if accepted.proved {
        return Answer::Proved(Vec::new(alloc));
    }
    match Assignment::new(alloc, program, &accepted.values) {
        Ok(at) => Answer::Disproved {
            at,
            certificate: Vec::new(alloc),
        },
        Err(_) => Answer::Memory,
    }
}

/// The answer to whether the text is a certificate of what is claimed, over the cases of the program, whose obligations are met.
fn settle(alloc: Global, program: &Program, claim: &Claim, about: &Cases, text: &[u8]) -> Answer
    requires variables { claim_variables claim.now ≡ (cases_of about.now).variables }
    requires same_program { IsOfProgram (system_of program.now) (cases_of about.now) }
    requires same_steps { HaveSameSteps (system_of program.now) (cases_of about.now) }
    requires bounded { length text.now < 2 ^ 32 - 1 }
    ensures { (f : Property) → IsClaim claim.now f → AnswersCheck (system_of program.now) f (cases_of about.now) text.now result }
{
    match check_claim_text(alloc, program, about, claim, text) {
        Ok(accepted) => accepted_answer(alloc, program, &accepted),
        Err(failing) => without_certificate(failing),
    }
}

/// The answer to whether the text is a certificate of the property, over the cases of the program, whose obligations are met.
pub fn check_certificate(
    alloc: Global,
    program: &Program,
    property: &Formula,
    about: &Cases,
    text: &[u8],
) -> Answer
    requires variables { variables_of property.now ≡ length (system_of program.now).variables }
    requires same_program { IsOfProgram (system_of program.now) (cases_of about.now) }
    requires same_steps { HaveSameSteps (system_of program.now) (cases_of about.now) }
    requires bounded { length text.now < 2 ^ 32 - 1 }
    ensures { AnswersCheck (system_of program.now) (property_of property.now) (cases_of about.now) text.now result }
{
    match Claim::new(alloc, property) {
        Ok(claim) => settle(alloc, program, &claim, about, text),
        Err(_) => Answer::Memory,
    }
}
