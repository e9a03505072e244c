ghost use Rattle.std.specs.Prelude.{◌≡◌, ◌-◌, ◌<◌, ◌^◌, length, IfOk, IfErr};
ghost use Rattle.tv_program.specs.Programs.{system_of};
ghost use Rattle.tv_cases.specs.Systems.{cases_of};
ghost use Rattle.tv_cases.specs.Answers.{IsOfProgram, HaveSameSteps};
ghost use Rattle.tv_cert.specs.Claims.{claim_variables};
ghost use Rattle.tv_check_text.specs.Texts.{IsUnaccepted};
ghost use Rattle.tv_top.specs.Accepted.{IsAcceptedClaim};

use std::alloc::Global;
use tv_cases::Cases;
use tv_cert::Claim;
use tv_check_text::{Accepted, TextFailing, check_text};
use tv_program::Program;

/// Checks the text of a certificate of what is claimed of the program, with the cases of the program, while it is read: `Ok` where all
/// its obligations are met, and else the first line at fault, or the first obligation that is not met.
pub(crate) fn check_claim_text(
    alloc: Global,
    program: &Program,
    about: &Cases,
    claim: &Claim,
    text: &[u8],
) -> Result<Accepted, TextFailing>
    requires same_program { IsOfProgram (system_of program.now) (cases_of about.now) }
    requires same_steps { HaveSameSteps (system_of program.now) (cases_of about.now) }
    requires variables { claim_variables claim.now ≡ (cases_of about.now).variables }
    requires bounded { length text.now < 2 ^ 32 - 1 }
    // The property holds at every initial state, or it fails at the values.
    ensures accepted { IfOk result (λ a. IsAcceptedClaim (system_of program.now) (cases_of about.now) claim.now text.now a) }
    ensures refused { IfErr result (λ f. IsUnaccepted (cases_of about.now) claim.now text.now f) }
{
    check_text(alloc, text, about, claim)
}
