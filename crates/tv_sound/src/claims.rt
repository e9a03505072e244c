ghost use Rattle.std.specs.Prelude.{◌≡◌, OnOk};
ghost use Rattle.tv_program.specs.Programs.{system_of};
ghost use Rattle.tv_formula.specs.Normal.{normal};
ghost use Rattle.tv_formula.specs.Properties.{Property, term};
ghost use Rattle.tv_cases.specs.Systems.{cases_of};
ghost use Rattle.tv_cases.specs.Answers.{IsOfProgram, HaveSameSteps};
ghost use Rattle.tv_cert.specs.Claims.{IsClaim, about_with, claim_variables, shown};
ghost use Rattle.tv_cert.specs.Nodes.{obligations};
ghost use Rattle.tv_cert.specs.FirstFailing.{Checks};
ghost use Rattle.tv_shape.specs.Certificates.{IsOf};
ghost use Rattle.tv_sound.specs.Following.{FollowsFrom};
ghost use Rattle.tv_sound.specs.Settled.{IsSettled};

use tv_cases::Cases;
use tv_cert::{Claim, Failing};
use tv_check::check;
use tv_program::Program;
use tv_shape::Certificate;

/// Checks a certificate of what is claimed of the program, with the cases of the program: `Ok` where all its obligations are met, and
/// else the first that is not.
///
/// It takes no memory.
pub fn check_claim(
    program: &Program,
    about: &Cases,
    claim: &Claim,
    certificate: &Certificate,
) -> Result<(), Failing>
    requires same_program { IsOfProgram (system_of program.now) (cases_of about.now) }
    requires same_steps { HaveSameSteps (system_of program.now) (cases_of about.now) }
    requires variables { claim_variables claim.now ≡ (cases_of about.now).variables }
    requires fits { IsOf (about_with (cases_of about.now)) (shown claim.now certificate.now.verdict) certificate.now }
    ensures exact { let system = cases_of about.now in
        Checks (obligations (about_with system) (shown claim.now certificate.now.verdict) certificate.now.root certificate.now.verdict) result }
    // The property holds at every initial state, or it fails at the values.
    ensures settled { (f : Property) → IsClaim claim.now f → OnOk result (IsSettled (system_of program.now) f certificate.now.verdict) }
    // Where it is disproved that all runs end, the choices lead along an endless run.
    ensures followed { let system = cases_of about.now in
        (f : Property) → IsClaim claim.now f → normal f ≡ term →
        OnOk result (FollowsFrom (system_of program.now) system certificate.now.root certificate.now.verdict) }
{
    let verdict = certificate.verdict();
    check(about, claim.aim(verdict), certificate.root(), verdict)
}
