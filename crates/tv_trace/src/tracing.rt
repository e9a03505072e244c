ghost use Rattle.std.specs.Prelude.{◌≡◌, Ok};
ghost use Rattle.tv_program.specs.Programs.{system_of};
ghost use Rattle.tv_cases.specs.Answers.{IsOfProgram};
ghost use Rattle.tv_cases.specs.ProgramCases.{linear_cases};
ghost use Rattle.tv_cases.specs.Systems.{cases_of};
ghost use Rattle.tv_shape.specs.Certificates.{IsSettling};
ghost use Rattle.tv_trace.specs.Tracing.{ClaimsEnd, IsDisproved, TracesFrom, AreRun, shown_states};

use crate::following::from_start;
use crate::shown::{Shown, TraceFault};
use crate::steps::Course;
use std::alloc::Global;
use tv_cases::Cases;
use tv_cert::{Claim, Verdict};
use tv_program::Program;
use tv_shape::Certificate;

/// The first `count` states of the endless run that a certificate leads along, where it is of the claim that all runs end, all its
/// obligations are met, and it says that this is disproved.
///
/// Each step is executed with numbers of an `i128`. `Wide` comes exactly at the first step on whose way a number leaves it, with the states
/// before that step: the value of a split row that is looked at, of a term that is drawn, or of a command of the edge.
pub fn trace(
    alloc: Global,
    program: &Program,
    about: &Cases,
    claim: &Claim,
    certificate: &Certificate,
    count: u32,
) -> Result<Vec<Shown>, TraceFault>
    requires same_program { IsOfProgram (system_of program.now) (cases_of about.now) }
    requires cases { linear_cases (system_of program.now) ≡ Ok (cases_of about.now).cases }
    requires settles { IsSettling (cases_of about.now) claim.now certificate.now }
    requires ends { ClaimsEnd claim.now }
    requires disproved { IsDisproved certificate.now.verdict }
    ensures traced { let c = certificate.now in
        TracesFrom (system_of program.now) (cases_of about.now) c.root c.verdict count result }
    // The states that are shown are a run.
    ensures run { AreRun (system_of program.now) (shown_states result) }
{
    let root = certificate.root();
    let course = Course {
        program,
        about,
        pieces: root.pieces.list(),
        proofs: &root.proofs,
    };
    match certificate.verdict() {
        Verdict::Proved(_) => unreachable!(),
        Verdict::Disproved { piece, values } => from_start(alloc, &course, *piece, values, count),
    }
}
