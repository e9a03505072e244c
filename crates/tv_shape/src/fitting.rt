ghost use Rattle.std.specs.Prelude.{◌≡◌, ◌<◌, ◌^◌, MatchResult};
ghost use Rattle.tv_formula.specs.Properties.{Property};
ghost use Rattle.tv_cases.specs.Systems.{cases_of};
ghost use Rattle.tv_cert.specs.AimViews.{aim_states};
ghost use Rattle.tv_cert.specs.Nodes.{size};
ghost use Rattle.tv_cert.specs.Obligations.{About};
ghost use Rattle.tv_cert.specs.AboutSystem.{about_of};
ghost use Rattle.tv_cert.specs.Statements.{stated};
ghost use Rattle.tv_shape.specs.Fitting.{Fits, IsFirstFault, IsVerdictFault, VerdictFits, VerdictShallow};

use crate::fault::ShapeFault;
use crate::verdicts::{verdict_has_shape, verdict_is_shallow};
use crate::walking::walk;
use tv_cases::Cases;
use tv_cert::{Aim, Node, Pieces, Verdict};

/// What is at fault in the verdict over the pieces of the root.
fn look_at_verdict(about: &Cases, pieces: &Pieces, verdict: &Verdict) -> Result<(), ShapeFault>
    ensures { let system = cases_of about.now in
        MatchResult result
        (λ _. VerdictShallow verdict.now × VerdictFits (about_of system) pieces.now verdict.now)
        (IsVerdictFault (about_of system) pieces.now verdict.now) }
{
    if !verdict_is_shallow(verdict) {
        Err(ShapeFault::Deep { node: 0 })
    } else if !verdict_has_shape(about, pieces, verdict) {
        Err(ShapeFault::Shape { node: 0 })
    } else {
        Ok(())
    }
}

/// Whether a certificate fits the formula that its aim states, or its first fault.
///
/// It takes no memory.
pub fn look_through(
    about: &Cases,
    aim: &Aim,
    root: &Node,
    verdict: &Verdict,
) -> Result<(), ShapeFault>
    requires { size root.now < 2 ^ 32 }
    ensures { let states = aim_states aim.now in
        (of : About) → (f : Property) → of.system ≡ cases_of about.now → states ≡ stated of.tests f →
        MatchResult result (λ _. Fits of f root.now verdict.now) (IsFirstFault of f root.now verdict.now) }
{
    match walk(about, aim, 0, 1, root) {
        Err(fault) => Err(fault),
        Ok(_) => look_at_verdict(about, &root.pieces, verdict),
    }
}
