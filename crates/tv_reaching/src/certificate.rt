// The certificate of a run.

ghost use Rattle.std.specs.Prelude.{◌≡◌, IfOk};
ghost use Rattle.std.specs.Result.{IfErr};
ghost use Rattle.tv_formula.specs.Formulas.{property_of};
ghost use Rattle.tv_cases.specs.Systems.{cases_of};
ghost use Rattle.tv_cert.specs.Claims.{claim_variables};
ghost use Rattle.tv_points.specs.Nodes.{reaches, IsDisproof};
ghost use Rattle.tv_reaching.specs.FoundRuns.{IsFoundRun, IsRunFault};

use crate::found::Found;
use crate::states::push_states;
use crate::steps::push_steps;
use std::alloc::Global;
use tv_cases::Cases;
use tv_cert::Claim;
use tv_linear::shortened;
use tv_points::{PointFault, State, reaching_certificate};
use tv_shape::Certificate;

/// The certificate that the run comes to its location from the values at the start.
///
/// `Wide` names the first variable whose value on the run is 2^62 or more in magnitude. Where there is none, it names the column of a line
/// of the certificate, as `reaching_certificate` does.
pub fn run_certificate(
    alloc: Global,
    about: &Cases,
    claim: &Claim,
    found: &Found,
) -> Result<Certificate, PointFault>
    requires variables { claim_variables claim.now ≡ (cases_of about.now).variables }
    requires denied { property_of claim.now.denied ≡ reaches found.now.location }
    requires run { IsFoundRun (cases_of about.now) found.now }
    ensures proved { IfOk result (IsDisproof (cases_of about.now) (reaches found.now.location) found.now.values.now) }
    ensures refusals { IfErr result (IsRunFault (cases_of about.now) found.now) }
{
    let first = State {
        location: about.start(),
        values: shortened(alloc, found.values)?,
    };
    let mut states = Vec::new(alloc);
    match push_states(alloc, about, found.path, found.draws, first, &mut states) {
        Err(fault) => return Err(fault),
        Ok(()) => {}
    }
    let mut steps = Vec::new(alloc);
    push_steps(alloc, found.path, found.draws, 0, &mut steps)?;
    reaching_certificate(alloc, about, claim, &states, &steps, found.location)
}
