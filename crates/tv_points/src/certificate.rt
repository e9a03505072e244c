// Certificates that a property is disproved.
ghost use Rattle.tv_shape.specs.Made.{IsFitted};
ghost use Rattle.std.specs.Prelude.{◌≡◌, IfOk, MatchResult, false, true};
ghost use Rattle.tv_formula.specs.Formulas.{property_of};
ghost use Rattle.tv_cases.specs.Systems.{cases_of};
ghost use Rattle.tv_cert.specs.Claims.{about_with, claim_variables};
ghost use Rattle.tv_cert.specs.Nodes.{pieces_of};
ghost use Rattle.tv_points.specs.States.{ComesTo, StartsAt};
ghost use Rattle.tv_points.specs.Lines.{IsLineFault};
ghost use Rattle.tv_points.specs.RunLines.{run_lines};
ghost use Rattle.tv_points.specs.Nodes.{reaches, IsInside, IsDisproof, DisprovesFirst};

use crate::fault::PointFault;
use crate::reaching::reaching_node;
use crate::state::State;
use crate::step::Step;
use std::alloc::{AllocError, Global};
use tv_cases::Cases;
use tv_cert::{Claim, Node, Verdict};
use tv_linear::widened;
use tv_shape::{Certificate, ShapeFault};

/// The certificate that a property fails at an initial state, made of a node that shows its negation and has the values in the piece at
/// this place of those at the start.
pub fn disproved_certificate(
    alloc: Global,
    about: &Cases,
    claim: &Claim,
    node: Node,
    piece: u32,
    values: Vec<i128>,
) -> Result<Certificate, AllocError>
    requires variables { claim_variables claim.now ≡ (cases_of about.now).variables }
    requires fitted { IsFitted (about_with (cases_of about.now)) (property_of claim.now.denied) 1 node }
    requires inside { IsInside (cases_of about.now) (pieces_of node) piece values.items }
    ensures { IfOk result (λ c. IsDisproof (cases_of about.now) (property_of claim.now.denied) values.items c) }
{
    let verdict = Verdict::Disproved { piece, values };
    match Certificate::new(alloc, about, claim, verdict, node) {
        Ok(certificate) => Ok(certificate),
        Err(ShapeFault::Memory) => Err(AllocError),
        Err(ShapeFault::Shape { .. }) => unreachable!(),
        Err(ShapeFault::Deep { .. }) => unreachable!(),
    }
}

/// The certificate that a run from the first of the states comes to the location, where the last of them is.
///
/// `Wide` comes as for `reaching_node`.
pub fn reaching_certificate(
    alloc: Global,
    about: &Cases,
    claim: &Claim,
    states: &[State],
    steps: &[Step],
    location: u32,
) -> Result<Certificate, PointFault>
    requires variables { claim_variables claim.now ≡ (cases_of about.now).variables }
    requires denied { property_of claim.now.denied ≡ reaches location }
    requires run { ComesTo (cases_of about.now) location states.now steps.now }
    requires starts { StartsAt (cases_of about.now) states.now }
    ensures { let cases = cases_of about.now in
        MatchResult result (DisprovesFirst cases (reaches location) states.now) (IsLineFault (run_lines cases true states.now 0 steps.now)) }
{
    let node = match reaching_node(alloc, about, states, steps, location) {
        Err(fault) => return Err(fault),
        Ok(node) => node,
    };
    let values = widened(alloc, &states[0].values)?;
    let certificate = disproved_certificate(alloc, about, claim, node, 0, values)?;
    Ok(certificate)
}
