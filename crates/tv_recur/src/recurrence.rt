ghost use Rattle.std.specs.Prelude.{◌≡◌, IfOk};
ghost use Rattle.tv_formula.specs.Formulas.{property_of};
ghost use Rattle.tv_cases.specs.Systems.{cases_of};
ghost use Rattle.tv_cert.specs.Claims.{claim_variables};
ghost use Rattle.tv_points.specs.Nodes.{endless, IsDisproof};
ghost use Rattle.tv_recur.specs.Recurring.{IsRecurrence};

use std::alloc::{AllocError, Global};
use tv_cases::Cases;
use tv_cert::{Claim, Node};
use tv_points::disproved_certificate;
use tv_shape::Certificate;

/// A run that never ends.
#[derive(Drop)]
pub struct Recurrence {
    /// It shows that from each state of its pieces some run never ends.
    pub root: Node,
    /// The place of a piece, among those at the start.
    pub piece: u32,
    /// The values of a state in this piece.
    pub values: Vec<i128>,
}

/// The certificate that some run never ends, from the values of the recurrence.
pub fn recurrence_certificate(
    alloc: Global,
    about: &Cases,
    claim: &Claim,
    recurrence: Recurrence,
) -> Result<Certificate, AllocError>
    requires variables { claim_variables claim.now ≡ (cases_of about.now).variables }
    requires denied { property_of claim.now.denied ≡ endless }
    requires recurrence { IsRecurrence (cases_of about.now) recurrence }
    ensures { IfOk result (λ c. IsDisproof (cases_of about.now) endless recurrence.values.items c) }
{
    let Recurrence {
        root,
        piece,
        values,
    } = recurrence;
    disproved_certificate(alloc, about, claim, root, piece, values)
}
