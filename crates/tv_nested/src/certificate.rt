// The certificate that nested terms make.

ghost use Rattle.std.specs.Prelude.{◌≡◌, IfOk};
ghost use Rattle.tv_cases.specs.Systems.{cases_of};
ghost use Rattle.tv_formula.specs.Formulas.{property_of};
ghost use Rattle.tv_formula.specs.Properties.{term};
ghost use Rattle.tv_cert.specs.Claims.{claim_variables};
ghost use Rattle.tv_lexrank.specs.Certified.{IsProofOfEnd};
ghost use Rattle.tv_nested.specs.Nested.{IsNestedNode};

use std::alloc::{AllocError, Global};
use tv_cases::Cases;
use tv_cert::{Claim, Node};
use tv_lexrank::proved_certificate;
use tv_linear::Cover;
use tv_shape::Certificate;

/// The certificate that every run ends, made of the node and of the cover of the start.
pub fn nested_certificate(
    alloc: Global,
    about: &Cases,
    claim: &Claim,
    node: Node,
    start: Cover,
) -> Result<Certificate, AllocError>
    requires variables { claim_variables claim.now ≡ (cases_of about.now).variables }
    requires ends { property_of claim.now.proved ≡ term }
    requires nested { IsNestedNode (cases_of about.now) node start }
    ensures { IfOk result (IsProofOfEnd (cases_of about.now)) }
{
    proved_certificate(alloc, about, claim, node, start)
}
