// What the checker says of parts that nobody has checked.

ghost use Rattle.std.specs.Prelude.{◌≡◌, IfOk, IfSome};
ghost use Rattle.std.specs.Bool.{OnTrue};
ghost use Rattle.tv_cases.specs.Systems.{cases_of};
ghost use Rattle.tv_cert.specs.Claims.{about_with, claim_variables, shown};
ghost use Rattle.tv_cert.specs.Nodes.{obligations};
ghost use Rattle.tv_cert.specs.Obligations.{AllMet};
ghost use Rattle.tv_shape.specs.Certificates.{IsOf, IsSettling};

use std::alloc::{AllocError, Global};
use tv_cases::Cases;
use tv_cert::{Claim, Node, Verdict};
use tv_check::check;
use tv_shape::{Certificate, ShapeFault};

/// Whether all obligations of the certificate are met.
fn is_met(about: &Cases, claim: &Claim, certificate: &Certificate) -> bool
    requires variables { claim_variables claim.now ≡ (cases_of about.now).variables }
    requires fits { IsOf (about_with (cases_of about.now)) (shown claim.now certificate.now.verdict) certificate.now }
    ensures { let system = cases_of about.now in
        let c = certificate.now in
        OnTrue result (AllMet (obligations (about_with system) (shown claim.now c.verdict) c.root c.verdict)) }
{
    let verdict = certificate.verdict();
    match check(about, claim.aim(verdict), certificate.root(), verdict) {
        Ok(()) => true,
        Err(_) => false,
    }
}

/// The certificate of this verdict and root where it fits the claim and the checker accepts it.
pub fn accepted(
    alloc: Global,
    about: &Cases,
    claim: &Claim,
    verdict: Verdict,
    root: Node,
) -> Result<Option<Certificate>, AllocError>
    requires variables { claim_variables claim.now ≡ (cases_of about.now).variables }
    ensures { IfOk result (λ found. IfSome found (IsSettling (cases_of about.now) claim.now)) }
{
    match Certificate::new(alloc, about, claim, verdict, root) {
        Err(ShapeFault::Memory) => Err(AllocError),
        Err(_) => Ok(None),
        Ok(certificate) => {
            if is_met(about, claim, &certificate) {
                Ok(Some(certificate))
            } else {
                Ok(None)
            }
        }
    }
}
