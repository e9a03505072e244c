ghost use Rattle.std.specs.Prelude.{◌≡◌, ◌-◌, ◌<◌, ◌^◌, length, IfOk, IfErr, MatchResult};
ghost use Rattle.tv_cases.specs.Systems.{cases_of};
ghost use Rattle.tv_cert.specs.Claims.{about_with, claim_variables, shown};
ghost use Rattle.tv_shape.specs.Certificates.{IsOf};
ghost use Rattle.tv_shape.specs.Fitting.{Fits};
ghost use Rattle.tv_cert_reader.specs.Texts.{IsCertificateText, IsRefusedText, sides_of};
ghost use Rattle.tv_cert_reader.specs.Wholes.{ReadsAll};

use crate::context::Context;
use crate::cursor::Cursor;
use crate::failure::Failure;
use crate::number_line::NumberLine;
use crate::rows::numbers;
use crate::verdict::says_proved;
use std::alloc::Global;
use tv_cases::Cases;
use tv_cert::{Claim, Node, Verdict};
use tv_lines::Lines;
use tv_shape::{Certificate, ShapeFault};

impl Context<'_> {
    /// The nodes and the verdict of a certificate of what is claimed, whose lines these are.
    fn whole(&self, cursor: &mut Cursor, claim: &Claim) -> Result<(Node, Verdict), Failure>
        ensures { ReadsAll (cases_of self.now.about.now) (sides_of claim.now) cursor.old result }
    {
        numbers(self.alloc, cursor, NumberLine::Header, 0)?;
        if says_proved(self.alloc, cursor)? {
            self.proved(cursor, claim.proved_aim())
        } else {
            self.denied(cursor, claim.denied_aim())
        }
    }
}

/// The certificate of nodes that fit.
fn certified(
    alloc: Global,
    about: &Cases,
    claim: &Claim,
    root: Node,
    verdict: Verdict,
) -> Result<Certificate, Failure>
    requires variables { claim_variables claim.now ≡ (cases_of about.now).variables }
    requires fits { Fits (about_with (cases_of about.now)) (shown claim.now verdict) root verdict }
    ensures { let system = cases_of about.now in
        let property = shown claim.now verdict in
        MatchResult result
        (λ c. IsOf (about_with system) property c × (c.root ≡ root) × (c.verdict ≡ verdict))
        (λ f. f ≡ Failure.Memory) }
{
    match Certificate::new(alloc, about, claim, verdict, root) {
        Ok(certificate) => Ok(certificate),
        Err(ShapeFault::Memory) => Err(Failure::Memory),
        Err(ShapeFault::Shape { .. }) => unreachable!(),
        Err(ShapeFault::Deep { .. }) => unreachable!(),
    }
}

/// Reads the text of a certificate of what is claimed, over these cases: the certificate where the text is one, and else the first
/// line at fault.
pub fn read_certificate(
    alloc: Global,
    text: &[u8],
    about: &Cases,
    claim: &Claim,
) -> Result<Certificate, Failure>
    requires bounded { length text.now < 2 ^ 32 - 1 }
    requires variables { claim_variables claim.now ≡ (cases_of about.now).variables }
    // What is read is the certificate of the text.
    ensures found { IfOk result (λ c. IsCertificateText (cases_of about.now) claim.now text.now c) }
    // Else the text is one of no certificate, and the first line at fault is reported, unless memory runs out.
    ensures refused { IfErr result (λ fault. IsRefusedText (cases_of about.now) claim.now text.now fault) }
{
    let context = Context { alloc, about };
    let mut cursor = Cursor {
        lines: Lines::new(text),
        taken: 0,
    };
    let (root, verdict) = context.whole(&mut cursor, claim)?;
    certified(alloc, about, claim, root, verdict)
}
