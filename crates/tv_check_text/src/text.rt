ghost use Rattle.std.specs.Prelude.{◌≡◌, ◌-◌, ◌<◌, ◌^◌, length, IfOk, IfErr};
ghost use Rattle.tv_cases.specs.Systems.{cases_of};
ghost use Rattle.tv_cert.specs.Claims.{claim_variables};
ghost use Rattle.tv_check_text.specs.Texts.{IsAcceptedText, IsAcceptedWith, IsUnaccepted, failing_of};

use crate::checker::Checker;
use crate::verdict::check_whole;
use std::alloc::Global;
use tv_cases::Cases;
use tv_cert::{Claim, Failing};
use tv_cert_reader::{Context, Cursor, Failure, LineKind, Walk};
use tv_lines::Lines;

/// Why the text is not accepted as a certificate. A fault at a line comes before an obligation that is not met.
#[derive(Clone, Copy, Debug, PartialEq, Eq)]
pub enum TextFailing {
    /// What is at fault at the first line that may not stand where it does, and its number, from 1.
    Line(LineKind, u32),
    /// The first obligation that is not met.
    Obligation(Failing),
    Memory,
}

/// What a certificate says all of whose obligations are met.
#[derive(Drop)]
pub struct Accepted {
    /// Whether the property is proved; else it is disproved.
    pub proved: bool,
    /// The values at which it is disproved, one for each variable; none where it is proved.
    pub values: Vec<i128>,
    /// How many obligations there are.
    pub obligations: u64,
}

/// Why a text is not accepted that is not read to its end.
fn failing_of(failure: Failure) -> TextFailing
    ensures { result ≡ failing_of failure }
{
    match failure {
        Failure::Fault(kind, line) => TextFailing::Line(kind, line),
        Failure::Memory => TextFailing::Memory,
    }
}

/// What is accepted with these values at which it is disproved, if it is.
fn accepted_with(alloc: Global, values: Option<Vec<i128>>, obligations: u64) -> Accepted
    ensures { IsAcceptedWith values obligations result }
{
    match values {
        None => Accepted {
            proved: true,
            values: Vec::new(alloc),
            obligations,
        },
        Some(values) => Accepted {
            proved: false,
            values,
            obligations,
        },
    }
}

/// Checks the text of a certificate of what is claimed, over these cases, while it is read. It holds the pieces of the nodes that are
/// not finished and of their children, the split rows on the path of a proof, and one line.
pub fn check_text(
    alloc: Global,
    text: &[u8],
    about: &Cases,
    claim: &Claim,
) -> Result<Accepted, TextFailing>
    requires bounded { length text.now < 2 ^ 32 - 1 }
    requires variables { claim_variables claim.now ≡ (cases_of about.now).variables }
    // The text is that of a certificate all of whose obligations are met.
    ensures accepted { IfOk result (λ a. IsAcceptedText (cases_of about.now) claim.now text.now a) }
    // Else the first line at fault is reported, or the first obligation that is not met, unless memory runs out.
    ensures refused { IfErr result (λ f. IsUnaccepted (cases_of about.now) claim.now text.now f) }
{
    let context = Context { alloc, about };
    let cursor = Cursor {
        lines: Lines::new(text),
        taken: 0,
    };
    let mut walk = Walk {
        alloc,
        cursor,
        nodes: 0,
        taker: Checker {
            seen: 0,
            failing: None,
        },
        proofs: Vec::new(alloc),
        failure: None,
    };
    match check_whole(&context, &mut walk, claim) {
        Err(failure) => Err(failing_of(failure)),
        Ok(values) => match walk.taker.failing {
            Some(failing) => Err(TextFailing::Obligation(failing)),
            None => Ok(accepted_with(alloc, values, walk.taker.seen)),
        },
    }
}
