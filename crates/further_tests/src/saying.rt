//! What the further searches say of a property.

ghost use Rattle.std.specs.Prelude.{◌≡◌, ◌<◌, ◌≤◌, ◌-◌, ◌^◌, length};
ghost use Rattle.tv_program.specs.Programs.{system_of};
ghost use Rattle.tv_cases.specs.Systems.{cases_of};
ghost use Rattle.tv_cert.specs.Claims.{claim_variables};
ghost use Rattle.tv_shape.specs.Certificates.{IsSettling};

use std::alloc::Global;
use std::test::Fail;
use tv_cases::{Cases, cases};
use tv_cert::{Claim, Verdict};
use tv_cert_spelling::write_certificate;
use tv_check_text::check_text;
use tv_formula_reader::read_formula;
use tv_further::further;
use tv_program::Program;
use tv_reader::read_program;
use tv_shape::Certificate;
use tv_split_ranks::split_ranks;
use tv_walks::Budget;

/// What is said of a property.
#[derive(Clone, Copy, Debug, PartialEq, Eq)]
pub(crate) enum Outcome {
    Nothing,
    Proved,
    Disproved,
    /// The text of the certificate is refused.
    Refused,
}

/// What the certificate says, if its text is accepted.
fn said_by(
    alloc: Global,
    about: &Cases,
    claim: &Claim,
    certificate: &Certificate,
) -> Result<Outcome, Fail>
    requires variables { claim_variables claim.now ≡ (cases_of about.now).variables }
    requires settling { IsSettling (cases_of about.now) claim.now certificate.now }
{
    let text = write_certificate(alloc, certificate)?;
    if text.len() >= 1 << 31 {
        return Err(Fail::from("too long"));
    }
    match check_text(alloc, &text, about, claim) {
        Err(_) => Ok(Outcome::Refused),
        Ok(_) => match certificate.verdict() {
            Verdict::Proved(_) => Ok(Outcome::Proved),
            Verdict::Disproved { .. } => Ok(Outcome::Disproved),
        },
    }
}

/// What the further searches say of the claim.
fn said_further(alloc: Global, about: &Cases, claim: &Claim) -> Result<Outcome, Fail>
    requires variables { claim_variables claim.now ≡ (cases_of about.now).variables }
{
    match further(alloc, about, claim, &[], &Budget::usual())? {
        None => Ok(Outcome::Nothing),
        Some(found) => said_by(alloc, about, claim, &found.certificate),
    }
}

/// What the search by split places says of the claim.
fn said_by_splits(alloc: Global, about: &Cases, claim: &Claim) -> Result<Outcome, Fail>
    requires variables { claim_variables claim.now ≡ (cases_of about.now).variables }
{
    match split_ranks(alloc, about, claim, &[], &tv_split_ranks::Budget::usual())? {
        None => Ok(Outcome::Nothing),
        Some(certificate) => said_by(alloc, about, claim, &certificate),
    }
}

/// Which search is asked.
#[derive(Clone, Copy)]
enum Asked {
    Further,
    SplitRanks,
}

/// What is said of the claim over the program.
fn said_of_program(
    alloc: Global,
    program: &Program,
    claim: &Claim,
    asked: Asked,
) -> Result<Outcome, Fail>
    requires variables { claim_variables claim.now ≡ length (system_of program.now).variables }
{
    match cases(alloc, program) {
        Ok(about) => match asked {
            Asked::Further => said_further(alloc, &about, claim),
            Asked::SplitRanks => said_by_splits(alloc, &about, claim),
        },
        Err(_) => Err(Fail::from("cases")),
    }
}

/// What is said of the property of the program.
fn said_of(alloc: Global, program: &Program, property: &[u8], asked: Asked) -> Result<Outcome, Fail>
    requires short { length property.now ≤ 65536 }
{
    let property = read_formula(alloc, property, program)?;
    let claim = Claim::new(alloc, &property)?;
    said_of_program(alloc, program, &claim, asked)
}

/// What is said of the property of the program, both as texts, by one of the searches.
fn answer_of(alloc: Global, program: &str, property: &str, asked: Asked) -> Result<Outcome, Fail> {
    if program.len() > 65536 || property.len() > 65536 {
        return Err(Fail::from("too long"));
    }
    let program = read_program(alloc, program.as_bytes())?;
    said_of(alloc, &program, property.as_bytes(), asked)
}

/// What the further searches say of the property of the program, both as texts.
pub(crate) fn answer_to(alloc: Global, program: &str, property: &str) -> Result<Outcome, Fail> {
    answer_of(alloc, program, property, Asked::Further)
}

/// What the search by split places says of the property of the program, both as texts.
pub(crate) fn answer_by_splits(
    alloc: Global,
    program: &str,
    property: &str,
) -> Result<Outcome, Fail> {
    answer_of(alloc, program, property, Asked::SplitRanks)
}
