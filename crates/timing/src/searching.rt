//! Which further search settles a property, and what it took. The text is the formula in a line of its own, and then the program.

ghost use Rattle.std.specs.Prelude.{◌≡◌, ◌≤◌, length};
ghost use Rattle.tv_program.specs.Programs.{system_of};
ghost use Rattle.tv_cases.specs.Systems.{cases_of};
ghost use Rattle.tv_cert.specs.Claims.{claim_variables};

use crate::words::Fault;
use std::alloc::Global;
use tv_cases::{Cases, cases};
use tv_cert::{Claim, Verdict};
use tv_formula_reader::read_formula;
use tv_further::{Further, further};
use tv_program::Program;
use tv_reader::read_program;
use tv_walks::{Budget, Name};

/// The search in words.
fn name_of(name: Name) -> &'static str {
    match name {
        Name::ExplicitGraph => "explicit graph",
        Name::ClosedCycles => "closed cycles",
        Name::Walks => "walks",
        Name::RankedRegions => "regions",
    }
}

/// What was found, in words.
fn told(alloc: Global, found: &Further) -> Result<String, Fault> {
    let said = match found.certificate.verdict() {
        Verdict::Proved(_) => "proved",
        Verdict::Disproved { .. } => "disproved",
    };
    let by = name_of(found.by);
    let states = found.spent.states;
    let calls = found.spent.calls;
    Ok(format!(in alloc; "{said} by {by}, states {states}, calls {calls}")?)
}

/// What the searches find for the claim.
fn found_for(alloc: Global, about: &Cases, claim: &Claim) -> Result<String, Fault>
    requires variables { claim_variables claim.now ≡ (cases_of about.now).variables }
{
    match further(alloc, about, claim, &[], &Budget::usual())? {
        None => Ok(format!(in alloc; "nothing")?),
        Some(found) => told(alloc, &found),
    }
}

/// The same of the claim over the program.
fn found_over(alloc: Global, program: &Program, claim: &Claim) -> Result<String, Fault>
    requires variables { claim_variables claim.now ≡ length (system_of program.now).variables }
{
    match cases(alloc, program) {
        Ok(about) => found_for(alloc, &about, claim),
        Err(_) => Err(Fault::Form),
    }
}

/// The same of the property of the program.
fn found_of(alloc: Global, program: &Program, property: &str) -> Result<String, Fault>
    requires short { length property.now ≤ 65536 }
{
    match read_formula(alloc, property.as_bytes(), program) {
        Err(_) => Err(Fault::Form),
        Ok(property) => {
            let claim = Claim::new(alloc, &property)?;
            found_over(alloc, program, &claim)
        }
    }
}

/// The same of a text.
pub(crate) fn searched(alloc: Global, text: &str) -> Result<String, Fault> {
    let Some((property, program)) = text.split_once('\n') else {
        return Err(Fault::Form);
    };
    if property.len() > 65536 || program.len() > 65536 {
        return Err(Fault::Form);
    }
    match read_program(alloc, program.as_bytes()) {
        Ok(program) => found_of(alloc, &program, property),
        Err(_) => Err(Fault::Form),
    }
}
