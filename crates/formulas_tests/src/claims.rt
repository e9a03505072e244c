//! Claims of the properties in texts.

ghost use Rattle.std.specs.Prelude.{◌≡◌, ◌≤◌, length};
ghost use Rattle.tv_program.specs.Programs.{system_of};
ghost use Rattle.tv_formula.specs.Formulas.{property_of};
ghost use Rattle.tv_formula.specs.Normal.{negation};
ghost use Rattle.tv_cases.specs.Systems.{cases_of};
ghost use Rattle.tv_cert.specs.Claims.{claim_variables};

use crate::programs::program_of;
use std::alloc::Global;
use std::test::Fail;
use tv_cases::{Cases, cases};
use tv_cert::Claim;
use tv_farkas::Budget;
use tv_formula_reader::read_formula;
use tv_pre::Setting;
use tv_program::Program;

/// What is asked of a claim.
pub(crate) trait Asks {
    /// Whether the claim is answered as is wanted.
    fn is_answered(&self, setting: &Setting, claim: &Claim) -> bool
        requires splits { setting.now.budget.now.splits ≤ 128 }
        requires variables { claim_variables claim.now ≡ (cases_of setting.now.about.now).variables }
        requires denies { property_of claim.now.denied ≡ negation (property_of claim.now.proved) };
}

/// Whether a claim over cases is answered as is wanted.
fn is_said_of<A: Asks>(
    alloc: Global,
    about: &Cases,
    claim: &Claim,
    budget: &Budget,
    asks: &A,
) -> Result<bool, Fail>
    requires variables { claim_variables claim.now ≡ (cases_of about.now).variables }
    requires denies { property_of claim.now.denied ≡ negation (property_of claim.now.proved) }
{
    if budget.splits > 128 {
        return Err(Fail::from("too many splits"));
    }
    let setting = Setting {
        alloc,
        about,
        budget,
    };
    Ok(asks.is_answered(&setting, claim))
}

/// Whether a claim over a program is answered as is wanted.
fn is_said_of_program<A: Asks>(
    alloc: Global,
    program: &Program,
    claim: &Claim,
    budget: &Budget,
    asks: &A,
) -> Result<bool, Fail>
    requires variables { claim_variables claim.now ≡ length (system_of program.now).variables }
    requires denies { property_of claim.now.denied ≡ negation (property_of claim.now.proved) }
{
    match cases(alloc, program) {
        Ok(about) => is_said_of(alloc, &about, claim, budget, asks),
        Err(_) => Err(Fail::from("no cases")),
    }
}

/// Whether the property of the program is answered so.
fn is_said<A: Asks>(
    alloc: Global,
    program: &Program,
    property: &[u8],
    budget: &Budget,
    asks: &A,
) -> Result<bool, Fail>
    requires short { length property.now ≤ 65536 }
{
    let property = read_formula(alloc, property, program)?;
    let claim = Claim::new(alloc, &property)?;
    is_said_of_program(alloc, program, &claim, budget, asks)
}

/// Whether the property of the program, both as texts, is answered so.
pub(crate) fn is_said_of_texts<A: Asks>(
    alloc: Global,
    program: &str,
    property: &str,
    budget: &Budget,
    asks: &A,
) -> Result<bool, Fail> {
    if property.len() > 65536 {
        return Err(Fail::from("a long property"));
    }
    let program = program_of(alloc, program)?;
    is_said(alloc, &program, property.as_bytes(), budget, asks)
}
