ghost use Rattle.std.specs.Prelude.{◌≡◌, ◌≤◌, IfOk, length};
ghost use Rattle.tv_program.specs.Programs.{system_of};
ghost use Rattle.tv_cases.specs.Systems.{cases_of};
ghost use Rattle.tv_cert.specs.Claims.{claim_variables};

use std::alloc::Global;
use std::test::Fail;
use tv_cases::{Cases, cases};
use tv_cert::Claim;
use tv_formula_reader::read_formula;
use tv_program::Program;
use tv_reader::read_program;

/// The cases of a program, and what is claimed of it.
#[derive(Drop)]
pub struct Task {
    pub about: Cases,
    pub claim: Claim,
}

fn program_of(alloc: Global, text: &str) -> Result<Program, Fail> {
    if text.len() > 65536 {
        return Err(Fail::from("a long program"));
    }
    let program = read_program(alloc, text.as_bytes())?;
    Ok(program)
}

fn claim_of(alloc: Global, text: &str, program: &Program) -> Result<Claim, Fail>
    ensures variables { IfOk result (λ c. claim_variables c ≡ length (system_of program.now).variables) }
{
    if text.len() > 65536 {
        return Err(Fail::from("a long property"));
    }
    let property = read_formula(alloc, text.as_bytes(), program)?;
    let claim = Claim::new(alloc, &property)?;
    Ok(claim)
}

fn about_of(alloc: Global, program: &Program) -> Result<Cases, Fail>
    ensures { IfOk result (λ c. (cases_of c).variables ≡ length (system_of program.now).variables) }
{
    match cases(alloc, program) {
        Ok(about) => Ok(about),
        Err(_) => Err(Fail::from("no cases")),
    }
}

/// The property claimed of the program.
pub fn claimed(alloc: Global, program: &str, property: &str) -> Result<Task, Fail>
    ensures variables { IfOk result (λ t. claim_variables t.claim ≡ (cases_of t.about).variables) }
{
    let program = program_of(alloc, program)?;
    let claim = claim_of(alloc, property, &program)?;
    let about = about_of(alloc, &program)?;
    Ok(Task { about, claim })
}

/// A text in two parts.
pub fn text_of(alloc: Global, front: &str, end: &str) -> Result<Vec<u8>, Fail>
    ensures { IfOk result (λ text. length text.items ≤ 65536) }
{
    let mut text = Vec::from_slice(alloc, front.as_bytes())?;
    text.extend_from_slice(end.as_bytes())?;
    if text.len() > 65536 {
        return Err(Fail::from("a long text"));
    }
    Ok(text)
}
