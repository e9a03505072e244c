ghost use Rattle.std.specs.Prelude.{◌≡◌, IfOk, length};
ghost use Rattle.tv_program.specs.Programs.{system_of};
ghost use Rattle.tv_formula.specs.Formulas.{property_of};
ghost use Rattle.tv_formula.specs.Properties.{term};
ghost use Rattle.tv_cases.specs.Systems.{cases_of};
ghost use Rattle.tv_cert.specs.Claims.{claim_variables};
ghost use Rattle.tv_lexrank.specs.Nodes.{IsRankedNode};

use crate::programs::{COUNTDOWN, FILE, NESTED, program_of};
use std::alloc::Global;
use std::test::Fail;
use tv_cases::{Cases, cases};
use tv_cert::{Claim, Node};
use tv_formula::termination;
use tv_lexrank::{Ranked, first_attempt, ranked_certificate};
use tv_program::Program;

/// What is claimed where every run is to end.
pub(crate) fn claim_of(alloc: Global, program: &Program) -> Result<Claim, Fail>
    ensures variables { IfOk result (λ claim. claim_variables claim ≡ length (system_of program.now).variables) }
    ensures ends { IfOk result (λ claim. property_of claim.proved ≡ term) }
{
    let property = termination(alloc, program)?;
    let claim = Claim::new(alloc, &property)?;
    Ok(claim)
}

pub(crate) fn cases_in(alloc: Global, program: &Program) -> Result<Cases, Fail>
    ensures { IfOk result (λ c. (cases_of c).variables ≡ length (system_of program.now).variables) }
{
    match cases(alloc, program) {
        Ok(about) => Ok(about),
        Err(_) => Err(Fail::from("no cases")),
    }
}

fn node_of(alloc: Global, about: &Cases) -> Result<Node, Fail>
    ensures { IfOk result (λ node. IsRankedNode (cases_of about.now) node) }
{
    match first_attempt(alloc, about, 10000) {
        Ok(Ranked::Node { node, .. }) => Ok(node),
        _ => Err(Fail::from("no node")),
    }
}

/// How many obligations the certificate has that every run of the program ends.
fn obligations(alloc: Global, text: &str) -> Result<u64, Fail> {
    let program = program_of(alloc, text)?;
    let claim = claim_of(alloc, &program)?;
    let about = cases_in(alloc, &program)?;
    let node = node_of(alloc, &about)?;
    let certificate = ranked_certificate(alloc, &about, &claim, node)?;
    Ok(certificate.obligations())
}

#[test]
fn every_case_has_an_obligation_and_the_start_has_one(rt: HostRuntime) -> Result<(), Fail> {
    for (text, wanted) in [(COUNTDOWN, 3), (NESTED, 3), (FILE, 18)] {
        let found = obligations(rt.alloc(), text)?;
        assert!(rt; found == wanted, "{text}");
    }
    Ok(())
}
