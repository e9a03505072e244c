// Why ranks alone do not show that every run ends, and whether terms that fall one after the other do.

ghost use Rattle.std.specs.Prelude.{◌≡◌};
ghost use Rattle.tv_formula.specs.Formulas.{property_of};
ghost use Rattle.tv_formula.specs.Properties.{Property, term};
ghost use Rattle.tv_program.specs.Programs.{system_of};
ghost use Rattle.tv_cases.specs.Systems.{cases_of};
ghost use Rattle.tv_cert.specs.Claims.{IsClaim};
ghost use Rattle.tv_nested.specs.Nested.{IsNestedNode};
ghost use Rattle.tv_top.specs.Answers.{unnested};
ghost use Rattle.tv_top.specs.Finding.{Settles};
ghost use Rattle.tv_top.specs.Searching.{IsOfOne, IsNestAnswer, IsEndAnswer};
ghost use Rattle.tv_top.specs.Views.{wanted_view};

use crate::answer::Answer;
use crate::cause::Cause;
use crate::finding::{told, uncovered};
use crate::named_system::NamedSystem;
use crate::search::Search;
use crate::system_fault::{unsettled, unsolved};
use std::alloc::Global;
use tv_cert::Node;
use tv_farkas::Budget;
use tv_linear::Cover;
use tv_nested::{NestFault, Nested, nest, nested_certificate};
use tv_settling::EndFault;

/// The answer where it is not known whether terms are nested.
fn unnested(fault: NestFault) -> Answer
    ensures { result ≡ unnested fault }
{
    match fault {
        NestFault::Solve { system, fault } => unsettled(NamedSystem::of_nest(system), fault),
        NestFault::Cover { fault } => uncovered(fault),
        NestFault::Memory => Answer::Memory,
    }
}

/// The answer of a node by nested terms, with a cover of the start.
fn nested_end(alloc: Global, search: &Search, node: Node, start: Cover) -> Answer
    requires one { IsOfOne search.now }
    requires ends { property_of search.now.claim.now.proved ≡ term }
    requires nested { IsNestedNode (cases_of search.now.about.now) node start }
    ensures { (f : Property) → IsClaim search.now.claim.now f →
        Settles (wanted_view search.now.task.now.wanted) (system_of search.now.program.now) f (cases_of search.now.about.now) result }
{
    match nested_certificate(alloc, search.about, search.claim, node, start) {
        Ok(certificate) => told(alloc, search, certificate),
        Err(_) => Answer::Memory,
    }
}

/// The answer to whether every run ends, where no terms rank these cases, with a barrier for each: nested terms may show it.
fn ends_nested(
    alloc: Global,
    search: &Search,
    budget: &Budget,
    set: Vec<u32>,
    barriers: Vec<Vec<i128>>,
) -> Answer
    requires one { IsOfOne search.now }
    requires ends { property_of search.now.claim.now.proved ≡ term }
    ensures { let s = search.now in let p = system_of s.program.now in (f : Property) → IsClaim s.claim.now f →
        IsNestAnswer (wanted_view s.task.now.wanted) p f (cases_of s.about.now) budget.now set barriers result }
{
    match nest(alloc, search.about, budget) {
        Ok(Nested::Node { node, start }) => nested_end(alloc, search, node, start),
        Ok(Nested::None { .. }) => Answer::Unknown(Cause::Unranked { set, barriers }),
        Err(fault) => unnested(fault),
    }
}

/// The answer to whether every run ends, where a search for ranks gives this in place of a certificate.
pub(crate) fn ended(alloc: Global, search: &Search, budget: &Budget, fault: EndFault) -> Answer
    requires one { IsOfOne search.now }
    requires ends { property_of search.now.claim.now.proved ≡ term }
    ensures { let s = search.now in let p = system_of s.program.now in (f : Property) → IsClaim s.claim.now f →
        IsEndAnswer (wanted_view s.task.now.wanted) p f (cases_of s.about.now) budget.now fault result }
{
    match fault {
        EndFault::Solve { system, fault } => unsolved(system, fault),
        EndFault::Cover { fault } => uncovered(fault),
        EndFault::Rank { set, barriers } => ends_nested(alloc, search, budget, set, barriers),
        EndFault::Memory => Answer::Memory,
    }
}
