// Whether a property of states holds only finitely often on every run.

ghost use Rattle.std.specs.Prelude.{◌≡◌, ◌≤◌, [], length};
ghost use Rattle.tv_program.specs.Programs.{system_of};
ghost use Rattle.tv_formula.specs.Formulas.{property_of, variables_of};
ghost use Rattle.tv_finitely.specs.Splits.{split_of, IsSplitOf};
ghost use Rattle.tv_top.specs.Finding.{budget_of, offers_of};
ghost use Rattle.tv_top.specs.Views.{task_view};
ghost use Rattle.tv_top.specs.Visiting.{IsShownFinitely, FindsFinitely, unvisited, unvisited_question};

use crate::answer::Answer;
use crate::cause::Cause;
use crate::finding::budget_of;
use crate::named_system::NamedSystem;
use crate::system_fault::unsettled;
use crate::task::Task;
use std::alloc::Global;
use tv_farkas::CoverFault;
use tv_finitely::{Split, SplitFault, VisitFault, prove_finitely, split};
use tv_formula::Formula;
use tv_program::Program;
use tv_propose::Proposer;
use tv_rank::Name;

/// The answer where a question of integer points was not settled.
fn unvisited_question(fault: CoverFault) -> Answer
    ensures { result ≡ unvisited_question fault }
{
    match fault {
        CoverFault::Splits { path } => Answer::Unknown(Cause::Spent { path }),
        CoverFault::Solve { rows, fault } => {
            unsettled(NamedSystem::Visited(Name::Rows(rows)), fault)
        }
        CoverFault::Wide { column } => Answer::Unknown(Cause::Composed { column }),
        CoverFault::Memory => Answer::Memory,
    }
}

/// The answer where no visits are found.
fn unvisited(fault: VisitFault) -> Answer
    ensures { result ≡ unvisited fault }
{
    match fault {
        VisitFault::Rank { set, barriers } => Answer::Unknown(Cause::Unranked { set, barriers }),
        VisitFault::Solve { system, fault } => unsettled(NamedSystem::Visited(system), fault),
        VisitFault::Cover { fault } => unvisited_question(fault),
        VisitFault::Memory => Answer::Memory,
    }
}

/// The answer to whether the property by which the program is split holds only finitely often.
fn settled(
    alloc: Global,
    task: &Task,
    program: &Program,
    condition: &Formula,
    about: &Split,
    proposers: &mut Vec<Box<dyn Proposer>>,
) -> Answer
    requires { IsSplitOf (system_of program.now) (property_of condition.now) (split_of about.now) }
    ensures { FindsFinitely (offers_of (λ p. rest p) proposers.old.items)
        (task_view task.now) (system_of program.now) (property_of condition.now) result }
{
    let budget = budget_of(&task.limits);
    match prove_finitely(alloc, about, proposers, &budget) {
        Ok(_) => Answer::Proved(Vec::new(alloc)),
        Err(fault) => unvisited(fault),
    }
}

/// The answer to whether the property of states holds only finitely often on every run.
pub fn visited(
    alloc: Global,
    task: &Task,
    program: &Program,
    condition: &Formula,
    proposers: &mut Vec<Box<dyn Proposer>>,
) -> Answer
    requires { variables_of condition.now ≡ length (system_of program.now).variables }
    ensures { FindsFinitely (offers_of (λ p. rest p) proposers.old.items)
        (task_view task.now) (system_of program.now) (property_of condition.now) result }
{
    match split(alloc, program, condition) {
        Ok(about) => settled(alloc, task, program, condition, &about, proposers),
        Err(SplitFault::Memory) => Answer::Memory,
        Err(fault) => Answer::Condition(fault),
    }
}
