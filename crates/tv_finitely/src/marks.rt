//! Which cases of the program with two copies of each edge enter.

ghost use Rattle.std.specs.Prelude.{◌≡◌, ◌≤◌, ◌++◌, IfOk, OnOk, Ok, length};
ghost use Rattle.std.proofs.Math.ListN.{replicate};
ghost use Rattle.tv_program.specs.Programs.{system_of};
ghost use Rattle.tv_cases.specs.ProgramCases.{linear_cases};
ghost use Rattle.tv_cases.specs.Systems.{cases_of};
ghost use Rattle.tv_finitely.specs.Splits.{edge_marks};

use std::alloc::{AllocError, Global};
use tv_cases::{Cases, amount_of_commands};
use tv_program::Program;

/// Adds the same mark `count` times.
fn add_marks(marks: &mut Vec<bool>, mark: bool, count: u64) -> Result<(), AllocError>
    ensures { OnOk result (marks.new.items ≡ marks.old.items ++ replicate count mark) }
{
    for _ in 0..count {
        marks.push(mark)?;
    }
    Ok(())
}

/// For each case of the program whether it enters: those of every other edge do, from the first on.
pub(crate) fn marks(
    alloc: Global,
    program: &Program,
    cases: &Cases,
) -> Result<Vec<bool>, AllocError>
    requires { linear_cases (system_of program.now) ≡ Ok (cases_of cases.now).cases }
    ensures { let p = system_of program.now in IfOk result (λ marks. marks.items ≡ edge_marks (length p.variables) p.edges) }
{
    let edges = program.edges();
    let mut marks = Vec::with_capacity(alloc, cases.list().len())?;
    let mut enters = true;
    for edge in edges {
        add_marks(&mut marks, enters, amount_of_commands(&edge.commands).lists)?;
        enters = !enters;
    }
    Ok(marks)
}
