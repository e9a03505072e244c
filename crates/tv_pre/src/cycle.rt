// Whether some run of cases comes back to where it began.

ghost use Rattle.std.specs.Prelude.{◌<◌, ◌↔◌, IsTrue, IfOk, length};
ghost use Rattle.tv_cases.specs.Systems.{cases_of};
ghost use Rattle.tv_cases.specs.Views.{case_views};
ghost use Rattle.tv_known.specs.Cycles.{HasCycle};
ghost use Rattle.tv_pre.specs.Finding.{AreBetween, StaysTogether};

use std::alloc::{AllocError, Global};
use tv_cases::{Case, Cases};
use tv_graph::components;
use tv_lexrank::arcs_of;

/// Whether some case stays in its component.
fn some_stays(list: &[Case], numbers: &[u32]) -> bool
    requires { AreBetween (length numbers.now) (case_views list.now) }
    ensures { IsTrue result ↔ StaysTogether numbers.now (case_views list.now) }
{
    'cases: for case in list {
        if numbers[case.from as usize] == numbers[case.to as usize] {
            return true;
        }
    }
    false
}

/// Whether some case leads to where it is reached from again: it stays in its strongly connected component.
pub(crate) fn has_cycle(alloc: Global, about: &Cases) -> Result<bool, AllocError>
    ensures { IfOk result (λ b. IsTrue b ↔ HasCycle (cases_of about.now)) }
{
    let list = about.list();
    let arcs = arcs_of(alloc, list)?;
    let numbers = components(alloc, about.locations(), &arcs)?;
    Ok(some_stays(list, &numbers))
}
