ghost use Rattle.std.specs.Prelude.{◌≡◌, length, IfOk, MatchResult};
ghost use Rattle.tv_program.specs.Programs.{system_of};
ghost use Rattle.tv_formula.specs.Formulas.{property_of, variables_of};
ghost use Rattle.tv_finitely.specs.Splits.{split_of, split_fault, IsSplitOf, IsSplitIn, IsSplitFault};

use crate::assumable::{is_local, is_within};
use crate::doubling::doubled;
use crate::marks::marks;
use crate::split_program::{Split, SplitFault};
use std::alloc::Global;
use tv_cases::{CaseFault, cases};
use tv_formula::Formula;
use tv_program::Program;

/// Why the program is not split, where that of the copies has no cases.
fn split_fault(fault: CaseFault) -> SplitFault
    ensures { result ≡ split_fault fault }
{
    match fault {
        CaseFault::Wide { .. } => SplitFault::Case { fault },
        CaseFault::TooMany { .. } => SplitFault::Case { fault },
        CaseFault::Memory => SplitFault::Memory,
    }
}

/// The program split by a property of its states.
///
/// Each edge has two copies: the first is taken only where the property holds after its commands, the second only where it does not. A
/// test of a location is true or false there.
///
/// The first of these faults counts: `Temporal` where the property speaks of runs, `Edges` where there are more than 4,096 copies, `Deep`
/// where the condition is too deep for an assumption, and `Case` where the program of the copies has no linear cases.
pub fn split(alloc: Global, program: &Program, condition: &Formula) -> Result<Split, SplitFault>
    requires { variables_of condition.now ≡ length (system_of program.now).variables }
    ensures exact { let p = system_of program.now in
        let f = property_of condition.now in
        MatchResult result (λ s. IsSplitIn p f (split_of s)) (IsSplitFault p f) }
    ensures meaning { IfOk result (λ s. IsSplitOf (system_of program.now) (property_of condition.now) (split_of s)) }
{
    let tree = condition.tree();
    if !is_local(tree) {
        return Err(SplitFault::Temporal);
    }
    let count = 2 * program.edges().len() as u32;
    if count > 4096 {
        return Err(SplitFault::Edges { count });
    }
    if !is_within(tree, 399) {
        return Err(SplitFault::Deep);
    }
    let doubled = doubled(alloc, program, tree)?;
    match cases(alloc, &doubled) {
        Ok(cases) => {
            let entering = marks(alloc, &doubled, &cases)?;
            Ok(Split::new(cases, entering))
        }
        Err(fault) => Err(split_fault(fault)),
    }
}
