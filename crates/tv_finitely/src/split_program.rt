ghost use Rattle.std.specs.Prelude.{◌≡◌, ◌<◌, length};
ghost use Rattle.tv_cases.specs.Systems.{cases_of};
ghost use Rattle.tv_cases.specs.Views.{case_view, case_views};
ghost use Rattle.tv_rank.specs.Ways.{case_at};

use std::alloc::AllocError;
use tv_cases::{Case, CaseFault, Cases};

/// A program that is split by a property of its states: its cases, each of which either enters, by leading to a state where the property
/// holds, or leads to one where it does not.
#[derive(Drop)]
pub struct Split {
    pub(crate) cases: Cases,
    /// Whether each case enters.
    pub(crate) entering: Vec<bool>,
    pub ghost one_each: { length entering.items ≡ length (cases_of cases).cases },
}

/// The case with a number.
fn case_in(list: &[Case], number: u32) -> &Case
    requires { number < length list.now }
    ensures { case_view result.now ≡ case_at (case_views list.now) number }
{
    &list[number as usize]
}

impl Split {
    ghost use Rattle.std.specs.Prelude.{false, get_or};
    ghost use Rattle.tv_finitely.specs.Splits.{split_of};

    pub(crate) fn new(cases: Cases, entering: Vec<bool>) -> Split
        requires { length entering.items ≡ length (cases_of cases).cases }
        ensures { split_of result ≡ record { system = cases_of cases; enters = entering.items } }
    {
        Split { cases, entering }
    }

    /// The cases, those of the first copy of each edge before those of the second.
    pub fn cases(&self) -> &Cases
        ensures same { cases_of result.now ≡ (split_of self.now).system }
        ensures marked { length (split_of self.now).enters ≡ length (split_of self.now).system.cases }
    {
        &self.cases
    }

    /// How many cases there are.
    pub(crate) fn count(&self) -> u32
        ensures { result ≡ length (split_of self.now).system.cases }
    {
        self.cases.list().len() as u32
    }

    /// The case with this number.
    pub(crate) fn case(&self, number: u32) -> &Case
        requires { number < length (split_of self.now).system.cases }
        ensures is { case_view result.now ≡ case_at (split_of self.now).system.cases number }
    {
        case_in(self.cases.list(), number)
    }

    /// Whether the case with this number leads to states where the property holds.
    pub fn enters(&self, number: u32) -> bool
        requires { number < length (split_of self.now).system.cases }
        ensures { result ≡ get_or (split_of self.now).enters number false }
    {
        self.entering[number as usize]
    }
}

/// Why a program is not split.
#[derive(Clone, Copy, Debug, PartialEq, Eq)]
pub enum SplitFault {
    /// The property speaks of runs, by a next, a fixed point or `term`.
    Temporal,
    /// With two copies of each edge there are this many, which is above 4,096.
    Edges { count: u32 },
    /// The condition that is assumed after an edge has more than 400 nodes on a path.
    Deep,
    /// The program with two copies of each edge has no linear cases; its edge 2 * e and the next one are the copies of edge e.
    Case { fault: CaseFault },
    /// There is no memory.
    Memory,
}

impl From<AllocError> for SplitFault {
    ghost use Rattle.std.specs.Prelude.{◌≡◌};
    ghost use Rattle.tv_finitely.specs.declared.split_program.SplitFault.TheVariants.{Memory};

    ghost from_gives = { λ _ fault. fault ≡ Memory };

    fn from(_: AllocError) -> SplitFault {
        SplitFault::Memory
    }
}
