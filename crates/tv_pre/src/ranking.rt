// The ranks of a whole program.

ghost use Rattle.std.specs.Prelude.{◌≡◌, IfOk};
ghost use Rattle.tv_cases.specs.Systems.{cases_of};
ghost use Rattle.tv_pre.specs.Search.{AreRanks};

use crate::Setting;
use std::alloc::AllocError;
use tv_cert::Node;
use tv_lexrank::{CaseShown, RankFault, Ranked, first_attempt};
use tv_rank::Name;
use tv_simplex::SolveFault;

/// A node that shows that every run of a program ends, and what shows each case, in order.
#[derive(Drop)]
pub(crate) struct Ranking {
    pub node: Node,
    pub shown: Vec<CaseShown>,
}

/// What is known of the ranks of a program.
#[derive(Drop)]
pub(crate) enum Ranks {
    /// These rank the whole program.
    Known(Ranking),
    /// It has no lexicographic ranking.
    Lacking,
    /// Whether it has one was not settled: this system was not, and not for want of memory.
    Refused { system: Name, fault: SolveFault },
}

/// What is known where this system was not settled: that it was not, unless for want of memory.
fn refused(system: Name, fault: SolveFault) -> Result<Ranks, AllocError>
    ensures { IfOk result (λ ranks. (ranks ≡ Ranks.Refused system fault) × (fault ≡ SolveFault.Memory → ⊥)) }
{
    match fault {
        SolveFault::Memory => Err(AllocError),
        fault => Ok(Ranks::Refused { system, fault }),
    }
}

/// The ranks of the program.
pub(crate) fn ranks_of(setting: &Setting) -> Result<Ranks, AllocError>
    ensures { let about = cases_of setting.now.about.now in IfOk result (AreRanks about setting.now.budget.now.pivots) }
{
    match first_attempt(setting.alloc, setting.about, setting.budget.pivots) {
        Ok(Ranked::Node { node, shown }) => Ok(Ranks::Known(Ranking { node, shown })),
        Ok(
            Ranked::Stuck {
                set: _,
                barriers: _,
            },
        ) => Ok(Ranks::Lacking),
        Err(RankFault::Solve { system, fault }) => refused(system, fault),
        Err(
            RankFault::Open {
                taken: _,
                values: _,
            },
        ) => unreachable!(),
        Err(RankFault::Cover { fault: _ }) => unreachable!(),
        Err(RankFault::Memory) => Err(AllocError),
    }
}
