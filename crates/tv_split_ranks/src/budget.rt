ghost use Rattle.std.specs.Prelude.{◌≡◌};

use crate::limits::SYSTEM_ENTRIES;
use tv_walks::Effort;

/// How far the search goes. What is found depends on the program, the claim and the budget alone, and not on the machine.
#[derive(Clone, Copy)]
pub struct Budget {
    /// How many ranking systems are solved at most.
    pub systems: usize,
    /// How many entries they have at most, all together.
    pub entries: usize,
    /// How many pieces the certificate has at most.
    pub pieces: usize,
    /// How many other calls of the solver there are at most.
    pub calls: usize,
}

impl Budget {
    /// The budget that is enough for small programs, within about a second.
    pub fn usual() -> Budget
        ensures { result ≡ record { systems = 400; entries = 4000000; pieces = 40; calls = 6000 } }
    {
        Budget {
            systems: 400,
            entries: 4_000_000,
            pieces: 40,
            calls: 6000,
        }
    }
}

/// What is left of a budget.
#[derive(Drop)]
pub(crate) struct Spending {
    pub effort: Effort,
    pub pieces: usize,
    systems: usize,
    entries: usize,
}

impl Spending {
    /// All of the budget.
    pub(crate) fn of(budget: &Budget) -> Spending {
        Spending {
            effort: Effort::of(budget.calls),
            pieces: budget.pieces,
            systems: budget.systems,
            entries: budget.entries,
        }
    }

    /// Whether nothing more is to be tried.
    pub(crate) fn is_spent(&self) -> bool {
        self.systems == 0 || self.effort.left == 0
    }

    /// Takes a system of this size; whether it may be solved.
    pub(crate) fn takes_system(&mut self, rows: usize, columns: usize) -> bool {
        let size = rows.saturating_mul(columns);
        if size > SYSTEM_ENTRIES || size > self.entries || self.systems == 0 {
            return false;
        }
        self.systems -= 1;
        self.entries -= size;
        true
    }
}
