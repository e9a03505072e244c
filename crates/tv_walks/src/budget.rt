ghost use Rattle.std.specs.Prelude.{◌≡◌};

/// How far each search goes, in units of its own: what is found depends on the program and the claim alone, and not on the machine.
#[derive(Clone, Copy)]
pub struct Budget {
    /// How many states a graph has at most.
    pub states: usize,
    /// How many calls of the solver a search makes at most.
    pub calls: usize,
}

impl Budget {
    /// The budget that is enough for small programs, within about a second.
    pub fn usual() -> Budget
        ensures { result ≡ record { states = 300; calls = 3000 } }
    {
        Budget {
            states: 300,
            calls: 3000,
        }
    }
}

/// What the searches took.
#[derive(Clone, Copy)]
pub struct Spent {
    /// How many states there are in the graphs that they made.
    pub states: usize,
    /// How many calls of the solver they made.
    pub calls: usize,
}
