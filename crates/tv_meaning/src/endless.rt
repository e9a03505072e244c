ghost use Rattle.std.specs.Prelude.{ℕ, ◌+◌};
ghost use Rattle.tv_program.specs.Programs.{system_of};
ghost use Rattle.tv_program.specs.Steps.{State, Steps};
ghost use Rattle.tv_program.specs.Runs.{Ends};

use tv_program::Program;

/// A list of states without an end.
pub trait Endless {
    /// The state with each number from 0.
    ghost state_at: { Self → ℕ → State };
}

/// No state at which every run ends begins an endless list of steps.
pub fn never_endless<E: Endless>(program: &Program, list: &E)
    requires { (n : ℕ) → Steps (system_of program.now) (E.state_at list.now n) (E.state_at list.now (n + 1)) }
    ensures { ¬ (Ends (Steps (system_of program.now)) (E.state_at list.now 0)) }
{}
