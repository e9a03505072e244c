use std::alloc::AllocError;

/// Why no further basis is reached.
#[derive(Drop)]
pub enum Stop {
    /// An entry of the tableau at this place is not narrow.
    Wide { row: usize, column: usize },
    /// The answer has no scale.
    Scale,
    Memory,
}

impl From<AllocError> for Stop {
    ghost use Rattle.std.specs.Prelude.{◌≡◌};
    ghost use Rattle.tv_simplex.specs.declared.stop.Stop.TheVariants.{Memory};

    ghost from_gives = { λ _ stop. stop ≡ Memory };

    fn from(_: AllocError) -> Stop {
        Stop::Memory
    }
}
