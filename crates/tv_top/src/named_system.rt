use tv_nested::NestName;
use tv_rank::Name;

/// The name of a linear system that was not settled.
#[derive(Drop)]
pub enum NamedSystem {
    /// One of the search for ranks, or of a question of integer points.
    Searched(Name),
    /// The system for `depth` nested terms at each location over what the rounds leave of a component.
    Nested { component: u32, depth: u32 },
    /// One of the search for ranks that show that something holds only finitely often.
    Visited(Name),
}

impl NamedSystem {
    ghost use Rattle.std.specs.Prelude.{◌≡◌};
    ghost use Rattle.tv_top.specs.Answers.{nest_system};

    /// The name of a system of the search for nested terms.
    pub(crate) fn of_nest(system: NestName) -> NamedSystem
        ensures { result ≡ nest_system system }
    {
        match system {
            NestName::Empty(case) => NamedSystem::Searched(Name::Empty(case)),
            NestName::Rank {
                component,
                round,
                falling,
            } => NamedSystem::Searched(Name::Rank {
                component,
                round,
                falling,
            }),
            NestName::Nest { component, depth } => NamedSystem::Nested { component, depth },
        }
    }
}
