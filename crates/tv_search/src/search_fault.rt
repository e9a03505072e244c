use std::alloc::AllocError;
use tv_farkas::CoverFault;

/// Why it was not found whether a run comes to a location.
#[derive(Drop)]
pub enum SearchFault {
    /// The rows at the location leave this point, and no run of at most 8 steps comes to the location.
    Invariant { point: Vec<i128> },
    /// The rows at the location leave this point, and runs of one length may take `count` paths.
    Paths { count: u64, point: Vec<i128> },
    Cover { fault: CoverFault },
    Memory,
}

impl From<AllocError> for SearchFault {
    ghost use Rattle.std.specs.Prelude.{◌≡◌};
    ghost use Rattle.tv_search.specs.declared.search_fault.SearchFault.TheVariants.{Memory};

    ghost from_gives = { λ _ fault. fault ≡ Memory };

    fn from(_: AllocError) -> SearchFault {
        SearchFault::Memory
    }
}
