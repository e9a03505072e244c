use std::alloc::AllocError;
use tv_farkas::CoverFault;

/// Why a search for a short run ended.
#[derive(Drop)]
pub(crate) enum RunFault {
    /// There are `count` paths of one length.
    Paths { count: u64 },
    Cover { fault: CoverFault },
}

impl From<AllocError> for RunFault {
    ghost use Rattle.std.specs.Prelude.{◌≡◌};
    ghost use Rattle.tv_farkas.specs.declared.fault.CoverFault.TheVariants.{Memory};
    ghost use Rattle.tv_search.specs.declared.fault.RunFault.TheVariants.{Cover};

    ghost from_gives = { λ _ fault. fault ≡ Cover Memory };

    fn from(_: AllocError) -> RunFault {
        RunFault::Cover {
            fault: CoverFault::Memory,
        }
    }
}
