ghost use Rattle.std.specs.Prelude.{◌≡◌, ◌+◌, IfOk};
ghost use Rattle.tv_pre.specs.Finding.{first_of, gap_behind};

use std::alloc::AllocError;

/// Why the region of a formula may lack states where it holds.
#[derive(Clone, Copy)]
pub enum Gap {
    /// Going back over the steps of the program is not exact for some subformula.
    Inexact,
    /// No round of the fixpoint up to the last one equals the next. Termination and its negation are such fixpoints too.
    Open {
        /// The number of the subformula: each stands before its arguments, and these in order. A negation counts with what it negates as one.
        place: u32,
    },
}

/// The sum of two counts of subformulas. There is no room for 2^32 of them.
pub(crate) fn added(first: u32, second: u32) -> Result<u32, AllocError>
    ensures { IfOk result (λ sum. sum ≡ first + second) }
{
    match first.checked_add(second) {
        Some(sum) => Ok(sum),
        None => Err(AllocError),
    }
}

/// The gap of an argument with `count` subformulas before it.
pub(crate) fn gap_after(count: u32, gap: Option<Gap>) -> Result<Option<Gap>, AllocError>
    ensures { IfOk result (λ after. after ≡ gap_behind count gap) }
{
    match gap {
        Some(Gap::Open { place }) => {
            let place = added(count, place)?;
            Ok(Some(Gap::Open { place }))
        }
        gap => Ok(gap),
    }
}

/// The first of two gaps.
pub(crate) fn first_gap(first: Option<Gap>, second: Option<Gap>) -> Option<Gap>
    ensures { result ≡ first_of first second }
{
    match first {
        Some(gap) => Some(gap),
        None => second,
    }
}
