// The run along a path that is met.

ghost use Rattle.std.specs.Prelude.{◌≡◌, ◌++◌, ℕ, IfOk, length};
ghost use Rattle.tv_cases.specs.Systems.{cases_of};
ghost use Rattle.tv_derived.specs.Scopes.{draws_of};
ghost use Rattle.tv_search.specs.Runs.{path_of, IsNumberPath, cut};
ghost use Rattle.tv_search.specs.Tried.{IsMet};
ghost use Rattle.tv_search.specs.Answers.{lists_of, IsRunTo};

use crate::met::MetPath;
use crate::searched::Searched;
use std::alloc::{AllocError, Global};
use tv_cases::Cases;
use tv_linear::push_item;

/// Puts the draws of each case at the end of a list.
fn push_draws(
    alloc: Global,
    about: &Cases,
    numbers: &[u32],
    all: &[i128],
    draws: &mut Vec<Vec<i128>>,
) -> Result<(), AllocError>
    requires path { (l : ℕ) × IsNumberPath (cases_of about.now) l numbers.now }
    requires many { length all.now ≡ draws_of (path_of (cases_of about.now) numbers.now) }
    ensures { IfOk result (λ _. lists_of draws.new.items ≡ lists_of draws.old.items ++ cut (path_of (cases_of about.now) numbers.now) all.now) }
{
    match numbers {
        [] => Ok(()),
        [number, rest @ ..] => {
            let (now, later) = all.split_at(about.list()[*number as usize].draws as usize);
            push_item(draws, Vec::from_slice(alloc, now)?)?;
            push_draws(alloc, about, rest, later, draws)
        }
    }
}

/// The values at the start, and the draws of each case.
pub(crate) fn reached(alloc: Global, about: &Cases, met: MetPath) -> Result<Searched, AllocError>
    requires { (l : ℕ) × IsMet (cases_of about.now) l met }
    ensures { (l : ℕ) → IsMet (cases_of about.now) l met → IfOk result (IsRunTo (cases_of about.now) l) }
{
    let MetPath { path, point } = met;
    let (values, all) = point.split_at(about.variables() as usize);
    let values = Vec::from_slice(alloc, values)?;
    let mut draws = Vec::new(alloc);
    push_draws(alloc, about, &path, all, &mut draws)?;
    Ok(Searched::Reached {
        path,
        values,
        draws,
    })
}
