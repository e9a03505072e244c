// What was found of a formula, for another one that is equal to it.

ghost use Rattle.std.specs.Prelude.{◌≡◌, ◌≢◌, None, Contains, length, map, take, IfOk, IfSome};
ghost use Rattle.tv_cert.specs.AimViews.{aim_states};
ghost use Rattle.tv_pre.specs.Arguments.{AreFoundFirst, AreKnownFirst};
ghost use Rattle.tv_pre.specs.Copies.{SameFound};
ghost use Rattle.tv_pre.specs.Finding.{IsFound};
ghost use Rattle.tv_pre.specs.KnownStates.{HasKnownStates};
ghost use Rattle.tv_pre.specs.Search.{system_of};

use crate::equality::are_equal;
use crate::search::Search;
use crate::{Found, Part};
use std::alloc::{AllocError, Global};
use tv_cert::Aim;
use tv_copy::{copy_node, copy_region};

/// A copy of what was found.
fn copy_found(alloc: Global, found: &Found) -> Result<Found, AllocError>
    ensures { IfOk result (SameFound found.now) }
{
    let region = copy_region(alloc, &found.part.region)?;
    let node = copy_node(alloc, &found.part.node)?;
    Ok(Found {
        part: Part { region, node },
        gap: found.gap,
        size: found.size,
    })
}

/// What is found of a formula where it is equal to an earlier one: a copy of what was found of that one.
pub(crate) fn found_alike(
    search: &Search,
    earlier: &Aim,
    found: &Found,
    aim: &Aim,
) -> Result<Option<Found>, AllocError>
    requires found { IsFound (system_of search.now) search.now.last (aim_states earlier.now) found.now }
    requires known { HasKnownStates (system_of search.now) search.now.last search.now.alone (aim_states earlier.now) found.now }
    ensures found { IfOk result (λ again. IfSome again (IsFound (system_of search.now) search.now.last (aim_states aim.now))) }
    ensures known { let s = aim_states aim.now in
        IfOk result (λ again. IfSome again (HasKnownStates (system_of search.now) search.now.last search.now.alone s)) }
    ensures other { IfOk result (λ again. again ≡ None → aim_states earlier.now ≢ aim_states aim.now) }
{
    if are_equal(earlier, aim) {
        Ok(Some(copy_found(search.setting.alloc, found)?))
    } else {
        Ok(None)
    }
}

/// A copy of what was found of an equal formula, if `founds` has one. Its items are those of the first of `aims`, in order.
pub(crate) fn found_before(
    search: &Search,
    aims: &[Aim],
    founds: &[Found],
    aim: &Aim,
) -> Result<Option<Found>, AllocError>
    requires first { AreFoundFirst (system_of search.now) search.now.last (map aim_states aims.now) founds.now }
    requires known { AreKnownFirst (system_of search.now) search.now.last search.now.alone (map aim_states aims.now) founds.now }
    ensures found { IfOk result (λ again. IfSome again (IsFound (system_of search.now) search.now.last (aim_states aim.now))) }
    ensures known { let s = aim_states aim.now in
        IfOk result (λ again. IfSome again (HasKnownStates (system_of search.now) search.now.last search.now.alone s)) }
    ensures others { let first = take (length founds.now) (map aim_states aims.now) in
        IfOk result (λ again. again ≡ None → ¬ Contains first (aim_states aim.now)) }
{
    match (aims, founds) {
        ([earlier, aims @ ..], [found, founds @ ..]) => {
            match found_alike(search, earlier, found, aim)? {
                Some(again) => Ok(Some(again)),
                None => found_before(search, aims, founds, aim),
            }
        }
        _ => Ok(None),
    }
}
