//! One ranking function for the first case of a program without guards.

ghost use Rattle.std.specs.Prelude.{◌≡◌, ◌<◌, ◌∷◌, [], length, true};
ghost use Rattle.tv_cases.specs.Systems.{cases_of};
ghost use Rattle.tv_cases.specs.Views.{case_views};
ghost use Rattle.tv_rank.specs.Sets.{PointsOf};
ghost use Rattle.tv_rank.specs.Ways.{case_at, rows_at};

use crate::programs::{IDLE, about_of};
use std::alloc::{AllocError, Global};
use std::test::Fail;
use tv_cases::{Case, Cases};
use tv_linear::{Piece, Poly, Region, Row};
use tv_rank::{Found, weak_rank};
use tv_simplex::SolveFault;

const STEP: &str = "START: 0; FROM: 0; TO: 1;";

/// All states: a piece without rows at each location.
fn all_states(alloc: Global, about: &Cases) -> Result<Region, AllocError> {
    let mut pieces = Vec::new(alloc);
    for location in 0..about.locations() {
        let poly = Poly {
            columns: about.variables(),
            rows: Vec::new(alloc),
        };
        pieces.push(Piece { location, poly })?;
    }
    Ok(Region {
        variables: about.variables(),
        locations: about.locations(),
        pieces,
    })
}

/// Where the first case starts.
fn start_of(list: &[Case]) -> u32
    requires { 0 < length list.now }
    ensures { result ≡ (case_at (case_views list.now) 0).from }
{
    list[0].from
}

/// The guards of the first case.
fn guards_of(list: &[Case]) -> &[Row]
    requires { 0 < length list.now }
    ensures { result.now ≡ (case_at (case_views list.now) 0).guards }
{
    &list[0].guards.rows
}

/// The rows that are known at a location.
fn known_at(known: &[Piece], location: u32) -> &[Row]
    requires { location < length known.now }
    ensures { result.now ≡ rows_at known.now location }
{
    &known[location as usize].poly.rows
}

fn are_none(rows: &[Row]) -> bool
    ensures { result ≡ true → rows.now ≡ [] }
{
    rows.is_empty()
}

/// Whether there is a piece for each location, the first case has no guards, and no row is known where it starts: any point meets these.
fn is_free(about: &Cases, known: &Region) -> bool
    ensures some { result ≡ true → 0 < length (cases_of about.now).cases }
    ensures pieces { result ≡ true → length known.now.pieces.items ≡ (cases_of about.now).locations }
    ensures points { result ≡ true → PointsOf (cases_of about.now) known.now.pieces.items (0 ∷ []) }
{
    let list = about.list();
    if list.is_empty() || known.pieces.len() != about.locations() as usize {
        return false;
    }
    let start = start_of(list);
    if start as usize >= known.pieces.len() || !are_none(guards_of(list)) {
        return false;
    }
    are_none(known_at(&known.pieces, start))
}

/// What ranks the first case of the program in the text alone.
fn rank_of(alloc: Global, text: &str, pivots: u64) -> Result<Result<Found, SolveFault>, Fail> {
    let about = about_of(alloc, text)?;
    let known = all_states(alloc, &about)?;
    if !is_free(&about, &known) {
        return Err(Fail::from("guards"));
    }
    Ok(weak_rank(alloc, &about, &[0], 0, &known, pivots))
}

fn is_family(found: &Result<Found, SolveFault>, terms: usize, lists: usize) -> bool {
    match found {
        Ok(
            Found::Family {
                terms: found,
                multipliers,
            },
        ) => found.len() == terms && multipliers.len() == lists,
        _ => false,
    }
}

fn is_barrier(found: &Result<Found, SolveFault>) -> bool {
    match found {
        Ok(Found::None { barrier }) => !barrier.is_empty(),
        _ => false,
    }
}

fn is_spent(found: &Result<Found, SolveFault>, wanted: u64) -> bool {
    match found {
        Err(SolveFault::Pivots { bases }) => *bases == wanted,
        _ => false,
    }
}

// A term at both ends of the step, and multipliers for the step and for its fall.
#[test]
fn a_step_is_ranked(rt: HostRuntime) -> Result<(), Fail> {
    let found = rank_of(rt.alloc(), STEP, 1000)?;
    assert!(rt; is_family(&found, 2, 2));
    Ok(())
}

#[test]
fn a_loop_without_guards_is_not_ranked(rt: HostRuntime) -> Result<(), Fail> {
    let found = rank_of(rt.alloc(), IDLE, 1000)?;
    assert!(rt; is_barrier(&found));
    Ok(())
}

#[test]
fn a_ranking_without_bases_is_refused(rt: HostRuntime) -> Result<(), Fail> {
    let found = rank_of(rt.alloc(), STEP, 0)?;
    assert!(rt; is_spent(&found, 0));
    Ok(())
}
