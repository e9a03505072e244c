//! The rounds of fixpoints over the cases of a program: some run reaches a piece, each does, or from each state of all runs some does.
//!
//! The first line of the text is the location of the piece, how many rows it has and the rows, each with its constant after its variables.
//! The program follows.

ghost use Rattle.std.specs.Prelude.{◌<◌, ◌^◌, ◌+◌, length, IsTrue};
ghost use Rattle.tv_cases.specs.Systems.{cases_of};
ghost use Rattle.tv_region.specs.Regions.{IsRegion};

use crate::solving::refusal;
use crate::words::{Fault, next_count, next_rows};
use std::alloc::{AllocError, Global};
use tv_cases::{Cases, cases};
use tv_farkas::{Budget, CoverFault};
use tv_formula::{Path, Shape};
use tv_linear::{Piece, Poly, Region};
use tv_reader::read_program;
use tv_region::{RegionFault, fits};
use tv_rounds::{FixedPoint, RoundFault, Rounds, has_no_draws, rounds};

/// How many rounds are made at most.
const ROUNDS: u32 = 24;

/// How many splits lie on a path at most.
const SPLITS: u32 = 64;

/// How many pieces stand at a location at most.
const DISJUNCTS: u32 = 1_000_000;

/// What is asked of the piece.
#[derive(Clone, Copy)]
pub(crate) enum Asked {
    /// Some run reaches it.
    Some,
    /// Each run does.
    Every,
    /// In each state of each run the first is so.
    Always,
}

/// The cases of a program without draws, and a piece.
#[derive(Drop)]
struct Question {
    about: Cases,
    piece: Region,
}

fn cases_in(alloc: Global, text: &str) -> Result<Cases, Fault> {
    if text.len() > 1_048_576 {
        return Err(Fault::Form);
    }
    let Ok(program) = read_program(alloc, text.as_bytes()) else {
        return Err(Fault::Form);
    };
    match cases(alloc, &program) {
        Ok(about) => Ok(about),
        Err(_) => Err(Fault::Form),
    }
}

fn question_of(alloc: Global, text: &str) -> Result<Question, Fault> {
    let Some((line, program)) = text.split_once('\n') else {
        return Err(Fault::Form);
    };
    let about = cases_in(alloc, program)?;
    let columns = about.variables();
    let mut words = line.split_whitespace();
    let location = next_count(&mut words)?;
    let count = next_count(&mut words)?;
    let rows = next_rows(alloc, &mut words, count, columns)?;
    let mut pieces = Vec::new(alloc);
    pieces.push(Piece {
        location,
        poly: Poly { columns, rows },
    })?;
    let piece = Region {
        variables: columns,
        locations: about.locations(),
        pieces,
    };
    Ok(Question { about, piece })
}

/// All states.
fn everywhere(alloc: Global, about: &Cases) -> Result<Region, Fault> {
    let mut pieces = Vec::new(alloc);
    for location in 0..about.locations() {
        pieces.push(Piece {
            location,
            poly: Poly {
                columns: about.variables(),
                rows: Vec::new(alloc),
            },
        })?;
    }
    Ok(Region {
        variables: about.variables(),
        locations: about.locations(),
        pieces,
    })
}

/// The fixpoint whose rounds are made, where going back over steps is exact.
fn rounds_of(
    alloc: Global,
    about: &Cases,
    fix: &FixedPoint,
    bases: u64,
) -> Result<Result<Rounds, RoundFault>, Fault> {
    let variables = about.variables();
    let locations = about.locations();
    if !has_no_draws(about)
        || !fits(fix.hold, variables, locations)
        || !fits(fix.end, variables, locations)
    {
        return Err(Fault::Form);
    }
    let budget = Budget {
        pivots: bases,
        splits: SPLITS,
        disjuncts: DISJUNCTS,
    };
    Ok(rounds(alloc, about, fix, ROUNDS, &budget))
}

/// The rounds of the states from which some run, or each one, reaches the piece.
fn reaching(
    alloc: Global,
    question: &Question,
    path: Path,
    bases: u64,
) -> Result<Result<Rounds, RoundFault>, Fault> {
    let hold = everywhere(alloc, &question.about)?;
    let fix = FixedPoint {
        path,
        shape: Shape::Until,
        hold: &hold,
        end: &question.piece,
    };
    rounds_of(alloc, &question.about, &fix, bases)
}

/// The rounds of the states from which no run leaves the region.
fn staying(
    alloc: Global,
    about: &Cases,
    region: &Region,
    bases: u64,
) -> Result<Result<Rounds, RoundFault>, Fault> {
    let nowhere = Region {
        variables: about.variables(),
        locations: about.locations(),
        pieces: Vec::new(alloc),
    };
    let fix = FixedPoint {
        path: Path::Every,
        shape: Shape::Weak,
        hold: region,
        end: &nowhere,
    };
    rounds_of(alloc, about, &fix, bases)
}

fn region_refusal(alloc: Global, fault: RegionFault) -> Result<String, AllocError> {
    match fault {
        RegionFault::Disjuncts { location, count } => format!(in alloc;
            "disjuncts location {location} count {count}"
        ),
        RegionFault::Wide { column } => format!(in alloc; "wide column {column}"),
        RegionFault::Solve { fault, .. } => refusal(alloc, fault),
        RegionFault::Memory => format!(in alloc; "memory"),
    }
}

fn cover_refusal(alloc: Global, fault: CoverFault) -> Result<String, AllocError> {
    match fault {
        CoverFault::Splits { path } => format!(in alloc; "splits {}", path.len()),
        CoverFault::Solve { fault, .. } => refusal(alloc, fault),
        CoverFault::Wide { column } => format!(in alloc; "wide column {column}"),
        CoverFault::Memory => format!(in alloc; "memory"),
    }
}

/// What the rounds gave, and how many pieces the last one has.
fn told(alloc: Global, found: Result<Rounds, RoundFault>) -> Result<String, AllocError> {
    match found {
        Ok(Rounds::Settled { region, at, .. }) => format!(in alloc;
            "settled at {at} with {} pieces",
            region.pieces.len()
        ),
        Ok(Rounds::Open { region, .. }) => format!(in alloc;
            "open with {} pieces",
            region.pieces.len()
        ),
        Err(RoundFault::Region { fault }) => region_refusal(alloc, fault),
        Err(RoundFault::Cover { fault }) => cover_refusal(alloc, fault),
        Err(RoundFault::Memory) => format!(in alloc; "memory"),
    }
}

/// The same of the states from which no run leaves those from which some run reaches the piece.
fn always(alloc: Global, question: &Question, bases: u64) -> Result<String, Fault> {
    match reaching(alloc, question, Path::Any, bases)? {
        Ok(Rounds::Settled { region, .. }) => {
            let found = staying(alloc, &question.about, &region, bases)?;
            Ok(told(alloc, found)?)
        }
        found => Ok(told(alloc, found)?),
    }
}

/// What comes of the piece and the program in the text, where `bases` bases are tried for each system.
pub(crate) fn answered(
    alloc: Global,
    text: &str,
    asked: Asked,
    bases: u64,
) -> Result<String, Fault> {
    let question = question_of(alloc, text)?;
    match asked {
        Asked::Some => Ok(told(alloc, reaching(alloc, &question, Path::Any, bases)?)?),
        Asked::Every => Ok(told(alloc, reaching(alloc, &question, Path::Every, bases)?)?),
        Asked::Always => always(alloc, &question, bases),
    }
}
