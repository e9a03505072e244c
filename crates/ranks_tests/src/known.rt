ghost use Rattle.std.specs.Prelude.{◌≤◌, IfOk};
ghost use Rattle.tv_cases.specs.Systems.{cases_of};
ghost use Rattle.tv_lexrank.specs.Known.{AreKnown};

use crate::attempts::{are_stuck, is_node};
use crate::programs::{CLIMBER, COUNTDOWN, NESTED, about_of};
use std::alloc::Global;
use std::test::Fail;
use tv_cases::Cases;
use tv_farkas::{Budget, CoverFault};
use tv_lexrank::{RankFault, Ranked, are_known, lex_rank};
use tv_linear::{Piece, Poly, Region, Row};
use tv_rank::Name;
use tv_simplex::SolveFault;

/// The numbers of a row over the variables, and its constant.
type Numbers = (&'static [i128], i128);

/// The rows that are known at each location.
pub(crate) type Rows = &'static [&'static [Numbers]];

/// The half of a number, before an idle loop.
pub(crate) const HALF: &str = "START: 0; FROM: 0; assume(2*x == 1); TO: 1; FROM: 1; TO: 1;";

/// A countdown by a step that is set before.
pub(crate) const STEPS: &str =
    "START: 0; FROM: 0; y := 2; TO: 1; FROM: 1; assume(x > 0); x := x - y; TO: 1;";

const FOURFOLD: &str = "START: 0; FROM: 0; x := 4*x; TO: 1;";

const ANYWHERE: &str = "START: 0; FROM: 0; TO: 1; FROM: 1; assume(x > 0); x := x - 1; TO: 0;";

/// What is to be given.
#[derive(Drop)]
enum Wanted {
    /// A node with this many pieces, ranks and proofs.
    Node(usize, u32, usize),
    /// The cases that are stuck.
    Stuck(&'static [u32]),
    /// This case leaves the known rows by a value below this.
    Open(u32, i128),
    /// A row composed with a case is too wide at this column.
    Wide(u32),
    /// A cover has no splits left.
    Splits,
    /// The system of this set and case, and a number of bases that is too few for it.
    Later(&'static [u32], u32, u64),
    /// The system of this many rows, and a number of bases that is too few for it.
    Rows(usize, u64),
}

fn is_unsettled(wanted: &Wanted, system: &Name, fault: &SolveFault) -> bool {
    match (wanted, system, fault) {
        (
            Wanted::Later(cases, last, count),
            Name::Later { set, falling },
            SolveFault::Pivots { bases },
        ) => set.as_slice() == *cases && falling == last && count == bases,
        (Wanted::Rows(many, count), Name::Rows(rows), SolveFault::Pivots { bases }) => {
            rows.len() == *many && count == bases
        }
        _ => false,
    }
}

fn is_open(taken: u32, values: &[i128], case: u32, bound: i128) -> bool {
    match values.first() {
        Some(value) => taken == case && *value < bound,
        None => false,
    }
}

fn is_wanted(wanted: &Wanted, found: &Result<Ranked, RankFault>) -> bool {
    match (wanted, found) {
        (Wanted::Node(pieces, ranks, proofs), Ok(Ranked::Node { node, .. })) => {
            is_node(node, *pieces, *ranks, *proofs)
        }
        (Wanted::Stuck(cases), Ok(Ranked::Stuck { set, barriers })) => {
            are_stuck(set, barriers, *cases)
        }
        (Wanted::Open(case, bound), Err(RankFault::Open { taken, values })) => {
            is_open(*taken, values, *case, *bound)
        }
        (
            Wanted::Wide(wide),
            Err(
                RankFault::Cover {
                    fault: CoverFault::Wide { column },
                },
            ),
        ) => column == wide,
        (
            Wanted::Splits,
            Err(
                RankFault::Cover {
                    fault: CoverFault::Splits { path },
                },
            ),
        ) => path.is_empty(),
        (_, Err(RankFault::Solve { system, fault })) => is_unsettled(wanted, system, fault),
        _ => false,
    }
}

fn rows_of(alloc: Global, list: &[Numbers]) -> Result<Vec<Row>, Fail> {
    let mut rows = Vec::new(alloc);
    for (coefficients, constant) in list {
        if coefficients.len() > 8 {
            return Err(Fail::from("a long row"));
        }
        rows.push(Row::new(alloc, *coefficients, *constant)?.ok_or("wide")?)?;
    }
    Ok(rows)
}

/// The region of the rows, location by location.
fn region_of(alloc: Global, about: &Cases, known: Rows) -> Result<Region, Fail> {
    let variables = about.variables();
    let mut pieces = Vec::new(alloc);
    let mut location: u32 = 0;
    for list in known {
        let rows = rows_of(alloc, *list)?;
        let poly = Poly {
            columns: variables,
            rows,
        };
        pieces.push(Piece { location, poly })?;
        location = location.saturating_add(1);
    }
    Ok(Region {
        variables,
        locations: about.locations(),
        pieces,
    })
}

/// The region of the rows, which has a piece for each location.
pub(crate) fn known_of(alloc: Global, about: &Cases, known: Rows) -> Result<Region, Fail>
    ensures { IfOk result (λ r. AreKnown (cases_of about.now) r.pieces.items) }
{
    let region = region_of(alloc, about, known)?;
    if !are_known(about, &region) {
        return Err(Fail::from("the rows do not fit the program"));
    }
    Ok(region)
}

/// A program, what is known, how many bases and splits there may be, and what is to be given.
type Example = (&'static str, Rows, u64, u32, Wanted);

const EXAMPLES: &[Example] = &[
    (
        HALF,
        &[&[], &[(&[1], 0), (&[-1], 1), (&[0], 1)]],
        1000,
        64,
        Wanted::Node(2, 1, 2),
    ),
    (
        STEPS,
        &[&[], &[(&[-1, 0], 1)]],
        1000,
        64,
        Wanted::Node(2, 2, 2),
    ),
    (STEPS, &[&[], &[]], 1000, 64, Wanted::Stuck(&[1])),
    (
        CLIMBER,
        &[&[], &[(&[-1], 1)]],
        1000,
        64,
        Wanted::Stuck(&[1]),
    ),
    (
        COUNTDOWN,
        &[&[], &[(&[-1], 5)]],
        1000,
        64,
        Wanted::Open(0, 5),
    ),
    (
        FOURFOLD,
        &[&[], &[(&[2305843009213693952], 0)]],
        1000,
        64,
        Wanted::Wide(0),
    ),
    (ANYWHERE, &[&[], &[(&[-1], 5)]], 1000, 0, Wanted::Splits),
    (
        NESTED,
        &[&[(&[-1, 0], -5)]],
        1,
        64,
        Wanted::Later(&[0, 1], 0, 1),
    ),
];

pub(crate) fn found(
    alloc: Global,
    text: &str,
    known: Rows,
    budget: &Budget,
) -> Result<Result<Ranked, RankFault>, Fail>
    requires { budget.now.splits ≤ 128 }
{
    let about = about_of(alloc, text)?;
    let region = known_of(alloc, &about, known)?;
    Ok(lex_rank(alloc, &about, &region, budget))
}

#[test]
fn cases_are_ranked_under_known_rows(rt: HostRuntime) -> Result<(), Fail> {
    for (text, known, pivots, splits, wanted) in EXAMPLES {
        let budget = Budget {
            pivots: *pivots,
            splits: (*splits).min(128),
            disjuncts: 256,
        };
        let found = found(rt.alloc(), text, *known, &budget)?;
        assert!(rt; is_wanted(wanted, &found), "{text}");
    }
    Ok(())
}
