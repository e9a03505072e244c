ghost use Rattle.std.specs.Prelude.{◌≡◌, IfOk};
ghost use Rattle.tv_cases.specs.Systems.{cases_of};
ghost use Rattle.tv_nested.specs.Nested.{IsNested};

use crate::attempts::is_node;
use crate::certificates::{cases_in, claim_of};
use crate::programs::{COUNTDOWN, FALLING_SUM, IDLE, about_of, program_of};
use std::alloc::Global;
use std::test::Fail;
use tv_cases::Cases;
use tv_cert::Verdict;
use tv_farkas::Budget;
use tv_nested::{NestFault, Nested, nest, nested_certificate};
use tv_sound::accepted;

/// Each term falls once the next one is below 0.
const SUM: &str = "START: 0; FROM: 0; assume(x >= 0); x := x - y; y := y + 1; TO: 0;";

const THREE: &str = "START: 0; FROM: 0; assume(x > 0); x := x + y; y := y + z; z := z - 1; TO: 0;";

const FIVE: &str =
    "START: 0; FROM: 0; assume(x > 0); x := x + y; y := y + z; z := z + w; w := w + v; v := v - 1; TO: 0;";

/// The first component, at the second location, has nested terms, and the second has none that are.
const NESTED_LAST: &str = "START: 0; FROM: 0; assume(y > 0); y := y - 1; TO: 0; FROM: 0; TO: 1;
FROM: 1; assume(x >= 0); x := x - y; y := y + 1; TO: 1;";

/// The other way round.
const NESTED_FIRST: &str =
    "START: 0; FROM: 0; assume(x >= 0); x := x - y; y := y + 1; TO: 0; FROM: 0; TO: 1;
FROM: 1; assume(x > 0); x := x - 1; TO: 1;";

/// A round takes the second case out, and over the first terms are nested.
const AFTER_A_ROUND: &str = "START: 0; FROM: 0; assume(x >= 0); x := x - y; y := y + 1; TO: 0;
FROM: 0; assume(z > 0); z := z - 1; x := nondet(); y := nondet(); TO: 0; FROM: 0; assume(x > 1); assume(x < 0); TO: 0;";

/// What is answered of a program.
#[derive(Drop)]
enum Wanted {
    /// A node with this many pieces, ranks and proofs.
    Node(usize, u32, usize),
    /// The component without nested terms, and its cases.
    None(u32, &'static [u32]),
}

const BUDGET: Budget = Budget {
    pivots: 10000,
    splits: 64,
    disjuncts: 256,
};

fn is_wanted(wanted: &Wanted, found: &Result<Nested, NestFault>) -> bool {
    match (wanted, found) {
        (Wanted::Node(pieces, ranks, proofs), Ok(Nested::Node { node, .. })) => {
            is_node(node, *pieces, *ranks, *proofs)
        }
        (
            Wanted::None(part, cases),
            Ok(
                Nested::None {
                    component,
                    set,
                    barriers,
                },
            ),
        ) => {
            let set: &[u32] = set;
            component == part && set == *cases && barriers.len() == 3
        }
        _ => false,
    }
}

const EXAMPLES: &[(&str, Wanted)] = &[
    (SUM, Wanted::Node(3, 3, 3)),
    (FALLING_SUM, Wanted::Node(3, 3, 3)),
    (THREE, Wanted::Node(4, 4, 4)),
    (COUNTDOWN, Wanted::Node(2, 2, 2)),
    (NESTED_LAST, Wanted::Node(4, 3, 5)),
    (NESTED_FIRST, Wanted::Node(4, 3, 7)),
    (AFTER_A_ROUND, Wanted::Node(3, 4, 9)),
    (IDLE, Wanted::None(0, &[0])),
    (FIVE, Wanted::None(0, &[0])),
];

#[test]
fn terms_are_nested_or_none_are(rt: HostRuntime) -> Result<(), Fail> {
    for (text, wanted) in EXAMPLES {
        let about = about_of(rt.alloc(), text)?;
        let found = nest(rt.alloc(), &about, &BUDGET);
        assert!(rt; is_wanted(wanted, &found), "{text}");
    }
    Ok(())
}

fn nested_in(alloc: Global, about: &Cases) -> Result<Nested, Fail>
    ensures { IfOk result (IsNested (cases_of about.now)) }
{
    match nest(alloc, about, &BUDGET) {
        Ok(found) => Ok(found),
        Err(_) => Err(Fail::from("not settled")),
    }
}

/// How many obligations the certificate of the program has.
fn obligations(alloc: Global, text: &str) -> Result<u64, Fail> {
    let program = program_of(alloc, text)?;
    let claim = claim_of(alloc, &program)?;
    let about = cases_in(alloc, &program)?;
    match nested_in(alloc, &about)? {
        Nested::None { .. } => Err(Fail::from("no terms")),
        Nested::Node { node, start } => {
            let certificate = nested_certificate(alloc, &about, &claim, node, start)?;
            Ok(certificate.obligations())
        }
    }
}

/// Whether the checker accepts the node and the cover of the start.
fn is_accepted(alloc: Global, text: &str) -> Result<bool, Fail> {
    let program = program_of(alloc, text)?;
    let claim = claim_of(alloc, &program)?;
    let about = cases_in(alloc, &program)?;
    match nested_in(alloc, &about)? {
        Nested::None { .. } => Ok(false),
        Nested::Node { node, start } => {
            let found = accepted(alloc, &about, &claim, Verdict::Proved(start), node)?;
            Ok(found.is_some())
        }
    }
}

#[test]
fn the_certificates_are_accepted(rt: HostRuntime) -> Result<(), Fail> {
    for (text, wanted) in [(SUM, 4), (THREE, 5), (NESTED_LAST, 6), (AFTER_A_ROUND, 10)] {
        assert!(rt; obligations(rt.alloc(), text)? == wanted, "{text}");
        assert!(rt; is_accepted(rt.alloc(), text)?, "{text}");
    }
    Ok(())
}
