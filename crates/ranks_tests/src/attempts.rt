use crate::programs::{
    CLIMBER, COUNTDOWN, DRAWN_COUNTDOWN, DRAWN_FALL, EMPTY, FALLING_SUM, FILE, IDLE, NESTED, WIDE,
    about_of,
};
use std::test::Fail;
use tv_cert::Node;
use tv_lexrank::{RankFault, Ranked, first_attempt};
use tv_rank::Name;
use tv_simplex::SolveFault;

/// What an attempt is to give.
#[derive(Drop)]
enum Wanted {
    /// A node with this many pieces, ranks and proofs.
    Node(usize, u32, usize),
    /// The cases that are stuck.
    Stuck(&'static [u32]),
    /// The system of the guards of this case is too wide.
    Width(u32),
    /// The system of this component, round and case, and a number of bases that is too few for it.
    Pivots(u32, u32, u32, u64),
}

pub(crate) fn is_node(node: &Node, pieces: usize, ranks: u32, proofs: usize) -> bool {
    node.pieces.list().len() == pieces
        && node.ranks == ranks
        && node.proofs.len() == proofs
        && node.children.is_empty()
}

/// Whether the cases are these, with a barrier for each.
pub(crate) fn are_stuck(set: &[u32], barriers: &[Vec<i128>], wanted: &[u32]) -> bool {
    set == wanted && barriers.len() == set.len()
}

fn is_unsettled(wanted: &Wanted, system: &Name, fault: &SolveFault) -> bool {
    match (wanted, system, fault) {
        (Wanted::Width(wanted), Name::Empty(case), SolveFault::Width { .. }) => case == wanted,
        (
            Wanted::Pivots(part, turn, case, count),
            Name::Rank {
                component,
                round,
                falling,
            },
            SolveFault::Pivots { bases },
        ) => part == component && turn == round && case == falling && count == bases,
        _ => false,
    }
}

fn is_wanted(wanted: &Wanted, found: &Result<Ranked, RankFault>) -> bool {
    match (wanted, found) {
        (Wanted::Node(pieces, ranks, proofs), Ok(Ranked::Node { node, .. })) => {
            is_node(node, *pieces, *ranks, *proofs)
        }
        (Wanted::Stuck(cases), Ok(Ranked::Stuck { set, barriers })) => {
            are_stuck(set, barriers, *cases)
        }
        (_, Err(RankFault::Solve { system, fault })) => is_unsettled(wanted, system, fault),
        _ => false,
    }
}

/// A program, how many bases are tried, and what the attempt is to give.
type Example = (&'static str, u64, Wanted);

const EXAMPLES: &[Example] = &[
    (COUNTDOWN, 1000, Wanted::Node(2, 2, 2)),
    (EMPTY, 1000, Wanted::Node(1, 1, 0)),
    (DRAWN_COUNTDOWN, 1000, Wanted::Node(2, 2, 2)),
    (DRAWN_FALL, 1000, Wanted::Node(1, 2, 1)),
    (NESTED, 1000, Wanted::Node(1, 3, 2)),
    (FILE, 10000, Wanted::Node(14, 11, 17)),
    (CLIMBER, 1000, Wanted::Stuck(&[1])),
    (IDLE, 1000, Wanted::Stuck(&[0])),
    (FALLING_SUM, 1000, Wanted::Stuck(&[0])),
    (WIDE, 1000, Wanted::Width(0)),
    (NESTED, 1, Wanted::Pivots(0, 0, 0, 1)),
];

#[test]
fn cases_are_ranked_or_stuck(rt: HostRuntime) -> Result<(), Fail> {
    for (text, pivots, wanted) in EXAMPLES {
        let about = about_of(rt.alloc(), text)?;
        let found = first_attempt(rt.alloc(), &about, *pivots);
        assert!(rt; is_wanted(wanted, &found), "{text}");
    }
    Ok(())
}
