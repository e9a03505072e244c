ghost use Rattle.std.specs.Prelude.{◌≡◌};
ghost use Rattle.tv_cases.specs.Systems.{cases_of};
ghost use Rattle.tv_cert.specs.Claims.{claim_variables};

use crate::sketches::{Part, fork, into, leaf, refuted, start, take, values};
use crate::tasks::{Task, claimed};
use crate::texts::{EXITING, TURNING};
use std::alloc::Global;
use std::test::Fail;
use tv_cert::{Mark, Node, Proof, Verdict};
use tv_lines::NodeKind;
use tv_shape::{Certificate, ShapeFault};

/// The certificate of the nodes, or the number of the first that is misshapen.
fn made(
    alloc: Global,
    task: &Task,
    verdict: Verdict,
    root: Node,
) -> Result<Result<Certificate, u32>, Fail>
    requires variables { claim_variables task.now.claim ≡ (cases_of task.now.about).variables }
{
    match Certificate::new(alloc, &task.about, &task.claim, verdict, root) {
        Ok(certificate) => Ok(Ok(certificate)),
        Err(ShapeFault::Shape { node }) => Ok(Err(node)),
        Err(_) => Err(Fail::from("memory or depth")),
    }
}

fn is_misshapen(made: &Result<Certificate, u32>, at: u32) -> bool {
    match made {
        Ok(_) => false,
        Err(node) => *node == at,
    }
}

fn fits(made: &Result<Certificate, u32>, obligations: u64, kinds: &[NodeKind]) -> bool {
    match made {
        Ok(certificate) => {
            certificate.obligations() == obligations && certificate.kinds() == kinds
        }
        Err(_) => false,
    }
}

/// A part of all states of a location.
const fn whole(location: u32) -> Part<'static> {
    Part {
        location,
        mark: Mark::Go,
        rows: &[],
        ranks: &[],
    }
}

/// The node of a countdown, by what is said of its first piece and the proof of its first step.
#[derive(Clone, Copy)]
struct Sketch<'a> {
    location: u32,
    mark: Mark,
    ranks: u32,
    fall: u32,
    shown: &'a [&'a [i64]],
}

const COUNTED: Sketch = Sketch {
    location: 0,
    mark: Mark::Go,
    ranks: 2,
    fall: 1,
    shown: &[&[1], &[1]],
};

fn counted_proofs(alloc: Global, sketch: Sketch) -> Result<Vec<Proof>, Fail> {
    let mut proofs = Vec::new(alloc);
    proofs.push(Proof::Covered(into(alloc, 0, sketch.fall, sketch.shown)?))?;
    proofs.push(Proof::Covered(into(alloc, 0, 2, &[&[0, 1], &[0, 1], &[1, 1]])?))?;
    Ok(proofs)
}

fn counted(alloc: Global, sketch: Sketch) -> Result<Node, Fail> {
    let first = Part {
        location: sketch.location,
        mark: sketch.mark,
        rows: &[],
        ranks: &[(0, 1), (0, 0)],
    };
    let second = Part {
        ranks: &[(0, 0), (1, 0)],
        ..whole(1)
    };
    let proofs = counted_proofs(alloc, sketch)?;
    leaf(alloc, &[first, second], sketch.ranks, proofs)
}

/// What is made of this root for the end of every run, where the start lies in this piece.
fn ending(alloc: Global, root: Node, piece: u32) -> Result<Result<Certificate, u32>, Fail> {
    let task = claimed(alloc, TURNING, "term")?;
    let start = start(alloc, piece)?;
    made(alloc, &task, start, root)
}

/// What is made of the node of a countdown, where the start lies in this piece.
fn countdown(alloc: Global, sketch: Sketch, piece: u32) -> Result<Result<Certificate, u32>, Fail> {
    let root = counted(alloc, sketch)?;
    ending(alloc, root, piece)
}

/// The node of a countdown over another.
fn counted_twice(alloc: Global) -> Result<Node, Fail> {
    let mut root = counted(alloc, COUNTED)?;
    root.children.push(counted(alloc, COUNTED)?)?;
    Ok(root)
}

#[test]
fn a_countdown_fits(rt: HostRuntime) -> Result<(), Fail> {
    let made = countdown(rt.alloc(), COUNTED, 0)?;
    assert!(rt; fits(&made, 3, &[NodeKind::Term]));
    Ok(())
}

/// Nodes of a countdown that do not fit.
const OTHER_COUNTDOWNS: &[Sketch] = &[
    Sketch {
        location: 2,
        ..COUNTED
    },
    Sketch {
        mark: Mark::Done,
        ..COUNTED
    },
    Sketch {
        ranks: 1,
        ..COUNTED
    },
    Sketch { fall: 0, ..COUNTED },
    Sketch { fall: 3, ..COUNTED },
    Sketch {
        shown: &[&[1]],
        ..COUNTED
    },
    Sketch {
        shown: &[&[1], &[1, 1]],
        ..COUNTED
    },
    Sketch {
        shown: &[&[1], &[1 << 62]],
        ..COUNTED
    },
];

/// Whether the node of a countdown is misshapen, where the start lies in this piece.
fn is_misshapen_countdown(alloc: Global, sketch: Sketch, piece: u32) -> Result<bool, Fail> {
    let made = countdown(alloc, sketch, piece)?;
    Ok(is_misshapen(&made, 0))
}

#[test]
fn other_countdowns_do_not(rt: HostRuntime) -> Result<(), Fail> {
    for wrong in OTHER_COUNTDOWNS {
        assert!(rt; is_misshapen_countdown(rt.alloc(), *wrong, 0)?);
    }
    Ok(())
}

#[test]
fn the_start_has_one_piece(rt: HostRuntime) -> Result<(), Fail> {
    assert!(rt; is_misshapen_countdown(rt.alloc(), COUNTED, 1)?);
    Ok(())
}

#[test]
fn a_countdown_has_no_child(rt: HostRuntime) -> Result<(), Fail> {
    let root = counted_twice(rt.alloc())?;
    let made = ending(rt.alloc(), root, 0)?;
    assert!(rt; is_misshapen(&made, 0));
    Ok(())
}

fn climbed_proofs(alloc: Global, taken: u32, of: &[&[i64]]) -> Result<Vec<Proof>, Fail> {
    let mut proofs = Vec::new(alloc);
    proofs.push(take(alloc, 0, &[&[1, 1]])?)?;
    proofs.push(take(alloc, taken, of)?)?;
    Ok(proofs)
}

/// What is made of the node of a climber with these values, whose second step takes a case, with these multipliers.
fn climber(
    alloc: Global,
    of: &[i128],
    taken: u32,
    shown: &[&[i64]],
) -> Result<Result<Certificate, u32>, Fail> {
    let task = claimed(alloc, TURNING, "term")?;
    let values = values(alloc, of)?;
    let positive = Part {
        rows: &[(-1, 1)],
        ..whole(0)
    };
    let parts = [
        positive,
        Part {
            location: 1,
            ..positive
        },
    ];
    let root = leaf(alloc, &parts, 0, climbed_proofs(alloc, taken, shown)?)?;
    made(alloc, &task, values, root)
}

#[test]
fn a_climber_fits(rt: HostRuntime) -> Result<(), Fail> {
    let made = climber(rt.alloc(), &[1], 1, &[&[1, 1], &[1, 1]])?;
    assert!(rt; fits(&made, 3, &[NodeKind::NoTerm]));
    Ok(())
}

/// The values, the case that the second step takes, and its multipliers. The first case leaves the other location.
const OTHER_CLIMBERS: [(&[i128], u32, &[&[i64]]); 4] = [
    (&[1], 1, &[&[1, 1]]),
    (&[1, 1], 1, &[&[1, 1], &[1, 1]]),
    (&[1], 0, &[&[1, 1]]),
    (&[1], 2, &[&[1, 1]]),
];

fn is_misshapen_climber(
    alloc: Global,
    of: &[i128],
    taken: u32,
    shown: &[&[i64]],
) -> Result<bool, Fail> {
    let made = climber(alloc, of, taken, shown)?;
    Ok(is_misshapen(&made, 0))
}

#[test]
fn other_climbers_do_not(rt: HostRuntime) -> Result<(), Fail> {
    for (of, taken, shown) in OTHER_CLIMBERS {
        assert!(rt; is_misshapen_climber(rt.alloc(), of, taken, shown)?);
    }
    Ok(())
}

/// A root without pieces over two children. `first` and `second` are their numbers of ranks.
fn three_nodes(alloc: Global, first: u32, second: u32) -> Result<Node, Fail> {
    let first = leaf(alloc, &[], first, Vec::new(alloc))?;
    let second = leaf(alloc, &[], second, Vec::new(alloc))?;
    fork(alloc, &[], Vec::new(alloc), first, second)
}

/// What is made of them for a location that no run comes to.
fn three(alloc: Global, first: u32, second: u32) -> Result<Result<Certificate, u32>, Fail> {
    let task = claimed(alloc, TURNING, "[AG](!at(1))")?;
    let nowhere = refuted(alloc, &[])?;
    let root = three_nodes(alloc, first, second)?;
    made(alloc, &task, Verdict::Proved(nowhere), root)
}

#[test]
fn three_nodes_fit(rt: HostRuntime) -> Result<(), Fail> {
    let made = three(rt.alloc(), 0, 0)?;
    assert!(rt; fits(&made, 1, &[NodeKind::Fix, NodeKind::Atom, NodeKind::Atom]));
    Ok(())
}

/// Whether of three nodes this one is misshapen.
fn is_misshapen_of_three(alloc: Global, first: u32, second: u32, at: u32) -> Result<bool, Fail> {
    let made = three(alloc, first, second)?;
    Ok(is_misshapen(&made, at))
}

#[test]
fn the_first_fault_comes_before_others(rt: HostRuntime) -> Result<(), Fail> {
    for (first, second, at) in [(0, 1, 2), (1, 0, 1), (1, 1, 1)] {
        assert!(rt; is_misshapen_of_three(rt.alloc(), first, second, at)?);
    }
    Ok(())
}

/// The node of a location test with a piece at each of two locations.
fn elsewhere(alloc: Global, ranks: u32) -> Result<Node, Fail> {
    let mut proofs = Vec::new(alloc);
    for _ in 0..2 {
        proofs.push(Proof::Covered(into(alloc, 0, 0, &[])?))?;
    }
    leaf(alloc, &[whole(0), whole(1)], ranks, proofs)
}

fn kept_proofs(alloc: Global, fall: u32) -> Result<Vec<Proof>, Fail> {
    let shown: [(u32, &[&[i64]]); 4] = [(0, &[]), (fall, &[&[1]]), (0, &[]), (0, &[&[0, 1, 1]])];
    let mut proofs = Vec::new(alloc);
    for (fall, of) in shown {
        proofs.push(Proof::Covered(into(alloc, 0, fall, of)?))?;
    }
    proofs.push(Proof::Covered(refuted(alloc, &[1, 1])?))?;
    Ok(proofs)
}

/// The nodes of an invariant that keeps the third location away, with this fall in a step and `ranks` ranks in a child.
fn keeping(alloc: Global, fall: u32, ranks: u32) -> Result<Node, Fail> {
    let first = elsewhere(alloc, ranks)?;
    let second = leaf(alloc, &[], 0, Vec::new(alloc))?;
    let small = Part {
        rows: &[(1, -5)],
        ..whole(1)
    };
    let proofs = kept_proofs(alloc, fall)?;
    fork(alloc, &[whole(0), small], proofs, first, second)
}

/// What is made of them.
fn invariant(alloc: Global, fall: u32, ranks: u32) -> Result<Result<Certificate, u32>, Fail> {
    let task = claimed(alloc, EXITING, "[AG](!at(2))")?;
    let start = start(alloc, 0)?;
    let root = keeping(alloc, fall, ranks)?;
    made(alloc, &task, start, root)
}

#[test]
fn an_invariant_fits(rt: HostRuntime) -> Result<(), Fail> {
    let made = invariant(rt.alloc(), 0, 0)?;
    assert!(rt; fits(&made, 8, &[NodeKind::Fix, NodeKind::Atom, NodeKind::Atom]));
    Ok(())
}

/// Whether of the nodes of an invariant this one is misshapen.
fn is_misshapen_invariant(alloc: Global, fall: u32, ranks: u32, at: u32) -> Result<bool, Fail> {
    let made = invariant(alloc, fall, ranks)?;
    Ok(is_misshapen(&made, at))
}

#[test]
fn other_invariants_do_not(rt: HostRuntime) -> Result<(), Fail> {
    for (fall, ranks, at) in [(1, 0, 0), (0, 1, 1)] {
        assert!(rt; is_misshapen_invariant(rt.alloc(), fall, ranks, at)?);
    }
    Ok(())
}
