//! Copies of nodes and of what they hold.

use crate::sketches::{Part, into, leaf, refuted, take};
use std::alloc::Global;
use std::test::Fail;
use tv_cert::{Mark, Marked, Node, Proof};
use tv_copy::{copy_cover, copy_node, copy_proof, copy_region, copy_rows};
use tv_linear::{ChoiceTree, Cover, CoverTree, Piece, Poly, Region, Row};

/// Whether the cover has these multipliers alone.
fn is_refuted(cover: &Cover, multipliers: &[i64]) -> bool {
    match cover.tree() {
        CoverTree::Empty(numbers) => numbers.as_slice() == multipliers,
        _ => false,
    }
}

/// Whether the cover leads into this target, with one list of multipliers.
fn leads_into(cover: &Cover, wanted: u32, multipliers: &[i64]) -> bool {
    match cover.tree() {
        CoverTree::Into {
            target,
            fall: _,
            refutations,
        } => *target == wanted
            && refutations.len() == 1
            && refutations[0].as_slice() == multipliers,
        _ => false,
    }
}

/// Whether this case is taken, with `count` refutations.
fn takes(proof: &Proof, wanted: u32, count: usize) -> bool {
    match proof {
        Proof::Covered(_) => false,
        Proof::Chosen(choice) => match choice.tree() {
            ChoiceTree::Take {
                taken,
                target: _,
                fall: _,
                draws: _,
                refutations,
            } => *taken == wanted && refutations.len() == count,
            _ => false,
        },
    }
}

/// Whether the piece has this location, `rows` rows and `ranks` ranks.
fn is_at(piece: &Marked, location: u32, rows: usize, ranks: usize) -> bool {
    piece.location() == location && piece.rows().len() == rows && piece.ranks().len() == ranks
}

/// A node with one piece and a choice.
fn node(alloc: Global) -> Result<Node, Fail> {
    let part = Part {
        location: 3,
        mark: Mark::Go,
        rows: &[(1, 0), (-1, 2)],
        ranks: &[(1, 7)],
    };
    let mut proofs = Vec::new(alloc);
    proofs.push(take(alloc, 4, &[&[1, 2, 3]])?)?;
    leaf(alloc, &[part], 1, proofs)
}

/// The states at a location where `x` is at most 0.
fn region(alloc: Global) -> Result<Region, Fail> {
    let mut rows = Vec::new(alloc);
    rows.push(Row::new(alloc, &[1], 0)?.ok_or("wide")?)?;
    let poly = Poly { columns: 1, rows };
    let mut pieces = Vec::new(alloc);
    pieces.push(Piece { location: 2, poly })?;
    Ok(Region {
        variables: 1,
        locations: 3,
        pieces,
    })
}

#[test]
fn covers_are_copied(rt: HostRuntime) -> Result<(), Fail> {
    let copy = copy_cover(rt.alloc(), &refuted(rt.alloc(), &[2, 5])?)?;
    assert!(rt; is_refuted(&copy, &[2, 5]));
    Ok(())
}

#[test]
fn targets_are_copied(rt: HostRuntime) -> Result<(), Fail> {
    let copy = copy_cover(rt.alloc(), &into(rt.alloc(), 6, 0, &[&[8, 9]])?)?;
    assert!(rt; leads_into(&copy, 6, &[8, 9]));
    Ok(())
}

#[test]
fn choices_are_copied(rt: HostRuntime) -> Result<(), Fail> {
    let copy = copy_proof(rt.alloc(), &take(rt.alloc(), 5, &[&[1], &[2]])?)?;
    assert!(rt; takes(&copy, 5, 2));
    Ok(())
}

/// Whether the node has one piece of two rows and a rank, and one choice.
fn is_copied(node: &Node) -> bool {
    let pieces = node.pieces.list();
    pieces.len() == 1
        && is_at(&pieces[0], 3, 2, 1)
        && node.ranks == 1
        && node.children.is_empty()
        && node.proofs.len() == 1
        && takes(&node.proofs[0], 4, 1)
}

#[test]
fn nodes_are_copied(rt: HostRuntime) -> Result<(), Fail> {
    let node = node(rt.alloc())?;
    let copy = copy_node(rt.alloc(), &node)?;
    assert!(rt; is_copied(&copy));
    Ok(())
}

#[test]
fn pieces_are_copied(rt: HostRuntime) -> Result<(), Fail> {
    let node = node(rt.alloc())?;
    for piece in node.pieces.list() {
        let copy = piece.copy(rt.alloc())?;
        assert!(rt; is_at(&copy, 3, 2, 1));
    }
    Ok(())
}

#[test]
fn rows_are_copied(rt: HostRuntime) -> Result<(), Fail> {
    let node = node(rt.alloc())?;
    for piece in node.pieces.list() {
        let rows = copy_rows(rt.alloc(), piece.rows())?;
        assert!(rt;
            rows.len() == 2 && rows[1].coefficients() == [-1].as_slice() && rows[1].constant() == 2
        );
    }
    Ok(())
}

/// Whether the region has one piece with one row, at location 2.
fn is_region(region: &Region) -> bool {
    let pieces = &region.pieces;
    region.variables == 1
        && region.locations == 3
        && pieces.len() == 1
        && pieces[0].location == 2
        && pieces[0].poly.rows.len() == 1
}

#[test]
fn regions_are_copied(rt: HostRuntime) -> Result<(), Fail> {
    let region = region(rt.alloc())?;
    let copy = copy_region(rt.alloc(), &region)?;
    assert!(rt; is_region(&copy));
    Ok(())
}
