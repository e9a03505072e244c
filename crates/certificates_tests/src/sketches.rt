use std::alloc::{AllocError, Global};
use std::test::Fail;
use tv_cert::{Mark, Marked, Node, Pieces, Proof, Verdict};
use tv_linear::{Choice, ChoiceTree, Cover, CoverTree, Row};

/// The term `c * x + k`.
fn term(alloc: Global, coefficient: i128, constant: i128) -> Result<Row, Fail> {
    let row = Row::new(alloc, &[coefficient], constant)?.ok_or("wide")?;
    Ok(row)
}

/// Terms of these coefficients and constants.
fn terms(alloc: Global, of: &[(i128, i128)]) -> Result<Vec<Row>, Fail> {
    let mut terms = Vec::new(alloc);
    for (coefficient, constant) in of {
        terms.push(term(alloc, *coefficient, *constant)?)?;
    }
    Ok(terms)
}

fn lists(alloc: Global, of: &[&[i64]]) -> Result<Vec<Vec<i64>>, AllocError> {
    let mut lists = Vec::new(alloc);
    for numbers in of {
        lists.push(Vec::from_slice(alloc, numbers)?)?;
    }
    Ok(lists)
}

pub(crate) fn into(alloc: Global, target: u32, fall: u32, of: &[&[i64]]) -> Result<Cover, Fail> {
    let refutations = lists(alloc, of)?;
    let tree = CoverTree::Into {
        target,
        fall,
        refutations,
    };
    let cover = Cover::new(tree).ok_or("deep")?;
    Ok(cover)
}

pub(crate) fn refuted(alloc: Global, multipliers: &[i64]) -> Result<Cover, Fail> {
    let tree = CoverTree::Empty(Vec::from_slice(alloc, multipliers)?);
    let cover = Cover::new(tree).ok_or("deep")?;
    Ok(cover)
}

/// A step by the case into the only piece where it leads.
pub(crate) fn take(alloc: Global, taken: u32, of: &[&[i64]]) -> Result<Proof, Fail> {
    let tree = ChoiceTree::Take {
        taken,
        target: 0,
        fall: 0,
        draws: Vec::new(alloc),
        refutations: lists(alloc, of)?,
    };
    let choice = Choice::new(tree).ok_or("deep")?;
    Ok(Proof::Chosen(choice))
}

/// A piece at a location, with rows and ranks of these coefficients and constants.
#[derive(Clone, Copy)]
pub(crate) struct Part<'a> {
    pub location: u32,
    pub mark: Mark,
    pub rows: &'a [(i128, i128)],
    pub ranks: &'a [(i128, i128)],
}

fn piece(alloc: Global, part: Part) -> Result<Marked, Fail> {
    let rows = terms(alloc, part.rows)?;
    let ranks = terms(alloc, part.ranks)?;
    let made = Marked::from_rows(alloc, part.location, part.mark, 1, &rows, &ranks)?;
    let piece = made.ok_or("columns")?;
    Ok(piece)
}

pub(crate) fn pieces(alloc: Global, parts: &[Part]) -> Result<Pieces, Fail> {
    let mut list = Vec::new(alloc);
    for part in parts {
        list.push(piece(alloc, *part)?)?;
    }
    Ok(Pieces::new(alloc, list)?)
}

/// A node without children.
pub(crate) fn leaf(
    alloc: Global,
    parts: &[Part],
    ranks: u32,
    proofs: Vec<Proof>,
) -> Result<Node, Fail> {
    let pieces = pieces(alloc, parts)?;
    Ok(Node {
        pieces,
        ranks,
        children: Vec::new(alloc),
        proofs,
    })
}

/// A node over two others.
pub(crate) fn fork(
    alloc: Global,
    parts: &[Part],
    proofs: Vec<Proof>,
    first: Node,
    second: Node,
) -> Result<Node, Fail> {
    let pieces = pieces(alloc, parts)?;
    let children = vec![in alloc; first, second]?;
    Ok(Node {
        pieces,
        ranks: 0,
        children,
        proofs,
    })
}

/// The verdict that the start lies in this piece.
pub(crate) fn start(alloc: Global, piece: u32) -> Result<Verdict, Fail> {
    let cover = into(alloc, piece, 0, &[])?;
    Ok(Verdict::Proved(cover))
}

pub(crate) fn values(alloc: Global, of: &[i128]) -> Result<Verdict, Fail> {
    let values = Vec::from_slice(alloc, of)?;
    Ok(Verdict::Disproved { piece: 0, values })
}
