use crate::areas::area::{Area, both, copy_of, place_among, whole_locations};
use crate::areas::covers::{Target, cover_by, cover_into};
use crate::areas::cutting::push_apart;
use crate::areas::entering::entries_from;
use crate::areas::passage::{rows_entered, rows_left, width_of};
use crate::areas::taking::{Move, Taken, choice_by, push_choice};
use std::alloc::{AllocError, Global};
use tv_cases::Case;
use tv_cert::{Mark, Marked, Node, Proof};
use tv_linear::{Cover, Row};
use tv_shape::node_of;
use tv_walks::{Effort, Question};

/// A formula where it is shown to hold: its node, and the areas of its pieces, in their order.
#[derive(Drop)]
pub(crate) struct Part {
    pub node: Node,
    pub areas: Vec<Area>,
}

/// Areas and what shows them.
#[derive(Drop)]
pub(crate) struct Shown {
    pub areas: Vec<Area>,
    pub proofs: Vec<Proof>,
}

impl Shown {
    /// No areas yet.
    pub(crate) fn new(alloc: Global) -> Shown {
        Shown {
            areas: Vec::new(alloc),
            proofs: Vec::new(alloc),
        }
    }
}

/// The piece of an area.
pub(crate) fn piece_of(
    alloc: Global,
    columns: usize,
    area: &Area,
    mark: Mark,
    ranks: &[Row],
) -> Result<Option<Marked>, AllocError> {
    if columns >= 1 << 31 {
        return Ok(None);
    }
    Marked::from_rows(
        alloc,
        area.location,
        mark,
        columns as u32,
        &area.rows,
        ranks,
    )
}

/// The pieces of the areas, which all go on without ranks.
fn plain_pieces(
    alloc: Global,
    columns: usize,
    areas: &[Area],
) -> Result<Option<Vec<Marked>>, AllocError> {
    let mut pieces = Vec::new(alloc);
    for area in areas {
        match piece_of(alloc, columns, area, Mark::Go, &[])? {
            None => return Ok(None),
            Some(piece) => pieces.push(piece)?,
        }
    }
    Ok(Some(pieces))
}

/// The part of these areas, whose pieces go on without ranks.
pub(crate) fn plain_part(
    question: &Question,
    areas: Vec<Area>,
    children: Vec<Node>,
    proofs: Vec<Proof>,
) -> Result<Option<Part>, AllocError> {
    let columns = question.about.variables() as usize;
    match plain_pieces(question.alloc, columns, &areas)? {
        None => Ok(None),
        Some(pieces) => {
            let node = node_of(question.alloc, pieces, 0, children, proofs)?;
            Ok(Some(Part { node, areas }))
        }
    }
}

/// Puts the cover at the end of the list, where there is one; whether there is.
pub(crate) fn push_cover(
    proofs: &mut Vec<Proof>,
    cover: Option<Cover>,
) -> Result<bool, AllocError> {
    match cover {
        None => Ok(false),
        Some(cover) => {
            proofs.push(Proof::Covered(cover))?;
            Ok(true)
        }
    }
}

/// Puts the cover of the area by others at its location at the end of the list.
pub(crate) fn push_into(
    question: &Question,
    area: &Area,
    areas: &[Area],
    effort: &mut Effort,
    proofs: &mut Vec<Proof>,
) -> Result<bool, AllocError> {
    let columns = question.about.variables() as usize;
    let cover = cover_into(
        question.alloc,
        columns,
        &area.rows,
        areas,
        area.location,
        effort,
    )?;
    push_cover(proofs, cover)
}

/// The areas where the case leads, as targets without a fall: those among the first `most` areas.
pub(crate) fn targets_after(
    question: &Question,
    case: &Case,
    areas: &[Area],
    most: usize,
) -> Result<Vec<Target>, AllocError> {
    let columns = question.about.variables() as usize;
    let mut targets = Vec::new(question.alloc);
    for (place, area) in areas.iter().enumerate() {
        if place < most
            && area.location == case.to
            && let Some(rows) = rows_entered(question.alloc, columns, case, &area.rows)?
        {
            targets.push(Target {
                rows,
                target: place_among(areas, place),
                fall: 0,
            })?;
        }
    }
    Ok(targets)
}

/// The cover of a step by the case from the area into the targets.
pub(crate) fn step_cover(
    question: &Question,
    area: &Area,
    case: &Case,
    targets: &[Target],
    effort: &mut Effort,
) -> Result<Option<Cover>, AllocError> {
    let columns = question.about.variables() as usize;
    match rows_left(question.alloc, columns, case, &area.rows)? {
        None => Ok(None),
        Some(rows) => cover_by(
            question.alloc,
            width_of(columns, case),
            &rows,
            targets,
            effort,
        ),
    }
}

/// Puts a cover of the steps by each case from the area into areas at the end of the list.
pub(crate) fn push_steps_into(
    question: &Question,
    area: &Area,
    areas: &[Area],
    effort: &mut Effort,
    proofs: &mut Vec<Proof>,
) -> Result<bool, AllocError> {
    for case in question.about.list() {
        if case.from == area.location {
            let targets = targets_after(question, case, areas, areas.len())?;
            let cover = step_cover(question, area, case, &targets, effort)?;
            if !push_cover(proofs, cover)? {
                return Ok(false);
            }
        }
    }
    Ok(true)
}

/// A move for each way to step from the location, wherever it leads.
fn moves_from(question: &Question, location: u32) -> Result<Vec<Move>, AllocError> {
    let everywhere = whole_locations(question)?;
    let mut moves = Vec::new(question.alloc);
    for entry in entries_from(question, location, &everywhere, 0)? {
        let taken = Some(Taken {
            number: entry.number,
            draws: entry.draws,
            target: 0,
            fall: 0,
        });
        let rows = entry.rows;
        moves.push(Move { rows, taken })?;
    }
    Ok(moves)
}

/// Puts the choice that some case can be taken from the area at the end of the list.
pub(crate) fn push_some_step(
    question: &Question,
    area: &Area,
    effort: &mut Effort,
    proofs: &mut Vec<Proof>,
) -> Result<bool, AllocError> {
    let moves = moves_from(question, area.location)?;
    push_choice(question, area, &moves, effort, proofs)
}

/// The parts of the area where some case can be taken from each part: the area itself, if it is so everywhere.
pub(crate) fn live_parts(
    question: &Question,
    area: &Area,
    effort: &mut Effort,
) -> Result<Vec<Area>, AllocError> {
    let moves = moves_from(question, area.location)?;
    match choice_by(question, area, &moves, effort)? {
        None => parts_by(question, area, &moves, effort),
        Some(_) => {
            let mut parts = Vec::new(question.alloc);
            parts.push(copy_of(question.alloc, area)?)?;
            Ok(parts)
        }
    }
}

/// The parts of the area where one of the moves can be made from each part. None of them lies inside of an earlier one.
fn parts_by(
    question: &Question,
    area: &Area,
    moves: &[Move],
    effort: &mut Effort,
) -> Result<Vec<Area>, AllocError> {
    let alloc = question.alloc;
    let columns = question.about.variables() as usize;
    let mut parts = Vec::new(alloc);
    for made in moves {
        if let Some(rows) = both(alloc, columns, &area.rows, &made.rows, effort)? {
            push_apart(question, area.location, rows, &mut parts, effort)?;
        }
    }
    Ok(parts)
}
