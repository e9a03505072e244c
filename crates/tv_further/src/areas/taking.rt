// Choices made of covers: at each leaf a case is taken, or no step leads out.

use crate::areas::area::Area;
use crate::areas::covers::{Target, cover_by};
use crate::formulas::region_part::step_cover;
use std::alloc::{AllocError, Global};
use tv_cert::Proof;
use tv_linear::{Choice, ChoiceTree, Cover, CoverTree, Row, copies, copies_of_lists};
use tv_walks::{Effort, Question, denied};

/// A case that is taken into a target.
#[derive(Drop)]
pub(crate) struct Taken {
    /// The number of the case.
    pub number: u32,
    /// A term for each draw.
    pub draws: Vec<Row>,
    pub target: u32,
    pub fall: u32,
}

/// What may be done where some rows are met.
#[derive(Drop)]
pub(crate) struct Move {
    /// The guards of the case, the rows of the target and those of the fall; or rows that no guards are met with.
    pub rows: Vec<Row>,
    /// The case that is taken; `None` where no step leads out.
    pub taken: Option<Taken>,
}

/// The moves as targets, by their numbers.
fn targets_of(alloc: Global, moves: &[Move]) -> Result<Vec<Target>, AllocError> {
    let mut targets = Vec::new(alloc);
    let mut target: u32 = 0;
    for it in moves {
        let rows = copies(alloc, &it.rows)?;
        let fall = 0;
        targets.push(Target { rows, target, fall })?;
        target = target.saturating_add(1);
    }
    Ok(targets)
}

/// For each case from the location a cover without targets; `None` where one was not found.
fn no_step(
    question: &Question,
    area: &Area,
    effort: &mut Effort,
) -> Result<Option<ChoiceTree>, AllocError> {
    let mut covers: Vec<Cover> = Vec::new(question.alloc);
    for case in question.about.list() {
        if case.from == area.location {
            match step_cover(question, area, case, &[], effort)? {
                None => return Ok(None),
                Some(cover) => covers.push(cover)?,
            }
        }
    }
    Ok(Some(ChoiceTree::NoStep(covers)))
}

/// What is done by a move, whose rows are shown by these lists of multipliers.
fn leaf_of(
    question: &Question,
    area: &Area,
    it: &Move,
    refutations: &[Vec<i64>],
    effort: &mut Effort,
) -> Result<Option<ChoiceTree>, AllocError> {
    match &it.taken {
        None => no_step(question, area, effort),
        Some(taken) => Ok(Some(ChoiceTree::Take {
            taken: taken.number,
            target: taken.target,
            fall: taken.fall,
            draws: copies(question.alloc, &taken.draws)?,
            refutations: copies_of_lists(question.alloc, refutations)?,
        })),
    }
}

/// The area where one more row is met.
fn with_row(alloc: Global, area: &Area, row: Row) -> Result<Area, AllocError> {
    let mut rows = copies(alloc, &area.rows)?;
    rows.push(row)?;
    let location = area.location;
    Ok(Area { location, rows })
}

/// The parts of an area where a row is met and where it is not.
#[derive(Drop)]
struct Halves {
    met: Area,
    other: Area,
}

/// The parts of the area by the row; `None` where its denial is too wide.
fn halves_by(alloc: Global, area: &Area, row: &Row) -> Result<Option<Halves>, AllocError> {
    match denied(alloc, row)? {
        None => Ok(None),
        Some(denial) => {
            let other = with_row(alloc, area, denial)?;
            let met = with_row(alloc, area, row.copy(alloc)?)?;
            Ok(Some(Halves { met, other }))
        }
    }
}

/// The choice that is made of those where the row is met and where it is not.
pub(crate) fn split_choice(
    alloc: Global,
    row: &Row,
    holds: ChoiceTree,
    fails: ChoiceTree,
) -> Result<ChoiceTree, AllocError> {
    let holds = Box::new(alloc, holds)?;
    let fails = Box::new(alloc, fails)?;
    Ok(ChoiceTree::Split(row.copy(alloc)?, holds, fails))
}

/// The choice that the tree is, where target `k` is to make move `k`.
fn choice_tree(
    question: &Question,
    area: &Area,
    tree: &CoverTree,
    moves: &[Move],
    effort: &mut Effort,
) -> Result<Option<ChoiceTree>, AllocError> {
    let alloc = question.alloc;
    match tree {
        CoverTree::Split(row, holds, fails) => {
            let Some(parts) = halves_by(alloc, area, row)? else {
                return Ok(None);
            };
            let Some(holds) = choice_tree(question, &parts.met, holds, moves, effort)? else {
                return Ok(None);
            };
            match choice_tree(question, &parts.other, fails, moves, effort)? {
                None => Ok(None),
                Some(fails) => Ok(Some(split_choice(alloc, row, holds, fails)?)),
            }
        }
        CoverTree::Empty(multipliers) => Ok(Some(ChoiceTree::Empty(Vec::from_slice(
            alloc,
            multipliers,
        )?))),
        CoverTree::Into {
            target,
            fall: _,
            refutations,
        } => match moves.get(*target as usize) {
            None => Ok(None),
            Some(it) => leaf_of(question, area, it, refutations, effort),
        },
    }
}

/// A choice of one of the moves at each state of the area; `None` where none was found.
pub(crate) fn choice_by(
    question: &Question,
    area: &Area,
    moves: &[Move],
    effort: &mut Effort,
) -> Result<Option<Choice>, AllocError> {
    let columns = question.about.variables() as usize;
    let targets = targets_of(question.alloc, moves)?;
    let Some(cover) = cover_by(question.alloc, columns, &area.rows, &targets, effort)? else {
        return Ok(None);
    };
    match choice_tree(question, area, cover.tree(), moves, effort)? {
        None => Ok(None),
        Some(tree) => Ok(Choice::new(tree)),
    }
}

/// Puts the choice of one of the moves at the area at the end of the list; whether there is one.
pub(crate) fn push_choice(
    question: &Question,
    area: &Area,
    moves: &[Move],
    effort: &mut Effort,
    proofs: &mut Vec<Proof>,
) -> Result<bool, AllocError> {
    match choice_by(question, area, moves, effort)? {
        None => Ok(false),
        Some(choice) => {
            proofs.push(Proof::Chosen(choice))?;
            Ok(true)
        }
    }
}
