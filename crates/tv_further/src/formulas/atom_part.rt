// Formulas without arguments.

use crate::areas::area::Area;
use crate::areas::covers::{Target, cover_by};
use crate::areas::known::known_at;
use crate::formulas::region_part::{Part, Shown, plain_part, push_cover};
use std::alloc::{AllocError, Global};
use tv_cert::{Aim, Proof};
use tv_linear::{Row, copies};
use tv_walks::{Effort, Question, may_have_point};

/// The rows, and what is known at the location.
fn with_known(question: &Question, location: u32, rows: &[Row]) -> Result<Vec<Row>, AllocError> {
    let mut all = copies(question.alloc, rows)?;
    all.append(&mut known_at(question, location)?)?;
    Ok(all)
}

/// Puts the cover of the rows by one target at the end of the list; whether there is one.
fn push_alone(
    question: &Question,
    rows: &[Row],
    target: Target,
    effort: &mut Effort,
    proofs: &mut Vec<Proof>,
) -> Result<bool, AllocError> {
    let columns = question.about.variables() as usize;
    let mut targets = Vec::new(question.alloc);
    targets.push(target)?;
    let cover = cover_by(question.alloc, columns, rows, &targets, effort)?;
    push_cover(proofs, cover)
}

/// Adds the area of the rows of a target, with what is known at the location, unless no point meets it; whether it is shown.
fn add_plain(
    question: &Question,
    location: u32,
    target: Target,
    effort: &mut Effort,
    shown: &mut Shown,
) -> Result<bool, AllocError> {
    let columns = question.about.variables() as usize;
    let rows = with_known(question, location, &target.rows)?;
    if !question.known.is_empty() && !may_have_point(question.alloc, &rows, columns, effort)? {
        return Ok(true);
    }
    let is_shown = push_alone(question, &rows, target, effort, &mut shown.proofs)?;
    if is_shown {
        shown.areas.push(Area { location, rows })?;
    }
    Ok(is_shown)
}

/// Lists of rows: one of the lists is met where the formula, which has no arguments, holds at the location.
fn lists_where(alloc: Global, aim: &Aim, location: u32) -> Result<Vec<Vec<Row>>, AllocError> {
    let mut lists = Vec::new(alloc);
    match aim {
        Aim::Rows(wanted) => {
            for rows in wanted {
                lists.push(copies(alloc, rows)?)?;
            }
        }
        Aim::Here(own) if *own == location => lists.push(Vec::new(alloc))?,
        Aim::Elsewhere(own) if *own != location => lists.push(Vec::new(alloc))?,
        _ => {}
    }
    Ok(lists)
}

/// Adds the areas of the location and what shows them; whether all are shown.
fn add_all_plain(
    question: &Question,
    aim: &Aim,
    location: u32,
    effort: &mut Effort,
    shown: &mut Shown,
) -> Result<bool, AllocError> {
    let mut number: u32 = 0;
    for rows in lists_where(question.alloc, aim, location)? {
        let target = Target {
            rows,
            target: number,
            fall: 0,
        };
        if !add_plain(question, location, target, effort, shown)? {
            return Ok(false);
        }
        number = number.saturating_add(1);
    }
    Ok(true)
}

/// The part of a formula without arguments.
pub(crate) fn atom_part(
    question: &Question,
    aim: &Aim,
    effort: &mut Effort,
) -> Result<Option<Part>, AllocError> {
    let mut shown = Shown::new(question.alloc);
    for location in 0..question.about.locations() {
        if !add_all_plain(question, aim, location, effort, &mut shown)? {
            return Ok(None);
        }
    }
    let Shown { areas, proofs } = shown;
    let children = Vec::new(question.alloc);
    plain_part(question, areas, children, proofs)
}
