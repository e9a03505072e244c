// The regions of a formula and of its parts, from the innermost on.

use crate::formulas::atom_part::atom_part;
use crate::formulas::ending_part::ending_part;
use crate::formulas::endless_part::endless_part;
use crate::formulas::fixed_part::fixed_part;
use crate::formulas::joined_part::{each_of, one_of};
use crate::formulas::next_part::{after_each, after_some};
use crate::formulas::region_part::Part;
use std::alloc::AllocError;
use tv_cert::Aim;
use tv_formula::Path;
use tv_walks::{Effort, Question};

/// The part where the formula is shown to hold; `None` where none was found.
#[cycle(parts)]
pub(crate) fn part_of(
    question: &Question,
    aim: &Aim,
    effort: &mut Effort,
) -> Result<Option<Part>, AllocError> {
    match aim {
        Aim::Rows(_) | Aim::Here(_) | Aim::Elsewhere(_) => atom_part(question, aim, effort),
        Aim::EachOf(aims) => match parts_of(question, aims, effort)? {
            None => Ok(None),
            Some(parts) => each_of(question, parts, effort),
        },
        Aim::OneOf(aims) => match parts_of(question, aims, effort)? {
            None => Ok(None),
            Some(parts) => one_of(question, parts, effort),
        },
        Aim::After(Path::Every, inner) => match part_of(question, inner, effort)? {
            None => Ok(None),
            Some(part) => after_each(question, part, effort),
        },
        Aim::After(Path::Any, inner) => match part_of(question, inner, effort)? {
            None => Ok(None),
            Some(part) => after_some(question, part, effort),
        },
        Aim::Along(path, shape, first, second) => {
            let Some(first) = part_of(question, first, effort)? else {
                return Ok(None);
            };
            let Some(second) = part_of(question, second, effort)? else {
                return Ok(None);
            };
            fixed_part(question, path, shape, first, second, effort)
        }
        Aim::Ends => ending_part(question, effort),
        Aim::NeverEnds => endless_part(question, effort),
    }
}

/// The parts of the formulas; `None` where one was not found.
#[cycle(parts)]
fn parts_of(
    question: &Question,
    aims: &[Aim],
    effort: &mut Effort,
) -> Result<Option<Vec<Part>>, AllocError> {
    let mut parts = Vec::new(question.alloc);
    for aim in aims {
        match part_of(question, aim, effort)? {
            None => return Ok(None),
            Some(part) => parts.push(part)?,
        }
    }
    Ok(Some(parts))
}
