// Where a run begins that never ends: closed cycles, and areas that are cut until from each of them some step stays.

use crate::areas::sides::Sides;
use crate::formulas::cycles_within::with_cycles;
use crate::formulas::ending_part::first_areas;
use crate::formulas::fixed_part::with_hold;
use crate::formulas::found::{Found, end_alone};
use crate::formulas::kept::Staying;
use crate::formulas::region_part::{Part, plain_part};
use std::alloc::AllocError;
use tv_walks::{Effort, Question};

/// Where a run is shown to begin that never ends, which may be nowhere.
pub(crate) fn endless_part(
    question: &Question,
    effort: &mut Effort,
) -> Result<Option<Part>, AllocError> {
    let areas = first_areas(question)?;
    let sides = Sides {
        hold: &areas,
        owes_hold: false,
        end: &[],
        first: None,
        second: &[],
    };
    let Some(first) = end_alone(question, &sides, 0, effort)? else {
        return Ok(None);
    };
    let found = with_cycles(question, &sides, first, effort)?;
    let found = with_hold(question, Staying::Any, &sides, found, effort)?;
    let Found {
        stages,
        ranks: _,
        proofs,
    } = found;
    plain_part(question, stages.areas, Vec::new(question.alloc), proofs)
}
