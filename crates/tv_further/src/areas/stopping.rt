// Where no step leads out of a location.

use crate::areas::cutting::cut_by_all;
use crate::areas::passage::width_of;
use crate::areas::shadow::shadow;
use std::alloc::AllocError;
use tv_linear::Row;
use tv_walks::{Effort, Question};

/// Lists of rows where no guards of a case from the location are met, whatever is drawn; none where there are too many.
pub(crate) fn stops_at(
    question: &Question,
    location: u32,
    effort: &mut Effort,
) -> Result<Vec<Vec<Row>>, AllocError> {
    let alloc = question.alloc;
    let columns = question.about.variables() as usize;
    let mut lists = Vec::new(alloc);
    for case in question.about.list() {
        if case.from == location
            && let Some(rows) = shadow(
                alloc,
                columns,
                width_of(columns, case),
                &case.guards.rows,
            )?
        {
            lists.push(rows)?;
        }
    }
    match cut_by_all(alloc, columns, &[], &lists, effort)? {
        None => Ok(Vec::new(alloc)),
        Some(parts) => Ok(parts),
    }
}
