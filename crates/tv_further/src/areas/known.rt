// What every run keeps to.

use std::alloc::AllocError;
use tv_linear::Row;
use tv_walks::Question;

/// Copies of the rows that are known at the location.
pub(crate) fn known_at(question: &Question, location: u32) -> Result<Vec<Row>, AllocError> {
    let mut rows = Vec::new(question.alloc);
    for candidate in question.known {
        if candidate.location == location {
            rows.push(candidate.row.copy(question.alloc)?)?;
        }
    }
    Ok(rows)
}
