ghost use Rattle.std.specs.Prelude.{◌≡◌, ◌<◌, ◌+◌, ◌^◌, length};
ghost use Rattle.tv_refute.specs.Frames.{known_at};
ghost use Rattle.tv_check_text.specs.Checking.{ChecksLists};
ghost use Rattle.tv_cert.specs.Entering.{owed_listed};

use std::alloc::Global;
use tv_cert::OwedRows;
use tv_cert_reader::{Cursor, Failure, NumberLine, numbers};
use tv_refute::Frames;

/// Reads a line of multipliers for each of the rows, and says whether each line shows its row.
pub fn rows_are_shown(
    alloc: Global,
    cursor: &mut Cursor,
    columns: usize,
    frames: &Frames,
    known: u128,
    owed: &OwedRows,
) -> Result<bool, Failure>
    requires counted { known ≡ length (known_at frames.now) }
    requires room { known < 2 ^ 127 }
    ensures { ChecksLists columns (known_at frames.now) (owed_listed owed.now) cursor.old cursor.new result }
{
    let mut met = true;
    'rows: for place in 0..owed.count() {
        let multipliers = numbers(alloc, cursor, NumberLine::By, known + 1)?;
        let shown = owed.is_shown(columns, frames, place, &multipliers);
        met = met && shown;
    }
    Ok(met)
}
