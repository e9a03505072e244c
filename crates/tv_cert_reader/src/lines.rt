ghost use Rattle.std.specs.Prelude.{IfOk};
ghost use Rattle.tv_lines.specs.Lines.{FitsHead};
ghost use Rattle.tv_cert_reader.specs.Reading.{TakesLine};

use crate::cursor::Cursor;
use crate::failure::Failure;
use crate::kind::LineKind;
use std::alloc::Global;
use tv_lines::{Head, Line};

/// The head and the numbers of the next line.
pub fn take(alloc: Global, cursor: &mut Cursor) -> Result<(Head, Vec<i64>), Failure>
    ensures line { TakesLine cursor.old cursor.new result }
    ensures fit { IfOk result (λ x. FitsHead x.0 x.1.items) }
{
    let Some(line) = cursor.lines.next(alloc)? else {
        return Err(Failure::Fault(LineKind::Syntax, cursor.taken + 1));
    };
    cursor.taken += 1;
    match line {
        Line::Formed(head, numbers) => Ok((head, numbers)),
        Line::Formless => Err(Failure::Fault(LineKind::Syntax, cursor.taken)),
        Line::Wide => Err(Failure::Fault(LineKind::Wide, cursor.taken)),
    }
}
