ghost use Rattle.std.specs.Prelude.{◌≡◌, ℕ, Bool, List, Option, length};
ghost use Rattle.tv_linear.specs.Known.{Known};
ghost use Rattle.tv_cases.specs.LinearCases.{CaseSystem};
ghost use Rattle.tv_cert.specs.declared.node.Marked.{Marked};
ghost use Rattle.tv_cert.specs.declared.owes.Destination.{Destination};
ghost use Rattle.tv_refute.specs.Frames.{known_at};
ghost use Rattle.tv_cert_reader.specs.declared.cursor.Cursor.{Cursor};
ghost use Rattle.tv_cert_reader.specs.Covers.{IsBehind};
ghost use Rattle.tv_check_text.specs.Checking.{ChecksChoice, ChecksCover};

use tv_cert_reader::{Failure, LineKind};
use tv_lines::Head;
use tv_refute::{Frames, refutes};

/// Whether the multipliers of a line refute the place, if there are as many as rows: in a cover and in a choice.
pub fn is_empty(
    columns: u32,
    frames: &Frames,
    known: u128,
    multipliers: Vec<i64>,
    line: u32,
) -> Result<bool, Failure>
    requires counted { known ≡ length (known_at frames.now) }
    ensures cover { (owed : ℕ → ℕ → Option (List Known)) (left : ℕ) (old new : Cursor) →
        IsBehind Head.Empty multipliers.items old new → new.taken ≡ line →
        ChecksCover columns owed (known_at frames.now) left old new result }
    ensures choice { (system : CaseSystem) (piece : Marked) (stop : Bool) (destination : Destination) (left : ℕ) (old new : Cursor) →
        columns ≡ system.variables → IsBehind Head.Empty multipliers.items old new → new.taken ≡ line →
        ChecksChoice system piece stop destination (known_at frames.now) left old new result }
{
    if multipliers.len() as u128 == known {
        Ok(refutes(columns as usize, frames, &multipliers))
    } else {
        Err(Failure::Fault(LineKind::Shape, line))
    }
}
