ghost use Rattle.std.specs.Prelude.{◌≡◌, IfOk};

use std::alloc::{AllocError, Global};
use tv_cert::Marked;
use tv_linear::push_item;

/// Copies of the pieces, in order.
pub(crate) fn copy_all_marked(alloc: Global, pieces: &[Marked]) -> Result<Vec<Marked>, AllocError>
    ensures { IfOk result (λ v. v.items ≡ pieces.now) }
{
    let mut copies = Vec::new(alloc);
    'pieces: for piece in pieces {
        push_item(&mut copies, piece.copy(alloc)?)?;
    }
    Ok(copies)
}
