ghost use Rattle.std.specs.Prelude.{◌≡◌, ◌↔◌, IsTrue, length, true, false, if◌then◌else◌};
ghost use Rattle.tv_cases.specs.Systems.{cases_of};
ghost use Rattle.tv_cert.specs.Pieces.{ranks_of, goes};
ghost use Rattle.tv_cert.specs.Shapes.{PieceShape};

use tv_cases::Cases;
use tv_cert::{Mark, Marked};

/// Whether the mark may stand there, in a node with `ranks` ranks.
fn mark_has_ranks(piece: &Marked, ranks: u32, done: bool) -> bool
    ensures { IsTrue result ↔ ((length (ranks_of piece.now) ≡ (if goes piece.now then ranks else 0)) × (done ≡ false → goes piece.now ≡ true)) }
{
    match piece.mark() {
        Mark::Go => piece.ranks().len() == ranks as usize,
        Mark::Done => done && piece.ranks().is_empty(),
    }
}

/// Whether it has the shape of a piece of a node with `ranks` ranks; the piece may be done where `done` is true.
pub fn piece_has_shape(about: &Cases, piece: &Marked, ranks: u32, done: bool) -> bool
    ensures { IsTrue result ↔ PieceShape (cases_of about.now) ranks done piece.now }
{
    piece.location() < about.locations()
        && piece.columns() == about.variables()
        && mark_has_ranks(piece, ranks, done)
}
