ghost use Rattle.std.specs.Prelude.{◌≡◌, ◌↔◌, [], IsTrue, length, IsSome, slice_get};
ghost use Rattle.tv_linear.specs.Known.{given};
ghost use Rattle.tv_cases.specs.Systems.{cases_of};
ghost use Rattle.tv_cert.specs.declared.node.Proof.TheVariants.{Covered};
ghost use Rattle.tv_cert.specs.Obligations.{a_cover};
ghost use Rattle.tv_cert.specs.Pieces.{pieces_at};
ghost use Rattle.tv_cert.specs.AboutSystem.{about_of};
ghost use Rattle.tv_cert.specs.Shapes.{ProofShape};
ghost use Rattle.tv_cert.specs.Targets.{owed_into, no_fall};
ghost use Rattle.tv_shape.specs.Fitting.{VerdictFits, VerdictShallow};

use crate::covers::cover_has_shape;
use crate::depths::cover_goes_within;
use crate::narrow::cover_is_narrow;
use crate::nodes::MAX_DEPTH;
use tv_cases::Cases;
use tv_cert::{Pieces, Targets, Verdict};
use tv_linear::{Cover, are_narrow};

/// Whether the cover has the shape of one of the start by these pieces.
fn start_has_shape(about: &Cases, pieces: &Pieces, start: &Cover) -> bool
    ensures { let system = cases_of about.now in
        IsTrue result ↔ ProofShape (a_cover system.variables [] (owed_into pieces.now system.start given no_fall)) (Covered start.now) }
{
    let targets = Targets::Pieces {
        from: None,
        into: pieces,
        location: about.start(),
    };
    cover_has_shape(start.tree(), about.variables() as usize, 0, &targets)
}

/// Whether there is this piece at the start, and as many values as variables.
fn values_have_shape(about: &Cases, pieces: &Pieces, piece: u32, values: &[i128]) -> bool
    ensures { let system = cases_of about.now in
        IsTrue result ↔ ((length values.now ≡ system.variables) × IsSome (slice_get (pieces_at pieces.now system.start) piece)) }
{
    values.len() == about.variables() as usize && pieces.at(about.start(), piece).is_some()
}

/// Whether the verdict has its shape over the pieces of the root, and narrow numbers.
pub fn verdict_has_shape(about: &Cases, pieces: &Pieces, verdict: &Verdict) -> bool
    ensures { IsTrue result ↔ VerdictFits (about_of (cases_of about.now)) pieces.now verdict.now }
{
    match verdict {
        Verdict::Proved(start) => {
            start_has_shape(about, pieces, start) && cover_is_narrow(start.tree())
        }
        Verdict::Disproved { piece, values } => {
            values_have_shape(about, pieces, *piece, values) && are_narrow(values)
        }
    }
}

/// Whether no split of the verdict lies too deep.
pub fn verdict_is_shallow(verdict: &Verdict) -> bool
    ensures { IsTrue result ↔ VerdictShallow verdict.now }
{
    match verdict {
        Verdict::Proved(start) => cover_goes_within(start.tree(), MAX_DEPTH),
        Verdict::Disproved { .. } => true,
    }
}
