use tv_formula::{Path, Shape};
use tv_linear::Region;

/// A fixpoint of two regions: `hold` on the way, until `end` or, where the shape allows it, for ever.
///
/// The end side is where all end sides hold. So `X[f U g]` and `X[f W g]` have `f` and `g`, and `X[f M g]` and `X[f R g]` have `g` and the
/// states of both.
#[derive(Drop)]
pub struct FixedPoint<'a> {
    pub path: Path,
    pub shape: Shape,
    pub hold: &'a Region,
    pub end: &'a Region,
}
