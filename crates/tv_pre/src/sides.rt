use tv_formula::{Path, Shape};
use tv_linear::Region;

/// The regions of the two arguments of a fixpoint, in order.
///
/// In `X[f U g]` and `X[f W g]` the first one holds on the way and the second one at the end; in `X[f M g]` and `X[f R g]` the second one
/// holds on the way and both at the end.
#[derive(Drop)]
pub struct Sides<'a> {
    pub path: Path,
    pub shape: Shape,
    pub first: &'a Region,
    pub second: &'a Region,
}
