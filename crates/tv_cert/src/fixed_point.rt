use crate::pieces::Pieces;
use tv_formula::{Path, Shape};

/// A fixpoint, with the pieces of both its arguments.
#[derive(Clone, Copy)]
pub(crate) struct FixedPoint<'a> {
    pub(crate) path: Path,
    pub(crate) shape: Shape,
    pub(crate) first: &'a Pieces,
    pub(crate) second: &'a Pieces,
}
