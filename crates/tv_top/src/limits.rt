ghost use Rattle.std.specs.Prelude.{◌≤◌};

/// How many pieces of a region are kept at a location where the words do not say how many.
pub(crate) const USUAL_PIECES: u32 = 256;

/// How many bases of a linear system are tried where the words do not say how many.
pub(crate) const USUAL_PIVOTS: u32 = 100_000;

/// How many splits lie on a path where the words do not say how many.
pub(crate) const USUAL_SPLITS: u32 = 64;

/// How far a search goes.
#[derive(Clone, Copy)]
pub struct Limits {
    /// How many bases of a linear system are tried.
    pub pivots: u32,
    /// How many splits lie on a path.
    pub splits: u32,
    /// How many pieces a region has.
    pub disjuncts: u32,
    ghost bounded: { splits ≤ 128 },
}
