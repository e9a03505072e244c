use tv_program::{Expr, Relation};

/// Whether an operator speaks of every path or of any path.
#[derive(Clone, Copy, Debug, PartialEq, Eq)]
pub enum Path {
    Every,
    Any,
}

/// How the two arguments of a fixpoint follow each other along a path.
///
/// `f` until `g` reaches `g`, with `f` before it; weak until may also keep `f` for ever. Release and strong release have the
/// arguments exchanged and ask for both at the end: `f` releases `g` where `g` is weak until `f` and `g`.
#[derive(Clone, Copy, Debug, PartialEq, Eq)]
pub enum Shape {
    Until,
    Weak,
    Release,
    Strong,
}

/// A formula as a tree. Its expressions have no draws.
#[derive(Drop)]
pub enum Tree {
    Truth(bool),
    Compare(Relation, Expr, Expr),
    /// The state is at this location.
    At(u32),
    /// No endless run begins here.
    Term,
    Not(Box<Tree>),
    And(Vec<Tree>),
    Or(Vec<Tree>),
    Next(Path, Box<Tree>),
    Fix(Path, Shape, Box<Tree>, Box<Tree>),
}
