ghost use Rattle.std.specs.Prelude.{◌≡◌};
ghost use Rattle.tv_formula_reader.specs.Operators.{path_of, single_of, shape_of, operator_by, operator_of};

use tv_formula::{Path, Shape};

/// What an operator of one argument says of a path.
#[derive(Clone, Copy)]
pub enum Single {
    /// `X`: at the next state.
    Successor,
    /// `F`: at some state from here on.
    Finally,
    /// `G`: at all states from here on.
    Globally,
}

/// An operator, by how many arguments it has.
#[derive(Clone, Copy)]
pub enum Operator {
    One(Path, Single),
    Two(Path, Shape),
}

fn path_of(letter: u8) -> Option<Path>
    ensures { result ≡ path_of letter }
{
    if letter == b'A' {
        Some(Path::Every)
    } else if letter == b'E' {
        Some(Path::Any)
    } else {
        None
    }
}

fn single_of(letter: u8) -> Option<Single>
    ensures { result ≡ single_of letter }
{
    if letter == b'X' {
        Some(Single::Successor)
    } else if letter == b'F' {
        Some(Single::Finally)
    } else if letter == b'G' {
        Some(Single::Globally)
    } else {
        None
    }
}

fn shape_of(letter: u8) -> Option<Shape>
    ensures { result ≡ shape_of letter }
{
    if letter == b'U' {
        Some(Shape::Until)
    } else if letter == b'W' {
        Some(Shape::Weak)
    } else if letter == b'R' {
        Some(Shape::Release)
    } else if letter == b'M' {
        Some(Shape::Strong)
    } else {
        None
    }
}

fn operator_by(path: Option<Path>, single: Option<Single>, shape: Option<Shape>) -> Option<Operator>
    ensures { result ≡ operator_by path single shape }
{
    match (path, single, shape) {
        (Some(path), Some(single), _) => Some(Operator::One(path, single)),
        (Some(path), None, Some(shape)) => Some(Operator::Two(path, shape)),
        _ => None,
    }
}

/// The operator that a word of two letters is: one for the path, and one for what is said of it.
pub fn operator_of(word: &[u8]) -> Option<Operator>
    ensures { result ≡ operator_of word.now }
{
    match word {
        [path, kind] => operator_by(path_of(*path), single_of(*kind), shape_of(*kind)),
        _ => None,
    }
}
