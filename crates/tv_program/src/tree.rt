/// An integer made of numbers, variables and draws.
///
/// Variables are numbered over the program, draws over their edge. A subtraction is `Minus` inside a `Sum`.
#[derive(Drop)]
pub enum Expr {
    Number(i128),
    Variable(u32),
    Draw(u32),
    Minus(Box<Expr>),
    Sum(Vec<Expr>),
    Product(Vec<Expr>),
}

/// How two numbers are compared.
#[derive(Clone, Copy, Debug, PartialEq, Eq)]
pub enum Relation {
    Less,
    LessEqual,
    Greater,
    GreaterEqual,
    Equal,
    NotEqual,
}

/// A condition on numbers.
#[derive(Drop)]
pub enum Cond {
    Truth(bool),
    Compare(Relation, Expr, Expr),
    Not(Box<Cond>),
    And(Vec<Cond>),
    Or(Vec<Cond>),
}

/// One command of an edge: the edge is blocked where an assumption is false.
#[derive(Drop)]
pub enum Command {
    Assume(Cond),
    Assign(u32, Expr),
}

/// A step of the program: from one location to another, by commands in order.
#[derive(Drop)]
pub struct Edge {
    pub from: u32,
    pub to: u32,
    /// How many draws of any integer the commands have.
    pub draws: u32,
    pub commands: Vec<Command>,
}
