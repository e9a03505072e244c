use crate::row::Row;

/// Rows with equal columns. A point is in it where it meets each.
#[derive(Drop)]
pub struct Poly {
    pub columns: u32,
    pub rows: Vec<Row>,
}

/// The states at a location whose values are in a poly.
#[derive(Drop)]
pub struct Piece {
    pub location: u32,
    pub poly: Poly,
}

/// The states of some pieces, over `variables` variables and `locations` locations.
#[derive(Drop)]
pub struct Region {
    pub variables: u32,
    pub locations: u32,
    pub pieces: Vec<Piece>,
}

/// The term that a variable is given.
#[derive(Drop)]
pub struct Update {
    pub variable: u32,
    pub term: Row,
}
