use crate::Entries;

/// Linear equations for numbers of at least 0: the entries stand row by row, and each row has a right side.
#[derive(Drop)]
pub struct System {
    pub rows: u32,
    pub columns: u32,
    pub entries: Entries,
    pub right: Vec<i128>,
}
