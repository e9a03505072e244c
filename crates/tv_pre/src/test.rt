use tv_linear::Row;

/// What an atom asks of a state.
#[derive(Drop)]
pub enum Test<'a> {
    /// All rows of one of these lists are met, as a comparison asks. True has one list without rows, and false has none.
    Rows(&'a [Vec<Row>]),
    /// The state is at this location.
    Here(u32),
    Elsewhere(u32),
}
