use tv_linear::Row;

/// A step that a choice takes, as `ChoiceTree::Take` has it.
#[derive(Clone, Copy)]
pub struct Take<'a> {
    pub taken: u32,
    pub target: u32,
    pub fall: u32,
    pub draws: &'a [Row],
    pub refutations: &'a [Vec<i64>],
}
