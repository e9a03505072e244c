use crate::node::Marked;
use tv_cases::Cases;

/// A piece of the node with this number, over the cases of the program.
#[derive(Clone, Copy)]
pub(crate) struct At<'a> {
    pub(crate) about: &'a Cases,
    pub(crate) number: u32,
    pub(crate) piece: &'a Marked,
}
