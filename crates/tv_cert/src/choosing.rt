use crate::node::Marked;
use crate::owes::Destination;
use tv_cases::Cases;

/// What a choice at a piece goes by: where it is to lead, and whether it may show that there is no step.
#[derive(Clone, Copy)]
pub struct Choosing<'a> {
    pub about: &'a Cases,
    pub piece: &'a Marked,
    pub stop: bool,
    pub destination: &'a Destination<'a>,
}
