use crate::task::Task;
use tv_cases::Cases;
use tv_cert::Claim;
use tv_program::Program;

/// What is searched for: a certificate of what is claimed of a program, over its linear cases.
#[derive(Drop)]
pub(crate) struct Search<'a> {
    pub task: &'a Task<'a>,
    pub program: &'a Program,
    pub about: &'a Cases,
    pub claim: &'a Claim,
}
