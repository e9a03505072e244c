use std::alloc::Global;
use tv_cases::Cases;

/// What certificates are read with.
#[derive(Clone, Copy)]
pub struct Context<'c> {
    pub alloc: Global,
    pub about: &'c Cases,
}
