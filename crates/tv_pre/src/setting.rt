use std::alloc::Global;
use tv_cases::Cases;
use tv_farkas::Budget;

/// What nodes are made of: the cases of a program, and what each question may cost.
#[derive(Drop)]
pub struct Setting<'a> {
    pub alloc: Global,
    pub about: &'a Cases,
    pub budget: &'a Budget,
}
