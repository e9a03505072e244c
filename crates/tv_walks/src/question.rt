ghost use Rattle.std.specs.Prelude.{◌≡◌, IfOk};

use crate::budget::Budget;
use crate::graphs::starting::constants_of;
use std::alloc::{AllocError, Global};
use tv_candidates::Candidate;
use tv_cases::{Case, Cases};
use tv_cert::{Aim, Claim};
use tv_places::{Stand, index};

/// What is to be settled, and what the searches know of the program.
#[derive(Drop)]
pub struct Question<'a> {
    pub alloc: Global,
    pub about: &'a Cases,
    pub budget: &'a Budget,
    /// What the root of a certificate states that says proved.
    pub proved: &'a Aim,
    /// What it states where it says disproved.
    pub denied: &'a Aim,
    /// Rows that hold whenever a run is at their location.
    pub known: &'a [Candidate],
    /// Where the cases from each location stand in the list.
    pub index: Vec<Stand>,
    /// The constants of the program, and numbers near them.
    pub constants: Vec<i64>,
}

/// Where the cases from each location stand in the list.
fn index_of(alloc: Global, list: &[Case]) -> Result<Vec<Stand>, AllocError> {
    let mut left = Vec::with_capacity(alloc, list.len())?;
    for case in list {
        left.push(case.from)?;
    }
    if left.len() >= 1 << 32 {
        return Ok(Vec::new(alloc));
    }
    index(alloc, &left)
}

impl<'a> Question<'a> {
    /// The question whether the claim is so of the cases, within the budget.
    pub fn of(
        alloc: Global,
        about: &'a Cases,
        claim: &'a Claim,
        known: &'a [Candidate],
        budget: &'a Budget,
    ) -> Result<Question<'a>, AllocError>
        ensures about { IfOk result (λ question. question.about.now ≡ about.now) }
        ensures known { IfOk result (λ question. question.known.now ≡ known.now) }
        ensures budget { IfOk result (λ question. question.budget.now ≡ budget.now) }
    {
        Ok(Question {
            alloc,
            about,
            budget,
            proved: claim.proved_aim(),
            denied: claim.denied_aim(),
            known,
            index: index_of(alloc, about.list())?,
            constants: constants_of(alloc, about)?,
        })
    }
}
