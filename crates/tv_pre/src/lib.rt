//! The nodes of a certificate for the shapes of a formula, made of regions where the formula and its arguments hold.
#![tactic(auto)]

mod after;
mod along;
mod asking;
mod atoms;
mod between;
mod coming;
mod copying;
mod cycle;
mod deciding;
mod differences;
mod empty;
mod ending;
mod endless;
mod ends;
mod equality;
mod falls;
mod fault;
mod finding;
mod gap;
mod growing;
mod inside;
mod joining;
mod junction;
mod laws;
mod lowering;
mod marking;
mod narrow;
mod outcome;
mod part;
mod plain;
mod proving;
mod ranked_along;
mod ranked_cases;
mod ranked_coming;
mod ranked_end;
mod ranked_marking;
mod ranked_steps;
mod ranking;
mod regions;
mod rows;
mod search;
mod setting;
mod sides;
mod starting;
mod staying;
mod tame;
mod targets;
mod termination;
mod test;
mod trees;
mod wide;

pub use after::next;
pub use atoms::atom;
pub use deciding::{Unproved, prove};
pub use ending::ends_by_rounds;
pub use endless::never_ends;
pub use fault::PreFault;
pub use finding::found;
pub use gap::Gap;
pub use growing::until;
pub use junction::{each_of, one_of};
pub use laws::{
    acyclic_programs_are_ranked, acyclic_rounds_settle, decided_claims_are_told, full_regions_tell,
    questions_are_within_size, ranked_untils_are_told, refusals_are_within_size,
    regions_are_within_size, settled_claims_are_told,
};
pub use outcome::Found;
pub use part::Part;
pub use ranked_cases::RankedCases;
pub use ranked_coming::ranked_until;
pub use ranked_end::ends_ranked;
pub use setting::Setting;
pub use sides::Sides;
pub use staying::weak;
pub use test::Test;
