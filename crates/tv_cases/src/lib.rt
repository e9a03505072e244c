//! Programs as linear cases: each way to take an edge, by rows of integers.
#![tactic(auto)]

mod amount;
mod backward;
mod case;
mod comparisons;
mod conditions;
mod edges;
mod fault;
mod linear_form;
mod lists;
mod products;
mod program;
mod relations;
mod rows;
mod terms;

pub use amount::{Amount, amount_of_commands};
pub use backward::{all_before, before};
pub use case::{Case, CaseFault, Cases};
pub use comparisons::{comparison_lists, expression_form};
pub use products::{is_number, is_zero};
pub use program::cases;
pub use tv_linear::Update;
