//! Lexicographic linear ranks of a program, under rows that are known: a node of a certificate that shows that every run from the known
//! states ends, or a set of cases that no term ranks.
#![tactic(auto)]

mod attempt;
mod certificate;
mod closed;
mod component;
mod covering;
mod falling;
mod fault;
mod greedy;
mod inside;
mod known;
mod laws;
mod lexicographic;
mod more;
mod narrow;
mod node;
mod offered;
mod part;
mod pieces;
mod ranked;
mod ranking;
mod round;
mod shown;
mod sorting;
mod step;

pub use attempt::bare_region;
pub use certificate::{known_certificate, proved_certificate, ranked_certificate, start_cover};
pub use closed::{closing, whole_cover};
pub use component::Component;
pub use covering::{Fallen, fall_of, place_in, zero_line};
pub use falling::{Fall, append_spread, put_in, with_fall};
pub use fault::RankFault;
pub use greedy::{Greedy, Turn, rounds_of, take_turn, without};
pub use inside::stands_inside;
pub use known::{are_known, known_at, rowed_at};
pub use laws::{stuck_sets_are_unranked, systems_do_not_lack_memory};
pub use lexicographic::{arcs_of, components_of, count_of, first_attempt, lex_rank};
pub use more::under_more;
pub use narrow::narrow_tree;
pub use offered::starts_of;
pub use pieces::{push_zeros, term_at};
pub use ranked::Ranked;
pub use round::Round;
pub use shown::CaseShown;
pub use sorting::{Sorted, case_of, sort_cases};
