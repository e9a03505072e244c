ghost use Rattle.std.specs.Prelude.{◌≡◌, ◌≤◌, length};
ghost use Rattle.tv_rank.specs.Given.{AreParts};
ghost use Rattle.tv_nested.specs.Questions.{unknowns_of};

use tv_rank::Question;

/// A solution of the nested system of a question, with `depth` terms at each location.
#[derive(Drop)]
pub struct Solved<'a> {
    pub asked: &'a Question<'a>,
    pub depth: u32,
    pub values: &'a [i128],
    pub ghost shallow: { depth ≤ 4 },
    pub ghost as_many: { length values.now ≡ length (unknowns_of asked.now depth) },
    pub ghost few: { length values.now ≤ 4000000 },
    pub ghost parts: { AreParts values.now },
}
