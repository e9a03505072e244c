ghost use Rattle.std.specs.Prelude.{◌<◌, ◌^◌, length};
ghost use Rattle.tv_linear.specs.Views.{rows_seen};

use tv_linear::Rows;

/// A fall from ranks to others, by the place of the rank that falls.
#[derive(Drop)]
pub struct Fall<'a> {
    pub old: Rows<'a>,
    pub new: Rows<'a>,
    pub place: usize,
    pub ghost before: { place < length (rows_seen old) },
    pub ghost after: { place < length (rows_seen new) },
    pub ghost bounded: { place < 2 ^ 32 },
}
