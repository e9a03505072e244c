ghost use Rattle.std.specs.Prelude.{◌^◌, ◌<◌, length};

use std::alloc::Global;
use tv_language::Token;

/// A text and its tokens, whether names are added, and the level that brackets count from.
#[derive(Drop)]
pub struct Source<'a> {
    pub text: &'a [u8],
    pub list: &'a [Token],
    pub grows: bool,
    pub level: u32,
    pub alloc: Global,
    // The number of a token fits 32 bits.
    ghost bounded: { length list.now < 2 ^ 32 },
}
