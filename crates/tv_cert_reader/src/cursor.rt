ghost use Rattle.std.specs.Prelude.{◌+◌, ◌-◌, ◌<◌, ◌^◌, length};

use tv_lines::Lines;

/// The lines of a text that are left, and how many were taken before them.
#[derive(Drop)]
pub struct Cursor<'a> {
    pub lines: Lines<'a>,
    pub taken: u32,
    pub ghost room: { taken + length lines < 2 ^ 32 - 1 },
}
