ghost use Rattle.std.specs.Prelude.{◌≡◌, IfOk, IfSome, OnErr};
ghost use Rattle.tv_lines.specs.Lines.{lines_of, plain, IsFit, TakesFirst};

use crate::line::{Line, read_line};
use crate::words::{cut, without_return};
use std::alloc::{AllocError, Global};
use std::marker::Model;

/// The lines of a text that are not yet read.
#[derive(Drop)]
pub struct Lines<'a> {
    rest: &'a [u8],
}

impl<'a> Model for Lines<'a> {
    ghost use Rattle.std.specs.Prelude.{List};
    ghost use Rattle.tv_lines.specs.Lines.{PlainLine, lines_of};

    ghost Value = { List PlainLine };

    ghost view = { λ l. lines_of l.rest.now };
}

impl<'a> Lines<'a> {
    /// All lines of a text.
    pub fn new(text: &'a [u8]) -> Lines<'a>
        ensures { result ≡ lines_of text.now }
    {
        Lines { rest: text }
    }

    /// The next line, if there is one.
    ///
    /// The time is linear in the line. A line takes 8 bytes for each number on it, at most four times its own length.
    pub fn next(&mut self, alloc: Global) -> Result<Option<Line>, AllocError>
        ensures first { IfOk result (λ line. TakesFirst self.old line self.new) }
        ensures fit { IfOk result (λ line. IfSome line (λ l. IsFit (plain l))) }
        ensures err { OnErr result (self.new ≡ self.old) }
    {
        let (front, after) = cut(self.rest, b'\n');
        match after {
            [] => {
                if front.is_empty() {
                    return Ok(None);
                }
                let line = read_line(alloc, front)?;
                self.rest = after;
                Ok(Some(line))
            }
            [_, next @ ..] => {
                let line = read_line(alloc, without_return(front))?;
                self.rest = next;
                Ok(Some(line))
            }
        }
    }
}
