ghost use Rattle.std.specs.Prelude.{◌^◌, ◌<◌, length, true, false};
ghost use Rattle.tv_cases.specs.Systems.{cases_of};
ghost use Rattle.tv_cert.specs.AimViews.{aim_states};
ghost use Rattle.tv_cert_reader.specs.Values.{ReadsStart, ReadsValues, ReadsEnd};
ghost use Rattle.tv_cert_reader.specs.Wholes.{ReadsRest, ReadsProved};

use crate::context::Context;
use crate::cursor::Cursor;
use crate::failure::Failure;
use crate::kind::LineKind;
use crate::lines::take;
use crate::natural::natural;
use crate::number_line::NumberLine;
use crate::rows::numbers;
use std::alloc::Global;
use tv_cert::{Aim, Node, Pieces, Targets, Verdict};
use tv_linear::{Cover, MAX_SPLITS, widened};
use tv_lines::Head;

/// Whether the next line says that the property is proved.
pub fn says_proved(alloc: Global, cursor: &mut Cursor) -> Result<bool, Failure>
    ensures { ReadsProved cursor.old cursor.new result }
{
    let (head, _) = take(alloc, cursor)?;
    match head {
        Head::Proved => Ok(true),
        Head::Disproved => Ok(false),
        _ => Err(Failure::Fault(LineKind::Shape, cursor.taken)),
    }
}

/// A place among the pieces at the start, and `count` values.
pub fn values(alloc: Global, cursor: &mut Cursor, count: u32) -> Result<(u64, Vec<i128>), Failure>
    ensures { ReadsValues count cursor.old cursor.new result }
{
    let (head, mut numbers) = take(alloc, cursor)?;
    if head != Head::At || numbers.len() != count as usize + 1 {
        return Err(Failure::Fault(LineKind::Shape, cursor.taken));
    }
    let first = numbers.remove(0);
    let Some(place) = natural(first) else {
        return Err(Failure::Fault(LineKind::Shape, cursor.taken));
    };
    let values = widened(alloc, &numbers)?;
    Ok((place, values))
}

/// Nothing is left.
pub fn finish(alloc: Global, cursor: &mut Cursor) -> Result<(), Failure>
    ensures { ReadsEnd cursor.old result }
{
    match cursor.lines.next(alloc)? {
        None => Ok(()),
        Some(_) => Err(Failure::Fault(LineKind::Syntax, cursor.taken + 1)),
    }
}

impl Context<'_> {
    /// A cover of the start by these pieces.
    fn start(&self, cursor: &mut Cursor, pieces: &Pieces) -> Result<Cover, Failure>
        requires { length pieces.now < 2 ^ 32 }
        ensures { ReadsStart (cases_of self.now.about.now) pieces.now cursor.old cursor.new result }
    {
        let targets = Targets::Pieces {
            from: None,
            into: pieces,
            location: self.about.start(),
        };
        let tree = self.cover_tree(cursor, MAX_SPLITS, self.about.variables(), 0, &targets)?;
        match Cover::new(tree) {
            Some(cover) => Ok(cover),
            None => unreachable!(),
        }
    }

    /// What follows the line that says that the property is proved.
    pub fn proved(&self, cursor: &mut Cursor, aim: &Aim) -> Result<(Node, Verdict), Failure>
        ensures { ReadsRest (cases_of self.now.about.now) (aim_states aim.now) true cursor.old result }
    {
        let root = self.node(cursor, aim)?;
        let start = self.start(cursor, &root.pieces)?;
        numbers(self.alloc, cursor, NumberLine::End, 0)?;
        finish(self.alloc, cursor)?;
        Ok((root, Verdict::Proved(start)))
    }

    /// What follows the line that says that the property is disproved.
    pub fn denied(&self, cursor: &mut Cursor, aim: &Aim) -> Result<(Node, Verdict), Failure>
        ensures { ReadsRest (cases_of self.now.about.now) (aim_states aim.now) false cursor.old result }
    {
        let root = self.node(cursor, aim)?;
        let (place, values) = values(self.alloc, cursor, self.about.variables())?;
        if place >= 1 << 32 {
            return Err(Failure::Fault(LineKind::Shape, cursor.taken));
        }
        let piece = place as u32;
        if root.pieces.at(self.about.start(), piece).is_none() {
            return Err(Failure::Fault(LineKind::Shape, cursor.taken));
        }
        numbers(self.alloc, cursor, NumberLine::End, 0)?;
        finish(self.alloc, cursor)?;
        Ok((root, Verdict::Disproved { piece, values }))
    }
}
