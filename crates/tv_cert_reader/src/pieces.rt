ghost use Rattle.std.specs.Prelude.{◌≡◌, ◌^◌, ◌<◌, ◌+◌, ◌*◌, min, IfOk, vec_len};
ghost use Rattle.tv_cases.specs.Systems.{cases_of};
ghost use Rattle.tv_cert.specs.Pieces.{is_go};
ghost use Rattle.tv_cert_reader.specs.LineGrammar.{rank_count};
ghost use Rattle.tv_cert_reader.specs.Regions.{ReadsPiece, ReadsPieces, ReadsRegion};

use crate::context::Context;
use crate::cursor::Cursor;
use crate::failure::Failure;
use crate::heads::{node_head, piece_head};
use crate::kind::LineKind;
use crate::lines::take;
use crate::number_line::NumberLine;
use crate::rows::{append_rows, room};
use tv_cert::{Mark, Marked, Pieces};
use tv_lines::NodeKind;

/// How many ranks a piece has, of a node with `ranks` ranks.
fn rank_count(ranks: u32, mark: Mark) -> u64
    ensures { result ≡ rank_count ranks (is_go mark) }
{
    match mark {
        Mark::Go => ranks as u64,
        Mark::Done => 0,
    }
}

/// For how many numbers of a piece room is made at once: for all that its head announces, and for no more than some
/// tens of thousands, since the lines of what is announced may be missing.
fn room_of(rows: u64, ranks: u64, columns: u32) -> usize
    ensures { result ≡ min ((rows + ranks) * (columns + 1)) 65536 }
{
    let numbers = (rows as u128 + ranks as u128) * (columns as u128 + 1);
    numbers.min(65_536) as usize
}

impl Context<'_> {
    /// A piece of a node with `ranks` ranks, which may be done where `done` is true.
    fn piece(&self, cursor: &mut Cursor, ranks: u32, done: bool) -> Result<Marked, Failure>
        ensures { ReadsPiece (cases_of self.now.about.now) ranks done cursor.old cursor.new result }
    {
        let (head, numbers) = take(self.alloc, cursor)?;
        let Some((mark, location, count)) = piece_head(head, &numbers, self.about.locations(), done)
        else {
            return Err(Failure::Fault(LineKind::Shape, cursor.taken));
        };
        let columns = self.about.variables();
        let many = rank_count(ranks, mark);
        let mut packed = Vec::with_capacity(self.alloc, room_of(count, many, columns))?;
        append_rows(
            self.alloc,
            cursor,
            NumberLine::Row,
            columns,
            count,
            &mut packed,
        )?;
        append_rows(
            self.alloc,
            cursor,
            NumberLine::Rank,
            columns,
            many,
            &mut packed,
        )?;
        packed.shrink_to_fit();
        let rows = count as u32;
        Ok(Marked::from_numbers(location, mark, columns, rows, packed))
    }

    fn pieces(
        &self,
        cursor: &mut Cursor,
        count: u64,
        ranks: u32,
        done: bool,
    ) -> Result<Vec<Marked>, Failure>
        ensures { ReadsPieces (cases_of self.now.about.now) ranks done count cursor.old cursor.new result }
    {
        let mut pieces = Vec::with_capacity(self.alloc, room(count as u128))?;
        'pieces: for _ in 0..count {
            let piece = self.piece(cursor, ranks, done)?;
            pieces.push(piece)?;
        }
        Ok(pieces)
    }

    /// The head of a node of this kind, and its pieces; and how many ranks it has. There may be some where `ranked` is true, and
    /// pieces may be done where `done` is true.
    pub fn region(
        &self,
        cursor: &mut Cursor,
        kind: NodeKind,
        ranked: bool,
        done: bool,
    ) -> Result<(Pieces, u32), Failure>
        ensures { ReadsRegion (cases_of self.now.about.now) kind ranked done cursor.old cursor.new result }
    {
        let (head, numbers) = take(self.alloc, cursor)?;
        let Some((count, ranks)) = node_head(head, &numbers, kind, ranked) else {
            return Err(Failure::Fault(LineKind::Shape, cursor.taken));
        };
        let list = self.pieces(cursor, count, ranks, done)?;
        let pieces = Pieces::new(self.alloc, list)?;
        Ok((pieces, ranks))
    }
}
