ghost use Rattle.std.specs.Prelude.{◌≡◌, ◌∷◌, [], IfOk};
ghost use Rattle.tv_lines.specs.Pieces.{behind_piece};
ghost use Rattle.tv_lines.specs.Lines.{plain, numbered, counted, header_line, node_line, piece_line, opened, line_of};

use crate::head::{Head, Opening, PieceMark, kind_named, mark_named, opening_named};
use crate::number::{NumberWord, number_word};
use crate::words::{cut, next_word, word_count};
use std::alloc::{AllocError, Global};

/// A line of a certificate text.
#[derive(Drop)]
pub enum Line {
    /// The head and the numbers, each below 2^62 in magnitude.
    Formed(Head, Vec<i64>),
    /// A line that has none of the forms.
    Formless,
    /// A line that has one of the forms, with a number of 2^62 or more in magnitude.
    Wide,
}

/// A head and any words after it, each to be a number.
fn numbered(alloc: Global, head: Head, behind: &[u8]) -> Result<Line, AllocError>
    ensures { IfOk result (λ line. plain line ≡ numbered head (behind_piece 32 behind.now)) }
{
    // Each number takes a space and a digit at least, so at most half of the bytes are numbers.
    let most = word_count(behind).min(behind.len() / 2);
    let mut numbers: Vec<i64> = Vec::with_capacity(alloc, most)?;
    let mut wide = false;
    let mut rest = behind;
    'words: while let Some((word, after)) = next_word(rest) {
        match number_word(word) {
            NumberWord::Narrow(number) => numbers.push(number)?,
            NumberWord::Wide => wide = true,
            NumberWord::Missing => return Ok(Line::Formless),
        }
        rest = after;
    }
    if wide {
        return Ok(Line::Wide);
    }
    Ok(Line::Formed(head, numbers))
}

/// A head and `count` words after it, each to be a number.
fn counted(alloc: Global, head: Head, count: usize, behind: &[u8]) -> Result<Line, AllocError>
    ensures { IfOk result (λ line. plain line ≡ counted head count (behind_piece 32 behind.now)) }
{
    if word_count(behind) != count {
        return Ok(Line::Formless);
    }
    numbered(alloc, head, behind)
}

/// A header, if its one word is the version.
fn header_line(alloc: Global, behind: &[u8]) -> Line
    ensures { plain result ≡ header_line (behind_piece 32 behind.now) }
{
    match next_word(behind) {
        Some((version, [])) => {
            if version == b"1".as_slice() {
                Line::Formed(Head::Header, Vec::new(alloc))
            } else {
                Line::Formless
            }
        }
        Some((_, [..])) => Line::Formless,
        None => Line::Formless,
    }
}

/// A node of the kind that the first word names.
fn node_line(alloc: Global, behind: &[u8]) -> Result<Line, AllocError>
    ensures { IfOk result (λ line. plain line ≡ node_line (behind_piece 32 behind.now)) }
{
    let Some((word, rest)) = next_word(behind) else {
        return Ok(Line::Formless);
    };
    match kind_named(word) {
        Some(kind) => counted(alloc, Head::Node(kind), 2, rest),
        None => Ok(Line::Formless),
    }
}

/// A piece with these two words as its numbers.
fn marked(alloc: Global, mark: PieceMark, location: &[u8], count: &[u8]) -> Result<Line, AllocError>
    ensures { IfOk result (λ line. plain line ≡ numbered (Head.Piece mark) (location.now ∷ count.now ∷ [])) }
{
    match (number_word(location), number_word(count)) {
        (NumberWord::Missing, _) | (_, NumberWord::Missing) => Ok(Line::Formless),
        (NumberWord::Narrow(first), NumberWord::Narrow(second)) => {
            let numbers = vec![in alloc; first, second]?;
            Ok(Line::Formed(Head::Piece(mark), numbers))
        }
        _ => Ok(Line::Wide),
    }
}

/// A piece with the mark that the second of three words names.
fn piece_line(alloc: Global, behind: &[u8]) -> Result<Line, AllocError>
    ensures { IfOk result (λ line. plain line ≡ piece_line (behind_piece 32 behind.now)) }
{
    let Some((location, rest)) = next_word(behind) else {
        return Ok(Line::Formless);
    };
    let Some((word, rest)) = next_word(rest) else {
        return Ok(Line::Formless);
    };
    match next_word(rest) {
        Some((count, [])) => match mark_named(word) {
            Some(mark) => marked(alloc, mark, location, count),
            None => Ok(Line::Formless),
        },
        Some((_, [..])) => Ok(Line::Formless),
        None => Ok(Line::Formless),
    }
}

/// The line that begins so.
fn opened(alloc: Global, opening: Opening, behind: &[u8]) -> Result<Line, AllocError>
    ensures { IfOk result (λ line. plain line ≡ opened opening (behind_piece 32 behind.now)) }
{
    match opening {
        Opening::Header => Ok(header_line(alloc, behind)),
        Opening::Proved => counted(alloc, Head::Proved, 0, behind),
        Opening::Disproved => counted(alloc, Head::Disproved, 0, behind),
        Opening::Node => node_line(alloc, behind),
        Opening::Piece => piece_line(alloc, behind),
        Opening::Row => numbered(alloc, Head::Row, behind),
        Opening::Rank => numbered(alloc, Head::Rank, behind),
        Opening::Split => numbered(alloc, Head::Split, behind),
        Opening::Empty => numbered(alloc, Head::Empty, behind),
        Opening::Into => counted(alloc, Head::Into, 2, behind),
        Opening::By => numbered(alloc, Head::By, behind),
        Opening::NoStep => counted(alloc, Head::NoStep, 0, behind),
        Opening::Take => counted(alloc, Head::Take, 3, behind),
        Opening::Draw => numbered(alloc, Head::Draw, behind),
        Opening::At => numbered(alloc, Head::At, behind),
        Opening::End => counted(alloc, Head::End, 0, behind),
    }
}

/// The line that these bytes are, without what ends it.
pub(crate) fn read_line(alloc: Global, bytes: &[u8]) -> Result<Line, AllocError>
    ensures { IfOk result (λ line. plain line ≡ line_of bytes.now) }
{
    let (word, behind) = cut(bytes, b' ');
    match opening_named(word) {
        Some(opening) => opened(alloc, opening, behind),
        None => Ok(Line::Formless),
    }
}
