ghost use Rattle.std.specs.Prelude.{◌≡◌, ◌++◌, ◌∷◌, [], IfOk, OnOk, OnErr, string_bytes};
ghost use Rattle.std.specs.Fmt.{signed_decimal};
ghost use Rattle.tv_lines.specs.Pieces.{joined};
ghost use Rattle.tv_lines.specs.Heads.{kind_word, mark_word};
ghost use Rattle.tv_lines.specs.Writing.{head_words, piece_mark, spaced, spelling};

use crate::head::{Head, NodeKind, PieceMark};
use std::alloc::{AllocError, Global};

fn kind_text(kind: NodeKind) -> &'static [u8]
    ensures { result.now ≡ joined 32 (head_words (Head.Node kind)) }
{
    match kind {
        NodeKind::Atom => b"node atom",
        NodeKind::And => b"node and",
        NodeKind::Or => b"node or",
        NodeKind::Next => b"node next",
        NodeKind::Fix => b"node fix",
        NodeKind::Term => b"node term",
        NodeKind::NoTerm => b"node noterm",
    }
}

fn mark_text(mark: PieceMark) -> &'static [u8]
    ensures { result.now ≡ mark_word mark }
{
    match mark {
        PieceMark::Done => b"done",
        PieceMark::Go => b"go",
    }
}

/// The words of a head.
fn head_text(head: Head) -> &'static [u8]
    ensures { result.now ≡ joined 32 (head_words head) }
{
    match head {
        Head::Header => b"T2CERT 1",
        Head::Proved => b"proved",
        Head::Disproved => b"disproved",
        Head::Node(kind) => kind_text(kind),
        Head::Piece(PieceMark::Done) => b"piece done",
        Head::Piece(PieceMark::Go) => b"piece go",
        Head::Row => b"row",
        Head::Rank => b"rank",
        Head::Split => b"split",
        Head::Empty => b"empty",
        Head::Into => b"into",
        Head::By => b"by",
        Head::NoStep => b"nostep",
        Head::Take => b"take",
        Head::Draw => b"draw",
        Head::At => b"at",
        Head::End => b"end",
    }
}

fn decimal(alloc: Global, number: i128) -> Result<String, AllocError>
    ensures { IfOk result (λ text. string_bytes text ≡ signed_decimal number) }
{
    format!(in alloc; "{number}")
}

/// A space and the number are added.
fn append_number(alloc: Global, out: &mut Vec<u8>, number: i128) -> Result<(), AllocError>
    ensures { OnOk result (out.new.items ≡ out.old.items ++ 32 ∷ signed_decimal number) }
{
    let text = decimal(alloc, number)?;
    out.push(b' ')?;
    out.extend_from_slice(text.as_bytes())
}

/// The numbers are added, each after a space.
fn append_numbers(alloc: Global, out: &mut Vec<u8>, numbers: &[i128]) -> Result<(), AllocError>
    ensures { OnOk result (out.new.items ≡ out.old.items ++ spaced numbers.now) }
{
    let mut rest = numbers;
    'numbers: while let [first, tail @ ..] = rest {
        append_number(alloc, out, *first)?;
        rest = tail;
    }
    Ok(())
}

/// A piece with its mark after its first number.
fn piece_text(
    alloc: Global,
    mark: PieceMark,
    location: i128,
    numbers: &[i128],
) -> Result<Vec<u8>, AllocError>
    ensures { IfOk result (λ text. text.items ≡ spelling (Head.Piece mark) (location ∷ numbers.now)) }
{
    let mut text = Vec::new(alloc);
    text.extend_from_slice(b"piece")?;
    append_number(alloc, &mut text, location)?;
    text.push(b' ')?;
    text.extend_from_slice(mark_text(mark))?;
    append_numbers(alloc, &mut text, numbers)?;
    Ok(text)
}

/// A line whose numbers stand after all words of its head.
fn plain_text(alloc: Global, head: Head, numbers: &[i128]) -> Result<Vec<u8>, AllocError>
    ensures { IfOk result (λ text. text.items ≡ joined 32 (head_words head) ++ spaced numbers.now) }
{
    let mut text = Vec::new(alloc);
    text.extend_from_slice(head_text(head))?;
    append_numbers(alloc, &mut text, numbers)?;
    Ok(text)
}

fn piece_mark(head: Head) -> Option<PieceMark>
    ensures { result ≡ piece_mark head }
{
    match head {
        Head::Piece(mark) => Some(mark),
        _ => None,
    }
}

/// The line without what ends it.
fn line_text(alloc: Global, head: Head, numbers: &[i128]) -> Result<Vec<u8>, AllocError>
    ensures { IfOk result (λ text. text.items ≡ spelling head numbers.now) }
{
    match piece_mark(head) {
        None => plain_text(alloc, head, numbers),
        Some(mark) => match numbers {
            [] => plain_text(alloc, head, numbers),
            [location, rest @ ..] => piece_text(alloc, mark, *location, rest),
        },
    }
}

/// A line is added, with the LF that ends it. Where the numbers fit the head it is read as the same line again.
pub fn write_line(
    alloc: Global,
    out: &mut Vec<u8>,
    head: Head,
    numbers: &[i128],
) -> Result<(), AllocError>
    ensures ok { OnOk result (out.new.items ≡ out.old.items ++ spelling head numbers.now ++ 10 ∷ []) }
    ensures err { OnErr result (out.new.items ≡ out.old.items) }
{
    let mut text = line_text(alloc, head, numbers)?;
    text.push(b'\n')?;
    out.extend_from_slice(&text)
}
