ghost use Rattle.std.specs.Prelude.{◌≡◌};
ghost use Rattle.tv_lines.specs.Heads.{opening_of, kind_of, mark_of};

/// What formula a node of a certificate is about.
#[derive(Clone, Copy, Debug, PartialEq, Eq)]
pub enum NodeKind {
    Atom,
    And,
    Or,
    Next,
    Fix,
    Term,
    NoTerm,
}

/// What a piece of a node is for: its states are done, or they go on.
#[derive(Clone, Copy, Debug, PartialEq, Eq)]
pub enum PieceMark {
    Done,
    Go,
}

/// What a line of a certificate is, by its words that are no numbers.
#[derive(Clone, Copy, Debug, PartialEq, Eq)]
pub enum Head {
    /// `T2CERT 1`, the first line of version 1.
    Header,
    Proved,
    Disproved,
    Node(NodeKind),
    Piece(PieceMark),
    Row,
    Rank,
    Split,
    Empty,
    Into,
    By,
    NoStep,
    Take,
    Draw,
    At,
    End,
}

/// A word that begins a line.
#[derive(Clone, Copy)]
pub enum Opening {
    Header,
    Proved,
    Disproved,
    Node,
    Piece,
    Row,
    Rank,
    Split,
    Empty,
    Into,
    By,
    NoStep,
    Take,
    Draw,
    At,
    End,
}

/// What the word begins, if it begins a line.
pub(crate) fn opening_named(word: &[u8]) -> Option<Opening>
    ensures { result ≡ opening_of word.now }
{
    if word == b"T2CERT".as_slice() {
        Some(Opening::Header)
    } else if word == b"proved".as_slice() {
        Some(Opening::Proved)
    } else if word == b"disproved".as_slice() {
        Some(Opening::Disproved)
    } else if word == b"node".as_slice() {
        Some(Opening::Node)
    } else if word == b"piece".as_slice() {
        Some(Opening::Piece)
    } else if word == b"row".as_slice() {
        Some(Opening::Row)
    } else if word == b"rank".as_slice() {
        Some(Opening::Rank)
    } else if word == b"split".as_slice() {
        Some(Opening::Split)
    } else if word == b"empty".as_slice() {
        Some(Opening::Empty)
    } else if word == b"into".as_slice() {
        Some(Opening::Into)
    } else if word == b"by".as_slice() {
        Some(Opening::By)
    } else if word == b"nostep".as_slice() {
        Some(Opening::NoStep)
    } else if word == b"take".as_slice() {
        Some(Opening::Take)
    } else if word == b"draw".as_slice() {
        Some(Opening::Draw)
    } else if word == b"at".as_slice() {
        Some(Opening::At)
    } else if word == b"end".as_slice() {
        Some(Opening::End)
    } else {
        None
    }
}

/// The kind that the word names.
pub(crate) fn kind_named(word: &[u8]) -> Option<NodeKind>
    ensures { result ≡ kind_of word.now }
{
    if word == b"atom".as_slice() {
        Some(NodeKind::Atom)
    } else if word == b"and".as_slice() {
        Some(NodeKind::And)
    } else if word == b"or".as_slice() {
        Some(NodeKind::Or)
    } else if word == b"next".as_slice() {
        Some(NodeKind::Next)
    } else if word == b"fix".as_slice() {
        Some(NodeKind::Fix)
    } else if word == b"term".as_slice() {
        Some(NodeKind::Term)
    } else if word == b"noterm".as_slice() {
        Some(NodeKind::NoTerm)
    } else {
        None
    }
}

/// The mark that the word names.
pub(crate) fn mark_named(word: &[u8]) -> Option<PieceMark>
    ensures { result ≡ mark_of word.now }
{
    if word == b"done".as_slice() {
        Some(PieceMark::Done)
    } else if word == b"go".as_slice() {
        Some(PieceMark::Go)
    } else {
        None
    }
}
