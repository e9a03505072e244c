use std::alloc::{AllocError, Global};
use tv_language::{
    Recent, Token, TokenKind, behind, find_near, is_colon, is_label, is_name, number_of,
    relation_of, word_of,
};
use tv_program::{Names, Relation};

/// Where a token stands, how long it is, and its word.
const WORDS: &[(u32, u32, &str)] = &[(0, 2, "ab"), (3, 2, ":="), (6, 2, "12"), (9, 0, "")];

fn is_word(at: u32, len: u32, word: &str) -> bool {
    let kind = TokenKind::Name;
    word_of(b"ab := 12;".as_slice(), Token { at, len, kind }) == word.as_bytes()
}

#[test]
fn words_are_the_bytes_of_tokens(rt: HostRuntime) {
    for (at, len, word) in WORDS {
        assert!(rt; is_word(*at, *len, word), "{word}");
    }
}

const NUMBERS: &[(&str, Option<i128>)] = &[
    ("0", Some(0)),
    ("007", Some(7)),
    ("4611686018427387903", Some(4611686018427387903)),
    ("4611686018427387904", None),
    ("99999999999999999999999999999999999999999999", None),
];

#[test]
fn numbers_are_below_two_to_the_62(rt: HostRuntime) {
    for (digits, number) in NUMBERS {
        assert!(rt; number_of(digits.as_bytes()) == *number, "{digits}");
    }
}

/// A kind, and whether it is that of a name, of a label and of a colon.
const KINDS: &[(TokenKind, bool, bool, bool)] = &[
    (TokenKind::Name, true, true, false),
    (TokenKind::Number, false, true, false),
    (TokenKind::Colon, false, false, true),
    (TokenKind::Start, false, false, false),
];

fn are_kinds(kind: TokenKind, name: bool, label: bool, colon: bool) -> bool {
    is_name(kind) == name && is_label(kind) == label && is_colon(kind) == colon
}

#[test]
fn names_and_numbers_are_labels(rt: HostRuntime) {
    for (kind, name, label, colon) in KINDS {
        assert!(rt; are_kinds(*kind, *name, *label, *colon));
    }
}

const RELATIONS: &[(TokenKind, Option<Relation>)] = &[
    (TokenKind::Less, Some(Relation::Less)),
    (TokenKind::LessEqual, Some(Relation::LessEqual)),
    (TokenKind::Greater, Some(Relation::Greater)),
    (TokenKind::GreaterEqual, Some(Relation::GreaterEqual)),
    (TokenKind::Equal, Some(Relation::Equal)),
    (TokenKind::NotEqual, Some(Relation::NotEqual)),
    (TokenKind::Assign, None),
];

#[test]
fn six_tokens_are_relations(rt: HostRuntime) {
    for (kind, relation) in RELATIONS {
        assert!(rt; relation_of(*kind) == *relation);
    }
}

/// Whether a is the first of two names and b the second, and c none.
fn are_near(names: &Names, recent: Recent) -> bool {
    find_near(names, recent, b"a") == Some(0)
        && find_near(names, recent, b"b") == Some(1)
        && find_near(names, recent, b"c").is_none()
}

fn are_found(alloc: Global, recent: Recent) -> Result<bool, AllocError> {
    let mut names = Names::new(alloc);
    names.put(b"a")?;
    if names.len() >= 100 {
        return Ok(false);
    }
    names.put(b"b")?;
    Ok(are_near(&names, recent))
}

#[test]
fn words_are_found_near_and_far(rt: HostRuntime) {
    let recent = behind(Recent { last: 5, before: 6 }, 1);
    assert!(rt; recent.last == 1 && recent.before == 5);
    assert!(rt; are_found(rt.alloc(), recent) == Ok(true));
}
