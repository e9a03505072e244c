ghost use Rattle.std.specs.Prelude.{◌≡◌, ◌≤◌, ◌∷◌, [], List, length, take, false, None, Some, IfOk, OnOk, IsSome, MatchOption};
ghost use Rattle.tv_program.specs.Words.{Word, number_of, words_with};
ghost use Rattle.tv_language.specs.Symbols.{lexemes, variable_by, label_by, variable_words, label_words, by_first_place};
ghost use Rattle.tv_reader.specs.ProgramMarks.{start_word, second_word, moved_in_front, vocabulary};
ghost use Rattle.tv_reader.specs.Readers.{led};

use std::alloc::{AllocError, Global};
use tv_language::{Token, TokenKind, is_colon, is_label, is_name, word_of};
use tv_program::Names;

/// The most variables of a program.
const MOST_VARIABLES: u32 = 512;

/// The most locations of a program.
const MOST_LOCATIONS: u32 = 1024;

/// The words of a text that have numbers: its first variables, and its first labels.
#[derive(Drop)]
pub struct Known {
    pub variables: Names,
    pub labels: Names,
}

/// Adds a word, where fewer than `most` are there.
#[inline(always)]
fn put_within(names: &mut Names, word: &[u8], most: u32) -> Result<(), AllocError>
    requires bounded { most ≤ 1024 }
    requires within { length names.old ≤ most }
    ensures within { length names.new ≤ most }
    ensures added { OnOk result ((ws : List Word) → let all = words_with word.now names.old in
        take most (by_first_place names.new ws) ≡ take most (by_first_place all ws)) }
{
    if names.len() < most {
        names.put(word)?;
    }
    Ok(())
}

/// Adds the word of a token, if it is a name or a label.
#[inline(always)]
fn put_word(
    known: &mut Known,
    behind_colon: bool,
    kind: TokenKind,
    word: &[u8],
) -> Result<(), AllocError>
    requires variables { length known.old.variables ≤ 512 }
    requires labels { length known.old.labels ≤ 1024 }
    ensures variables { length known.new.variables ≤ 512 }
    ensures labels { length known.new.labels ≤ 1024 }
    ensures names { OnOk result ((ws : List Word) → let with_it = variable_by behind_colon kind word.now ws in
        take 512 (by_first_place known.new.variables ws) ≡ take 512 (by_first_place known.old.variables with_it)) }
    ensures places { OnOk result ((ws : List Word) → let with_it = label_by behind_colon kind word.now ws in
        take 1024 (by_first_place known.new.labels ws) ≡ take 1024 (by_first_place known.old.labels with_it)) }
{
    if behind_colon {
        if is_label(kind) {
            put_within(&mut known.labels, word, MOST_LOCATIONS)?;
        }
    } else if is_name(kind) {
        put_within(&mut known.variables, word, MOST_VARIABLES)?;
    }
    Ok(())
}

/// The first variables and labels of the tokens, each in the order of its first place.
fn first_words(alloc: Global, text: &[u8], list: &[Token]) -> Result<Known, AllocError>
    ensures variables { IfOk result (λ known. known.variables ≡ take 512 (by_first_place [] (variable_words false (lexemes text.now list.now)))) }
    ensures labels { IfOk result (λ known. known.labels ≡ take 1024 (by_first_place [] (label_words false (lexemes text.now list.now)))) }
    ensures few_variables { IfOk result (λ known. length known.variables ≤ 512) }
    ensures few_labels { IfOk result (λ known. length known.labels ≤ 1024) }
{
    let mut known = Known {
        variables: Names::new(alloc),
        labels: Names::new(alloc),
    };
    let mut behind_colon = false;
    for token in list {
        put_word(&mut known, behind_colon, token.kind, word_of(text, *token))?;
        behind_colon = is_colon(token.kind);
    }
    Ok(known)
}

/// The word of the second token.
fn second_word<'a>(text: &'a [u8], list: &[Token]) -> Option<&'a [u8]>
    ensures { let second = second_word (lexemes text.now list.now) in
        MatchOption result (second ≡ None) (λ word. second ≡ Some word.now) }
{
    match list {
        [_, token, ..] => Some(word_of(text, *token)),
        _ => None,
    }
}

/// The word of the label after the first `START`, if there is one.
fn start_word<'a>(text: &'a [u8], list: &[Token]) -> Option<&'a [u8]>
    ensures { let first = start_word (lexemes text.now list.now) in
        MatchOption result (first ≡ None) (λ word. first ≡ Some word.now) }
{
    let mut rest = list;
    while let [token, behind @ ..] = rest {
        if token.kind == TokenKind::Start {
            return second_word(text, behind);
        }
        rest = behind;
    }
    None
}

/// The labels with one of them in front.
fn moved_in_front(alloc: Global, labels: &Names, word: &[u8]) -> Result<Names, AllocError>
    requires bounded { length labels.now ≤ 1024 }
    requires among { IsSome (number_of word.now labels.now) }
    ensures moved { IfOk result (λ names. names ≡ by_first_place (word.now ∷ []) labels.now) }
    ensures bounded { IfOk result (λ names. length names ≤ 1024) }
{
    let mut names = Names::new(alloc);
    names.put(word)?;
    for number in 0..labels.len() {
        names.put(labels.text(number))?;
    }
    Ok(names)
}

/// The labels with this one in front, if it is one of them.
fn led(alloc: Global, labels: Names, start: Option<&[u8]>) -> Result<Names, AllocError>
    requires bounded { length labels ≤ 1024 }
    ensures led { IfOk result (λ names. names ≡ led start.entry labels) }
    ensures bounded { IfOk result (λ names. length names ≤ 1024) }
{
    match start {
        Some(word) => match labels.find(word) {
            Some(_) => moved_in_front(alloc, &labels, word),
            None => Ok(labels),
        },
        None => Ok(labels),
    }
}

/// The words of a text that have numbers, with START's label in front of the labels.
pub fn known_words(alloc: Global, text: &[u8], list: &[Token]) -> Result<Known, AllocError>
    ensures variables { IfOk result (λ known. known.variables ≡ (vocabulary (lexemes text.now list.now)).variables) }
    ensures labels { IfOk result (λ known. known.labels ≡ (vocabulary (lexemes text.now list.now)).labels) }
    ensures few_variables { IfOk result (λ known. length known.variables ≤ 512) }
    ensures few_labels { IfOk result (λ known. length known.labels ≤ 1024) }
{
    let Known { variables, labels } = first_words(alloc, text, list)?;
    let labels = led(alloc, labels, start_word(text, list))?;
    Ok(Known { variables, labels })
}
