ghost use Rattle.std.specs.Prelude.{◌≡◌, ◌||◌, codes};
ghost use Rattle.tv_language.specs.Numbers.{value_of_digits};
ghost use Rattle.tv_reading.specs.Marks.{new_name, known_name, is_formula_word, draw_mark, number_mark};
ghost use Rattle.tv_reading.specs.Views.{mark_of};

use tv_language::{TokenKind, is_word, number_of};

/// A token as the grammar sees it: a name and a draw have a number, or are refused.
#[derive(Clone, Copy)]
pub enum Part {
    Number(u64),
    Variable(u32),
    Draw(u32),
    /// A name beside 512 others.
    NameTooMany,
    UnknownName,
    /// A draw after 64 others.
    DrawTooMany,
    Fixed(TokenKind),
}

/// How deep brackets, signs and operators may nest.
pub const MOST_LEVELS: u32 = 64;

/// The most names that are added.
pub const MOST_NAMES: u32 = 512;

/// The most draws that stand in an edge.
pub const MOST_DRAWS: u32 = 64;

/// A name where names are added: its number, or that of the next one.
#[inline(always)]
pub fn new_name(number: Option<u32>, count: u32) -> Part
    ensures { mark_of result ≡ new_name number count }
{
    match number {
        Some(number) => Part::Variable(number),
        None => {
            if count < MOST_NAMES {
                Part::Variable(count)
            } else {
                Part::NameTooMany
            }
        }
    }
}

/// A name where none is added.
#[inline(always)]
pub fn known_name(reserved: bool, number: Option<u32>) -> Part
    ensures { mark_of result ≡ known_name reserved number }
{
    if reserved {
        return Part::Fixed(TokenKind::Name);
    }
    match number {
        Some(number) => Part::Variable(number),
        None => Part::UnknownName,
    }
}

/// Whether the word is one of the two of formulas that are no names there.
#[inline(always)]
pub fn is_formula_word(word: &[u8]) -> bool
    ensures { result ≡ is_formula_word word.now }
{
    is_word(word, b"at") || is_word(word, b"term")
}

/// The word `nondet`, given how many draws there are before it.
#[inline(always)]
pub fn draw(grows: bool, draws: u32) -> Part
    ensures { mark_of result ≡ draw_mark grows draws }
{
    if !grows {
        Part::Fixed(TokenKind::Nondet)
    } else if draws < MOST_DRAWS {
        Part::Draw(draws)
    } else {
        Part::DrawTooMany
    }
}

/// The number that digits write.
#[inline(always)]
pub fn number(digits: &[u8]) -> Part
    ensures { mark_of result ≡ number_mark (value_of_digits digits.now) }
{
    match number_of(digits) {
        Some(number) => Part::Number(number as u64),
        None => Part::Fixed(TokenKind::Wide),
    }
}
