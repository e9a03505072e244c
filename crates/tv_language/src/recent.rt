ghost use Rattle.std.specs.Prelude.{◌≡◌, ◌<◌, ◌⊎◌, IfSome, IsTrue, Some, length};
ghost use Rattle.tv_program.specs.Words.{number_of};

use crate::is_word;
use tv_program::Names;

/// The numbers that were come by last, the latest first: words often stand near each other. Any other numbers do as well, in more time.
#[derive(Clone, Copy)]
pub struct Recent {
    pub last: u32,
    pub before: u32,
}

/// Whether the word is seen to have this number.
#[inline(always)]
fn is_at(names: &Names, number: u32, word: &[u8]) -> bool
    ensures number { IsTrue result → number_of word.now names.now ≡ Some number }
    ensures within { IsTrue result → number < length names.now }
{
    number < names.len() && is_word(names.text(number), word)
}

/// The number of a word, in less time where it is a recent one.
#[inline(always)]
pub fn find_near(names: &Names, recent: Recent, word: &[u8]) -> Option<u32>
    ensures number { result ≡ number_of word.now names.now }
    ensures within { IfSome result (λ number. number < length names.now) }
{
    if is_at(names, recent.last, word) {
        return Some(recent.last);
    }
    if is_at(names, recent.before, word) {
        return Some(recent.before);
    }
    names.find(word)
}

/// The recent numbers after this one.
#[inline(always)]
pub fn behind(recent: Recent, number: u32) -> Recent
    ensures kept { (number ≡ recent.last) ⊎ (number ≡ recent.before) → result ≡ recent }
    ensures passed { ¬ (number ≡ recent.last) → ¬ (number ≡ recent.before) →
        (result.last ≡ number) × (result.before ≡ recent.last) }
{
    if number == recent.last || number == recent.before {
        return recent;
    }
    Recent {
        last: number,
        before: recent.last,
    }
}
