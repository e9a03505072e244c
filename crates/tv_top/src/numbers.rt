// Numbers in words.

ghost use Rattle.std.specs.Prelude.{◌≡◌, ◌<◌, ◌≤◌, ◌^◌, option_map, IfSome};
ghost use Rattle.std.specs.Char.{is_ascii_digit};
ghost use Rattle.std.specs.List.{list_all};
ghost use Rattle.tv_top.specs.Tasks.{begins_above_zero, is_decimal, number_within, limit_of};

use tv_language::number_of;

/// Whether there is a first byte, which is not the digit 0.
fn begins_above_zero(word: &[u8]) -> bool
    ensures { result ≡ begins_above_zero word.now }
{
    match word {
        [] => false,
        [first, ..] => *first != b'0',
    }
}

/// Whether all bytes are decimal digits.
fn are_digits(word: &[u8]) -> bool
    ensures { result ≡ list_all is_ascii_digit word.now }
{
    word.iter().all(|byte| byte.is_ascii_digit())
}

/// Whether the bytes are decimal digits, and the first is not 0.
fn is_decimal(word: &[u8]) -> bool
    ensures { result ≡ is_decimal word.now }
{
    begins_above_zero(word) && are_digits(word)
}

/// The number from 1 to `most` that the word writes, without a sign or a zero in front.
pub fn number_within(word: &str, most: u32) -> Option<u32>
    ensures exact { result ≡ number_within most word.now }
    ensures within { IfSome result (λ number. number ≤ most) }
{
    let digits = word.as_bytes();
    if !is_decimal(digits) {
        return None;
    }
    let number = number_of(digits)?;
    if number <= i128::from(most) {
        Some(number as u32)
    } else {
        None
    }
}

/// The number that an option gives, from 1 to `most`, and the usual one where it is not there.
pub fn limit_of(word: Option<&str>, most: u32, usual: u32) -> Option<u32>
    requires { usual ≤ most }
    ensures exact { result ≡ limit_of most usual (option_map (λ w. w.now) word.entry) }
    ensures within { IfSome result (λ number. number ≤ most) }
{
    match word {
        None => Some(usual),
        Some(word) => number_within(word, most),
    }
}
