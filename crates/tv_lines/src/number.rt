ghost use Rattle.std.specs.Prelude.{◌≡◌, ◌^◌, ◌<◌, ◌≤◌, MatchOption};
ghost use Rattle.std.specs.List.{list_all};
ghost use Rattle.std.specs.Char.{is_ascii_digit};
ghost use Rattle.tv_lines.specs.Numbers.{is_numeral, value, Reads};

/// What a word is as a number.
#[derive(Clone, Copy)]
pub enum NumberWord {
    /// A number below 2^62 in magnitude.
    Narrow(i64),
    /// A number of 2^62 or more in magnitude.
    Wide,
    /// No number.
    Missing,
}

const WIDE: u128 = 1 << 62;

fn all_digits(bytes: &[u8]) -> bool
    ensures { result ≡ list_all is_ascii_digit bytes.now }
{
    bytes.iter().all(|b| b.is_ascii_digit())
}

/// Whether these are digits without a leading zero.
fn is_numeral(bytes: &[u8]) -> bool
    ensures { result ≡ is_numeral bytes.now }
{
    match bytes {
        [] => false,
        [_] => all_digits(bytes),
        [first, ..] => all_digits(bytes) && *first != b'0',
    }
}

/// The number that the digits write, if it is below 2^62.
fn value(digits: &[u8]) -> Option<u64>
    ensures { MatchOption result (2 ^ 62 ≤ value digits.now)
        (λ n. (n ≡ value digits.now) × (n < 2 ^ 62)) }
{
    let mut total: u128 = 0;
    for digit in digits {
        total = 10 * total + digit.saturating_sub(b'0') as u128;
        if total >= WIDE {
            return None;
        }
    }
    Some(total as u64)
}

/// A word, read as a number.
pub(crate) fn number_word(word: &[u8]) -> NumberWord
    ensures { Reads word.now result }
{
    match word {
        [b'-', digits @ ..] => {
            if !is_numeral(digits) || digits == b"0".as_slice() {
                return NumberWord::Missing;
            }
            match value(digits) {
                Some(number) => NumberWord::Narrow(-(number as i64)),
                None => NumberWord::Wide,
            }
        }
        _ => {
            if !is_numeral(word) {
                return NumberWord::Missing;
            }
            match value(word) {
                Some(number) => NumberWord::Narrow(number as i64),
                None => NumberWord::Wide,
            }
        }
    }
}
