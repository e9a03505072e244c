ghost use Rattle.std.specs.Prelude.{◌≡◌, ℕ, ◌+◌, ◌-◌, ◌^◌, ◌<◌, ◌≤◌, length, nat_le};
ghost use Rattle.std.specs.List.{prefix_len};
ghost use Rattle.std.specs.Char.{is_ascii_digit};
ghost use Rattle.tv_language.specs.Numbers.{value_of_digits};

/// How many digits stand at the front.
#[inline(always)]
pub fn number_length(bytes: &[u8]) -> usize
    ensures exact { result ≡ prefix_len is_ascii_digit bytes.now }
    ensures within { result ≤ length bytes.now }
{
    bytes
        .iter()
        .take_while(|byte| byte.is_ascii_digit())
        .count()
}

/// Whether the digits write a number of 2^62 or more.
#[inline(always)]
pub fn is_wide(digits: &[u8]) -> bool
    ensures { result ≡ nat_le (2 ^ 62) (value_of_digits digits.now) }
{
    let mut total: u128 = 0;
    for digit in digits {
        total = 10 * total + digit.saturating_sub(b'0') as u128;
        if total >= 1 << 62 {
            return true;
        }
    }
    false
}
