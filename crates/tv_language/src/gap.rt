ghost use Rattle.std.specs.Prelude.{◌≡◌, ℕ, ◌+◌, ◌-◌, ◌^◌, ◌<◌, ◌≤◌, ◌==◌, not, length, IfSome};
ghost use Rattle.std.specs.List.{prefix_len};
ghost use Rattle.tv_language.specs.Gaps.{is_blank, closing, gap_of, gap_length};

#[inline(always)]
fn is_blank(byte: u8) -> bool
    ensures { result ≡ is_blank byte }
{
    // Most bytes are no blanks, and pass one test.
    byte <= b' ' && (byte == b' ' || byte == b'\t' || byte == b'\r' || byte == b'\n' || byte == 12)
}

/// How many bytes there are up to the end of the first `*/`.
fn closing(bytes: &[u8]) -> Option<usize>
    ensures exact { result ≡ closing bytes.now }
    ensures within { IfSome result (λ n. n ≤ length bytes.now) }
{
    let mut rest = bytes;
    let mut passed = 0;
    while let [byte, after @ ..] = rest {
        if *byte == b'*' && after.first() == Some(&b'/') {
            return Some(passed + 2);
        }
        passed += 1;
        rest = after;
    }
    None
}

/// How many bytes there are up to the end of the line.
fn line_length(bytes: &[u8]) -> usize
    ensures exact { result ≡ prefix_len (λ byte. not (byte == 10)) bytes.now }
    ensures within { result ≤ length bytes.now }
{
    bytes.iter().take_while(|byte| **byte != b'\n').count()
}

/// How many bytes the blank or the comment at the front has.
#[inline(always)]
pub fn gap(text: &[u8]) -> Option<usize>
    requires { length text.now + 1 < 2 ^ 32 }
    ensures exact { result ≡ gap_of text.now }
    ensures within { IfSome result (λ n. (0 < n) × (n ≤ length text.now)) }
{
    match text {
        [b'/', b'/', rest @ ..] => Some(2 + line_length(rest)),
        [b'/', b'*', rest @ ..] => match closing(rest) {
            Some(n) => Some(2 + n),
            None => None,
        },
        [byte, ..] => { if is_blank(*byte) { Some(1) } else { None } }
        [] => None,
    }
}

/// How many bytes the blanks and comments at the front have.
pub fn gap_length(text: &[u8]) -> usize
    requires { length text.now + 1 < 2 ^ 32 }
    ensures exact { result ≡ gap_length text.now }
    ensures within { result ≤ length text.now }
{
    let mut rest = text;
    let mut passed = 0;
    while let Some(n) = gap(rest) {
        let (_, after) = rest.split_at(n);
        passed += n;
        rest = after;
    }
    passed
}
