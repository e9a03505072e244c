ghost use Rattle.std.specs.Prelude.{◌≡◌, ◌+◌, ◌<◌, ◌≤◌, ◌∷◌, [], ◌==◌, not, length, count_by, IfSome, MatchOption};
ghost use Rattle.std.specs.List.{prefix_len};
ghost use Rattle.tv_lines.specs.Pieces.{pieces, behind_piece};
ghost use Rattle.tv_lines.specs.Lines.{without_return};

/// How many bytes stand before the first separator.
fn piece_length(text: &[u8], separator: u8) -> usize
    ensures exact { result ≡ prefix_len (λ b. not (b == separator)) text.now }
    ensures within { result ≤ length text.now }
{
    text.iter().take_while(|b| **b != separator).count()
}

/// What stands before the first separator, and the text from there on.
pub(crate) fn cut(text: &[u8], separator: u8) -> (&[u8], &[u8])
    ensures cut { pieces separator text.now ≡ result.0.now ∷ behind_piece separator result.1.now }
    ensures within { length result.1.now ≤ length text.now }
{
    let length = piece_length(text, separator);
    text.split_at(length)
}

/// The next word, and what follows it. A space begins `behind`, unless nothing is left.
pub(crate) fn next_word(behind: &[u8]) -> Option<(&[u8], &[u8])>
    ensures next { MatchOption result (behind_piece 32 behind.now ≡ [])
        (λ next. behind_piece 32 behind.now ≡ next.0.now ∷ behind_piece 32 next.1.now) }
    ensures less { IfSome result (λ next. length next.1.now < length behind.now) }
{
    match behind {
        [] => None,
        [_, words @ ..] => Some(cut(words, b' ')),
    }
}

fn space_count(text: &[u8]) -> usize
    ensures exact { result ≡ count_by (λ b. b == 32) text.now }
    ensures within { result ≤ length text.now }
{
    text.iter().filter(|b| **b == b' ').count()
}

/// How many words are left.
pub(crate) fn word_count(behind: &[u8]) -> usize
    ensures { result ≡ length (behind_piece 32 behind.now) }
{
    match behind {
        [] => 0,
        [_, words @ ..] => space_count(words) + 1,
    }
}

/// The bytes before an LF, without a CR at their end.
pub(crate) fn without_return(bytes: &[u8]) -> &[u8]
    ensures { result.now ≡ without_return bytes.now }
{
    match bytes {
        [front @ .., b'\r'] => front,
        _ => bytes,
    }
}
