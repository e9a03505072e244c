ghost use Rattle.std.specs.Prelude.{◌≡◌, ◌∷◌, [], ℕ, ◌≤◌, List, length, MatchOption};
ghost use Rattle.tv_text.specs.Headings.{EndsLine, BeginsWithHeading, starts_line, IsHeadingAt, IsSplit};

/// The first byte, and what is left after it.
fn first_of(text: &[u8]) -> Option<(u8, &[u8])>
    ensures { MatchOption result (text.now ≡ []) (λ first. text.now ≡ first.0 ∷ first.1.now) }
{
    match text {
        [] => None,
        [byte, rest @ ..] => Some((*byte, rest)),
    }
}

/// What is left after the end of a line, where one stands at the front.
fn behind_end(text: &[u8]) -> Option<&[u8]>
    ensures { MatchOption result ((rest : List ℕ) → EndsLine text.now rest → ⊥) (λ rest. EndsLine text.now rest.now) }
{
    match first_of(text) {
        None => Some(text),
        Some((b'\n', rest)) => Some(rest),
        Some((b'\r', rest)) => match first_of(rest) {
            Some((b'\n', rest)) => Some(rest),
            _ => None,
        },
        Some(_) => None,
    }
}

/// What follows the line `CERTIFICATE:`, where the text begins with that line.
fn behind_heading(text: &[u8]) -> Option<&[u8]>
    ensures { MatchOption result ((rest : List ℕ) → BeginsWithHeading text.now rest → ⊥) (λ rest. BeginsWithHeading text.now rest.now) }
{
    match text.strip_prefix(b"CERTIFICATE:".as_slice()) {
        Some(behind) => behind_end(behind),
        None => None,
    }
}

/// Whether a line starts at this place of the text.
fn starts_line(text: &[u8], at: usize) -> bool
    requires { at ≤ length text.now }
    ensures { result ≡ starts_line text.now at }
{
    at == 0 || text[at - 1] == b'\n'
}

/// What follows the line `CERTIFICATE:`, where that line stands at this place of the text.
fn certificate_at(text: &[u8], at: usize) -> Option<&[u8]>
    requires { at ≤ length text.now }
    ensures { MatchOption result ((rest : List ℕ) → IsHeadingAt text.now at rest → ⊥) (λ rest. IsHeadingAt text.now at rest.now) }
{
    if !starts_line(text, at) {
        return None;
    }
    let (_, behind) = text.split_at(at);
    match behind_heading(behind) {
        Some(certificate) => Some(certificate),
        None => None,
    }
}

/// The program's text and the certificate's.
///
/// The first line that is exactly `CERTIFICATE:` parts them. It ends with LF or CR LF, or with the input, and then the
/// certificate's text is empty, as it is where there is no such line. The time is linear in the text.
pub fn split_texts(text: &[u8]) -> (&[u8], &[u8])
    ensures split { IsSplit text.now result.0.now result.1.now }
    ensures program { length result.0.now ≤ length text.now }
    ensures certificate { length result.1.now ≤ length text.now }
{
    for at in 0..text.len() {
        match certificate_at(text, at) {
            Some(certificate) => {
                let (program, _) = text.split_at(at);
                return (program, certificate);
            }
            None => {}
        }
    }
    (text, b"")
}
