ghost use Rattle.std.specs.Prelude.{◌≡◌, ◌^◌, ◌<◌, ℕ, [], ◌∷◌, pos, true, false, MatchOption};
ghost use Rattle.tv_cert.specs.Pieces.{is_go};
ghost use Rattle.tv_cert_reader.specs.CertificateLines.{mark_named};
ghost use Rattle.tv_cert_reader.specs.Heads.{IsNodeHead, IsPieceHead};

use crate::natural::natural;
use tv_cert::Mark;
use tv_lines::{Head, NodeKind, PieceMark};

/// The mark of a piece with this head, which may be done where `done` is true.
fn mark_of(head: Head, done: bool) -> Option<Mark>
    ensures { MatchOption result
        ((mark : Mark) → head ≡ Head.Piece (mark_named mark) → (done ≡ false → is_go mark ≡ true) → ⊥)
        (λ mark. (head ≡ Head.Piece (mark_named mark)) × (done ≡ false → is_go mark ≡ true)) }
{
    match head {
        Head::Piece(PieceMark::Go) => Some(Mark::Go),
        Head::Piece(PieceMark::Done) => { if done { Some(Mark::Done) } else { None } }
        _ => None,
    }
}

/// The location that a number names.
fn place_of(number: i64, locations: u32) -> Option<u32>
    ensures { MatchOption result ((l : ℕ) → number ≡ pos l → l < locations → ⊥) (λ l. (number ≡ pos l) × (l < locations)) }
{
    if number < 0 || number >= i64::from(locations) {
        None
    } else {
        Some(number as u32)
    }
}

/// The location and the number of rows of a piece.
fn place_and_count(numbers: &[i64], locations: u32) -> Option<(u32, u64)>
    ensures { MatchOption result
        ((l count : ℕ) → numbers.now ≡ pos l ∷ pos count ∷ [] → l < locations → ⊥)
        (λ x. (numbers.now ≡ pos x.0 ∷ pos x.1 ∷ []) × (x.0 < locations)) }
{
    let [location, count] = numbers else {
        return None;
    };
    match (place_of(*location, locations), natural(*count)) {
        (Some(location), Some(count)) => Some((location, count)),
        _ => None,
    }
}

/// The mark, the location and the number of rows of a piece with this head and these numbers.
pub fn piece_head(
    head: Head,
    numbers: &[i64],
    locations: u32,
    done: bool,
) -> Option<(Mark, u32, u64)>
    ensures { MatchOption result
        ((mark : Mark) (l count : ℕ) → IsPieceHead locations done head numbers.now mark l count → ⊥)
        (λ x. IsPieceHead locations done head numbers.now x.0 x.1 x.2) }
{
    match (mark_of(head, done), place_and_count(numbers, locations)) {
        (Some(mark), Some((location, count))) => Some((mark, location, count)),
        _ => None,
    }
}

/// The number of ranks, which may be some where `ranked` is true.
fn ranks_of(number: i64, ranked: bool) -> Option<u32>
    ensures { MatchOption result
        ((m : ℕ) → number ≡ pos m → (ranked ≡ false → m ≡ 0) → m < 2 ^ 32 → ⊥)
        (λ m. (number ≡ pos m) × (ranked ≡ false → m ≡ 0)) }
{
    if number < 0 || number >= 1 << 32 || (number != 0 && !ranked) {
        None
    } else {
        Some(number as u32)
    }
}

/// How many pieces and ranks a node has.
fn counts_of(numbers: &[i64], ranked: bool) -> Option<(u64, u32)>
    ensures { MatchOption result
        ((count m : ℕ) → numbers.now ≡ pos count ∷ pos m ∷ [] → (ranked ≡ false → m ≡ 0) → m < 2 ^ 32 → ⊥)
        (λ x. (numbers.now ≡ pos x.0 ∷ pos x.1 ∷ []) × (ranked ≡ false → x.1 ≡ 0)) }
{
    let [count, ranks] = numbers else {
        return None;
    };
    match (natural(*count), ranks_of(*ranks, ranked)) {
        (Some(count), Some(ranks)) => Some((count, ranks)),
        _ => None,
    }
}

/// How many pieces and ranks a node of this kind has, with this head and these numbers.
pub fn node_head(head: Head, numbers: &[i64], kind: NodeKind, ranked: bool) -> Option<(u64, u32)>
    ensures { MatchOption result
        ((count m : ℕ) → IsNodeHead kind ranked head numbers.now count m → ⊥)
        (λ x. IsNodeHead kind ranked head numbers.now x.0 x.1) }
{
    if head != Head::Node(kind) {
        return None;
    }
    counts_of(numbers, ranked)
}
