// The locations that a set of cases lies between.

ghost use Rattle.std.specs.Prelude.{◌≡◌, ◌⊎◌, ◌+◌, ◌<◌, ◌≤◌, ◌^◌};
ghost use Rattle.tv_rank.specs.Spans.{Reaches, IsSpanOf};

use crate::question::Question;

/// The lesser of two numbers, and the greater.
fn ordered(a: u32, b: u32) -> (u32, u32)
    ensures { (result.0 ≤ a) × (result.0 ≤ b) × (a ≤ result.1) × (b ≤ result.1) × ((result.1 ≡ a) ⊎ (result.1 ≡ b)) }
{
    if a < b { (a, b) } else { (b, a) }
}

/// The locations where a case of the set starts or ends: none is below the first or from the second on.
#[derive(Clone, Copy, Drop)]
pub struct Span {
    pub low: u32,
    pub high: u32,
}

/// The span that reaches to a further location.
fn reaching(span: Span, location: u32) -> Span
    requires { location + 1 < 2 ^ 32 }
    ensures { Reaches span location result }
{
    let (low, _) = ordered(span.low, location);
    let (_, high) = ordered(span.high, location + 1);
    Span { low, high }
}

/// The span of the locations where a case of the set starts or ends.
pub fn span_of(asked: &Question) -> Span
    ensures { IsSpanOf asked.now result }
{
    let first = asked.case_at(asked.falling).from;
    let mut span = Span {
        low: first,
        high: first + 1,
    };
    'places: for place in 0..asked.set.len() {
        let case = asked.case_at(place);
        span = reaching(reaching(span, case.from), case.to);
    }
    span
}
