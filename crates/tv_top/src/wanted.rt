ghost use Rattle.std.specs.Prelude.{◌≤◌};

/// How many loops a program has that is made, from 1 to 1,000.
#[derive(Clone, Copy)]
pub struct Loops {
    pub count: u32,
    ghost bounded: { count ≤ 1000 },
}

/// What is written after `Proved`, or after `Disproved` and its values.
#[derive(Clone, Copy)]
pub enum Wanted {
    Nothing,
    /// The text of the certificate.
    Certificate,
    /// How many loops, cases and obligations there are, of a program that is made.
    Counts(Loops),
    /// The first states of the run that never ends, at most this number.
    Trace { count: u32 },
}
