ghost use Rattle.std.specs.Prelude.{◌≡◌, ℕ, ◌<◌, ◌≤◌, [], IfOk, OnErr, length, take};
ghost use Rattle.std.specs.Io.KnownBytes.{IsAtEnd};
ghost use Rattle.tv_text.specs.Stream.{Seen, Gave, Took, Rose};

/// A call to the outside failed.
#[derive(Clone, Copy, Debug, PartialEq, Eq)]
pub struct Failed;

/// Where bytes come from.
pub trait Source {
    /// The bytes not yet read, where they are known, and those that its calls have handed out.
    ghost seen: { Self → Seen };
    /// How many calls have failed.
    ghost faults: { Self → ℕ };

    /// Fills a front of `buf` with the next bytes, and returns how many; `Ok(0)` is the end.
    /// What is in the rest of `buf` afterwards is left open.
    fn read(&mut self, buf: &mut [u8]) -> Result<usize, Failed>
        requires { 0 < length buf.old }
        ensures within { IfOk result (λ count. count ≤ length buf.new) }
        ensures given { IfOk result (λ count. Gave (seen self.old) (seen self.new) (take count buf.new)) }
        ensures end { IfOk result (λ count. count ≡ 0 → IsAtEnd (seen self.new).known) }

        // A failed call loses nothing, and is counted.
        ensures kept { OnErr result (Gave (seen self.old) (seen self.new) []) }
        ensures counted { OnErr result (Rose (faults self.old) (faults self.new)) }
        ensures later { faults self.old ≤ faults self.new };
}

/// Where bytes go.
pub trait Sink {
    /// The bytes written, where they are known, and those that its calls have taken.
    ghost seen: { Self → Seen };
    /// How many calls have failed.
    ghost faults: { Self → ℕ };

    /// Appends the first bytes of `bytes`, and returns how many.
    fn write(&mut self, bytes: &[u8]) -> Result<usize, Failed>
        requires { 0 < length bytes.now }
        ensures some { IfOk result (λ count. 0 < count) }
        ensures within { IfOk result (λ count. count ≤ length bytes.now) }
        ensures taken { IfOk result (λ count. Took (seen self.old) (seen self.new) (take count bytes.now)) }

        // A failed call appends nothing, and is counted.
        ensures kept { OnErr result (Took (seen self.old) (seen self.new) []) }
        ensures counted { OnErr result (Rose (faults self.old) (faults self.new)) }
        ensures later { faults self.old ≤ faults self.new };
}
