ghost use Rattle.std.specs.Prelude.{◌≡◌, ◌<◌, ◌≤◌, ℕ, OnOk, OnErr, length, take};
ghost use Rattle.tv_text.specs.Stream.{Took, Rose};

use crate::streams::{Failed, Sink};

/// Why bytes were not all written.
#[derive(Clone, Copy, Debug, PartialEq, Eq)]
pub enum WriteError {
    /// A call of the sink failed.
    Fault,
}

impl From<Failed> for WriteError {
    fn from(_: Failed) -> WriteError {
        WriteError::Fault
    }
}

/// Writes all bytes, in order. It takes no memory.
pub fn write_all<K: Sink>(sink: &mut K, bytes: &[u8]) -> Result<(), WriteError>
    ensures all { OnOk result (Took (K.seen sink.old) (K.seen sink.new) bytes.now) }

    // An error comes only after a fault, and leaves a front of the bytes written, but not all.
    ensures front { OnErr result ((count : ℕ) × (count < length bytes.now) ×
        Took (K.seen sink.old) (K.seen sink.new) (take count bytes.now)) }
    ensures fault { OnErr result (Rose (K.faults sink.old) (K.faults sink.new)) }
    ensures later { K.faults sink.old ≤ K.faults sink.new }
{
    let mut at = 0;
    'pieces: while at < bytes.len() {
        at += sink.write(&bytes[at..])?;
    }
    Ok(())
}
