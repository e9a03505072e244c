ghost use Rattle.std.specs.Prelude.{◌≡◌, ◌<◌, ◌≤◌, ◌↔◌, IfOk, OnOk, vec_len};
ghost use Rattle.std.specs.Io.KnownBytes.{IsAtEnd};
ghost use Rattle.tv_text.specs.Stream.{count_passed, Gave, GaveSome, Rose};

use crate::streams::{Failed, Source};
use std::alloc::{AllocError, Global};

/// Why a source was not read to its end.
#[derive(Clone, Copy, Debug, PartialEq, Eq)]
pub enum ReadError {
    /// A call of the source failed.
    Fault,
    /// More bytes came than the limit allows.
    TooLong,
    /// Memory ran out.
    Memory,
}

impl From<AllocError> for ReadError {
    ghost use Rattle.tv_text.specs.declared.reading.ReadError.{ReadError};

    ghost from_gives = { λ _ error. error ≡ ReadError.Memory };

    fn from(_: AllocError) -> ReadError {
        ReadError::Memory
    }
}

impl From<Failed> for ReadError {
    ghost use Rattle.tv_text.specs.declared.reading.ReadError.{ReadError};

    ghost from_gives = { λ _ error. error ≡ ReadError.Fault };

    fn from(_: Failed) -> ReadError {
        ReadError::Fault
    }
}

// How many bytes are asked for at once.
const PIECE: usize = 4096;

/// Reads all that is left, unless more than `limit` bytes come. After an error the bytes that came
/// are lost.
pub fn read_all<S: Source>(
    alloc: Global,
    source: &mut S,
    limit: usize,
) -> Result<Vec<u8>, ReadError>
    ensures whole { IfOk result (λ text. Gave (S.seen source.old) (S.seen source.new) text.items) }
    ensures end { OnOk result (IsAtEnd (S.seen source.new).known) }
    ensures short { IfOk result (λ text. vec_len text ≤ limit) }

    // Whatever the result, the source lost exactly what came out of its calls.
    ensures lost { GaveSome (S.seen source.old) (S.seen source.new) }
    ensures long { (result ≡ Err ReadError.TooLong) ↔
        (limit < count_passed (S.seen source.old) (S.seen source.new)) }

    ensures fault { result ≡ Err ReadError.Fault →
        Rose (S.faults source.old) (S.faults source.new) }
    ensures later { S.faults source.old ≤ S.faults source.new }
{
    let mut text = Vec::new(alloc);
    let mut buf = [0; PIECE];
    'pieces: loop {
        let count = source.read(&mut buf)?;
        if count == 0 {
            return Ok(text);
        }
        if count > limit - text.len() {
            return Err(ReadError::TooLong);
        }
        text.extend_from_slice(&buf[..count])?;
    }
}
