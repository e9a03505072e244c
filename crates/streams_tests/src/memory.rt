use std::alloc::{AllocError, Global};
use std::test::Fail;
use tv_text::{MemSink, MemSource, ReadError, WriteError, read_all, write_all};

const TEXT: &[u8] = b"START: 0;\n";

const FAULTY: Option<ReadError> = Some(ReadError::Fault);

const TOO_LONG: Option<ReadError> = Some(ReadError::TooLong);

/// How many bytes a call reads, the call that fails, the limit, why not all is read, and how many bytes are then lost.
const READS: [(usize, u64, usize, Option<ReadError>, usize); 18] = [
    (1, 99, 10, None, 10),
    (3, 99, 10, None, 10),
    (10, 99, 10, None, 10),
    (1, 99, 9, TOO_LONG, 10),
    (3, 99, 9, TOO_LONG, 10),
    (10, 99, 9, TOO_LONG, 10),
    (3, 99, 2, TOO_LONG, 3),
    (1, 1, 10, FAULTY, 0),
    (1, 4, 10, FAULTY, 3),
    (3, 1, 10, FAULTY, 0),
    (3, 2, 10, FAULTY, 3),
    (3, 3, 10, FAULTY, 6),
    (3, 4, 10, FAULTY, 9),
    (10, 1, 10, FAULTY, 0),
    (10, 2, 10, FAULTY, 10),
    (10, 3, 10, None, 10),
    (3, 3, 5, TOO_LONG, 6),
    (3, 2, 2, TOO_LONG, 3),
];

fn source(alloc: Global, piece: usize, failing: u64) -> Result<MemSource, AllocError> {
    let bytes = Vec::from_slice(alloc, TEXT)?;
    let fails = vec![in alloc; failing]?;
    Ok(MemSource::new(bytes, piece.max(1), fails))
}

/// Whether all is read, or this is why not.
fn is_read(answer: &Result<Vec<u8>, ReadError>, wanted: Option<ReadError>) -> bool {
    match (answer, wanted) {
        (Ok(text), None) => text.as_slice() == TEXT,
        (Err(error), Some(wanted)) => *error == wanted,
        _ => false,
    }
}

/// Whether the text has lost `lost` bytes at its front.
fn has_lost(rest: &[u8], lost: usize) -> bool {
    TEXT.len().checked_sub(rest.len()) == Some(lost) && TEXT.ends_with(rest)
}

/// What is left, where one call may fail before it is all read: a fault loses nothing.
fn rest_of(alloc: Global, source: &mut MemSource) -> Result<Vec<u8>, ReadError> {
    match read_all(alloc, source, 10) {
        Ok(rest) => Ok(rest),
        Err(_) => read_all(alloc, source, 10),
    }
}

#[test]
fn memory_is_read(rt: HostRuntime) -> Result<(), Fail> {
    for (piece, failing, limit, wanted, lost) in READS {
        let mut source = source(rt.alloc(), piece, failing)?;
        let answer = read_all(rt.alloc(), &mut source, limit);
        let is_wanted = is_read(&answer, wanted);
        let rest = rest_of(rt.alloc(), &mut source)?;
        assert!(rt;
            is_wanted && has_lost(&rest, lost),
            "{piece} {failing} {limit}"
        );
    }
    Ok(())
}

/// The room, how many bytes a call takes, the call that fails, what is written of seven bytes, and whether that is all.
const WRITES: [(usize, usize, u64, &str, bool); 11] = [
    (7, 3, 99, "Proved\n", true),
    (9, 1, 99, "Proved\n", true),
    (7, 10, 2, "Proved\n", true),
    (7, 3, 1, "", false),
    (7, 3, 2, "Pro", false),
    (7, 3, 3, "Proved", false),
    (7, 1, 4, "Pro", false),
    (7, 3, 4, "Proved\n", true),
    (6, 3, 99, "Proved", false),
    (5, 3, 99, "Prove", false),
    (0, 3, 99, "", false),
];

fn sink(alloc: Global, room: usize, piece: usize, failing: u64) -> Result<MemSink, AllocError> {
    let fails = vec![in alloc; failing]?;
    MemSink::new(alloc, room, piece.max(1), fails)
}

fn is_written(answer: Result<(), WriteError>, all: bool) -> bool {
    match answer {
        Ok(()) => all,
        Err(WriteError::Fault) => !all,
    }
}

#[test]
fn memory_is_written(rt: HostRuntime) -> Result<(), Fail> {
    for (room, piece, failing, wanted, all) in WRITES {
        let mut sink = sink(rt.alloc(), room, piece, failing)?;
        let answer = write_all(&mut sink, b"Proved\n");
        let is_wanted = sink.written() == wanted.as_bytes() && is_written(answer, all);
        assert!(rt; is_wanted, "{room} {piece} {failing}");
    }
    Ok(())
}
