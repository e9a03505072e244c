use crate::words::COUNTDOWN;
use std::alloc::{AllocError, Global};
use tv_text::{MemSink, MemSource};
use tv_top::{Status, run};

const WORDS: [&str; 1] = ["--termination"];

/// A program of 68 bytes in pieces of at most this size. One call fails.
fn source(alloc: Global, piece: usize, failing: u64) -> Result<MemSource, AllocError> {
    let text = Vec::from_slice(alloc, COUNTDOWN.as_bytes())?;
    let fails = vec![in alloc; failing]?;
    Ok(MemSource::new(text, piece.max(1), fails))
}

fn sink(alloc: Global, piece: usize, failing: u64) -> Result<MemSink, AllocError> {
    let fails = vec![in alloc; failing]?;
    MemSink::new(alloc, 100, piece.max(1), fails)
}

/// Whether a run over the source and the sink writes this, and ends so.
fn writes(
    alloc: Global,
    mut source: MemSource,
    mut sink: MemSink,
    written: &str,
    status: Status,
) -> bool {
    let found = run(alloc, &WORDS, &mut source, &mut sink, Vec::new(alloc));
    found == status && sink.written() == written.as_bytes()
}

/// Whether nothing is written where this call of a source of ten bytes a call fails.
fn is_read_fault(alloc: Global, call: u64) -> Result<bool, AllocError> {
    let source = source(alloc, 10, call)?;
    let sink = sink(alloc, 4096, 0)?;
    Ok(writes(alloc, source, sink, "", Status::ReadFault))
}

// Each call of the source: seven bring the text, and the eighth finds its end.
#[test]
fn a_read_fault_writes_nothing(rt: HostRuntime) {
    for call in 1..9u64 {
        assert!(rt; is_read_fault(rt.alloc(), call) == Ok(true), "{call}");
    }
}

/// The call of a sink of three bytes a call that fails, what is written, and the status.
const WRITES: [(u64, &str, Status); 4] = [
    (1, "", Status::WriteFault),
    (2, "Pro", Status::WriteFault),
    (3, "Proved", Status::WriteFault),
    (4, "Proved\n", Status::Proved),
];

/// Whether this is written where the call of a sink of three bytes a call fails.
fn leaves(alloc: Global, call: u64, written: &str, status: Status) -> Result<bool, AllocError> {
    let source = source(alloc, 4096, 0)?;
    let sink = sink(alloc, 3, call)?;
    Ok(writes(alloc, source, sink, written, status))
}

#[test]
fn a_write_fault_leaves_a_front(rt: HostRuntime) {
    for (call, written, status) in WRITES {
        assert!(rt;
            leaves(rt.alloc(), call, written, status) == Ok(true),
            "{call}"
        );
    }
}
