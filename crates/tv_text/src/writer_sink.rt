use crate::passed::Passed;
use crate::streams::{Failed, Sink};
use std::io::Write;
use std::marker::Model;

/// A sink over a writer. Each error of the writer is a fault, and so is a write that takes no byte. The bytes that were written are
/// known where the writer reports them, as standard output does not.
#[derive(Drop)]
pub struct WriterSink<W: Write> {
    writer: W,
    passed: Passed,
    faults: u64,
}

impl<W: Write> Model for WriterSink<W> {
    ghost use Rattle.tv_text.specs.Outside.{OutsideState};

    ghost Value = { OutsideState };

    ghost view = { λ s. record {
      known = W.contents s.writer;
      told = s.passed.bytes;
      faults = s.faults;
    } };
}

impl<W: Write> WriterSink<W> {
    ghost use Rattle.std.specs.Prelude.{◌≡◌, []};

    pub fn new(writer: W) -> WriterSink<W>
        ensures known { result.known ≡ W.contents writer }
        ensures told { result.told ≡ [] }
        ensures faults { result.faults ≡ 0 }
    {
        WriterSink {
            writer,
            passed: Passed::new(),
            faults: 0,
        }
    }
}

impl<W: Write> Sink for WriterSink<W> {
    ghost use Rattle.tv_text.specs.Outside.{outside_seen};

    ghost seen = { outside_seen };

    ghost faults = { λ s. s.faults };

    fn write(&mut self, bytes: &[u8]) -> Result<usize, Failed> {
        match self.writer.write(bytes) {
            Ok(count) if count > 0 => {
                self.passed.add(&bytes[..count]);
                Ok(count)
            }
            _ => {
                self.faults = self.faults.saturating_add(1);
                Err(Failed)
            }
        }
    }
}
