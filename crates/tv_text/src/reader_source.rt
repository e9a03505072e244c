use crate::passed::Passed;
use crate::streams::{Failed, Source};
use std::io::Read;
use std::marker::Model;

/// A source over a reader. Each error of the reader is a fault. The bytes that are left are known where the reader reports them, as
/// standard input does not.
#[derive(Drop)]
pub struct ReaderSource<R: Read> {
    reader: R,
    passed: Passed,
    faults: u64,
}

impl<R: Read> Model for ReaderSource<R> {
    ghost use Rattle.tv_text.specs.Outside.{OutsideState};

    ghost Value = { OutsideState };

    ghost view = { λ s. record {
      known = R.remaining s.reader;
      told = s.passed.bytes;
      faults = s.faults;
    } };
}

impl<R: Read> ReaderSource<R> {
    ghost use Rattle.std.specs.Prelude.{◌≡◌, []};

    pub fn new(reader: R) -> ReaderSource<R>
        ensures known { result.known ≡ R.remaining reader }
        ensures told { result.told ≡ [] }
        ensures faults { result.faults ≡ 0 }
    {
        ReaderSource {
            reader,
            passed: Passed::new(),
            faults: 0,
        }
    }
}

impl<R: Read> Source for ReaderSource<R> {
    ghost use Rattle.tv_text.specs.Outside.{outside_seen};

    ghost seen = { outside_seen };

    ghost faults = { λ s. s.faults };

    fn read(&mut self, buf: &mut [u8]) -> Result<usize, Failed> {
        match self.reader.read(buf) {
            Ok(count) => {
                self.passed.add(&buf[..count]);
                Ok(count)
            }
            Err(_) => {
                self.faults = self.faults.saturating_add(1);
                Err(Failed)
            }
        }
    }
}
