ghost use Rattle.std.specs.Prelude.{◌≡◌, ◌+◌, ◌<◌, ◌≤◌, ◌↔◌, [], IfOk, OnOk, OnErr, IsErr, length, take, drop, min};
ghost use Rattle.std.specs.declared.option.Option.TheVariants.{Some};
ghost use Rattle.std.specs.Io.KnownBytes.{IsAtEnd};
ghost use Rattle.tv_text.specs.Calls.{call_after, Fails};
ghost use Rattle.tv_text.specs.Memory.{source_seen};
ghost use Rattle.tv_text.specs.Stream.{Gave, Rose};

use crate::calls::{fails_at, next_call};
use crate::streams::{Failed, Source};
use std::marker::Model;

/// Bytes in memory. A call reads at most a piece of them. The calls with the numbers in a list
/// fail; the first call has number 1.
#[derive(Drop)]
pub struct MemSource {
    bytes: Vec<u8>,
    at: usize,
    piece: usize,
    fails: Vec<u64>,
    call: Option<u64>,
    faults: u64,
}

impl Model for MemSource {
    ghost use Rattle.std.specs.Prelude.{◌<◌, ◌≤◌, take, drop, vec_len};
    ghost use Rattle.std.specs.Option.{ForSome};
    ghost use Rattle.tv_text.specs.Memory.{SourceState};

    ghost Value = { SourceState };

    ghost view = { λ s. record {
      held = drop s.at s.bytes.items;
      told = take s.at s.bytes.items;
      piece = s.piece;
      fails = s.fails.items;
      call = s.call;
      faults = s.faults;
    } };

    // Each fault had a call number of its own.
    ghost invariant = { λ s.
        (s.at ≤ vec_len s.bytes) × (0 < s.piece) × ForSome s.call (λ call. s.faults < call) };
}

impl MemSource {
    pub fn new(bytes: Vec<u8>, piece: usize, fails: Vec<u64>) -> MemSource
        requires { 0 < piece }
        ensures held { result.held ≡ bytes.items }
        ensures told { result.told ≡ [] }
        ensures piece { result.piece ≡ piece }
        ensures fails { result.fails ≡ fails.items }
        ensures call { result.call ≡ Some 1 }
        ensures faults { result.faults ≡ 0 }
    {
        MemSource {
            bytes,
            at: 0,
            piece,
            fails,
            call: Some(1),
            faults: 0,
        }
    }
}

impl Source for MemSource {
    ghost seen = { source_seen };

    ghost faults = { λ s. s.faults };

    fn read(&mut self, buf: &mut [u8]) -> Result<usize, Failed>
        requires { 0 < length buf.old }

        // As each source promises.
        ensures within { IfOk result (λ count. count ≤ length buf.new) }
        ensures given { IfOk result (λ count. Gave (source_seen self.old) (source_seen self.new) (take count buf.new)) }
        ensures end { IfOk result (λ count. count ≡ 0 → IsAtEnd (Some self.new.held)) }
        ensures kept { OnErr result (Gave (source_seen self.old) (source_seen self.new) []) }
        ensures counted { OnErr result (Rose self.old.faults self.new.faults) }
        ensures later { self.old.faults ≤ self.new.faults }

        // When it fails, and how many bytes come where it does not.
        ensures failing { IsErr result ↔ Fails self.old.fails self.old.call }
        ensures count { IfOk result (λ count.
            count ≡ min (min (length self.old.held) self.old.piece) (length buf.old)) }
        ensures rest { IfOk result (λ count. self.new.held ≡ drop count self.old.held) }

        ensures call { self.new.call ≡ call_after self.old.call }
        ensures faults_ok { OnOk result (self.new.faults ≡ self.old.faults) }
        ensures faults_err { OnErr result (self.new.faults ≡ self.old.faults + 1) }
        ensures piece { self.new.piece ≡ self.old.piece }
        ensures fails { self.new.fails ≡ self.old.fails }
    {
        let call = self.call;
        self.call = next_call(call);
        if fails_at(&self.fails, call) {
            self.faults += 1;
            return Err(Failed);
        }
        let rest = &self.bytes[self.at..];
        let count = rest.len().min(self.piece).min(buf.len());
        buf[..count].copy_from_slice(&rest[..count]);
        self.at += count;
        Ok(count)
    }
}
