ghost use Rattle.std.specs.Prelude.{◌≡◌, ◌+◌, ◌-◌, ◌^◌, ◌<◌, ◌≤◌, ◌↔◌, ◌⊎◌, [], IfOk, OnOk, OnErr, IsErr, length, take, min};
ghost use Rattle.std.specs.declared.option.Option.TheVariants.{Some};
ghost use Rattle.tv_text.specs.Calls.{call_after, Fails};
ghost use Rattle.tv_text.specs.Memory.{room_left, sink_seen};
ghost use Rattle.tv_text.specs.Stream.{Took, Rose};

use crate::calls::{fails_at, next_call};
use crate::streams::{Failed, Sink};
use std::alloc::{AllocError, Global};
use std::marker::Model;

/// Room in memory. A call fills at most a piece of it. The calls with the numbers in a list fail,
/// and all calls once the room is full; the first call has number 1.
#[derive(Drop)]
pub struct MemSink {
    bytes: Vec<u8>,
    room: usize,
    piece: usize,
    fails: Vec<u64>,
    call: Option<u64>,
    faults: u64,
}

impl Model for MemSink {
    ghost use Rattle.std.specs.Prelude.{◌<◌, ◌≤◌, vec_len, vec_capacity};
    ghost use Rattle.tv_text.specs.Memory.{SinkState};

    ghost Value = { SinkState };

    ghost view = { λ s. record {
      written = s.bytes.items;
      room = s.room;
      piece = s.piece;
      fails = s.fails.items;
      call = s.call;
      faults = s.faults;
    } };

    ghost invariant = { λ s.
        (vec_len s.bytes ≤ s.room) × (s.room ≤ vec_capacity s.bytes) × (0 < s.piece) };
}

impl MemSink {
    /// Reserves the room, so that writes take no memory.
    pub fn new(
        alloc: Global,
        room: usize,
        piece: usize,
        fails: Vec<u64>,
    ) -> Result<MemSink, AllocError>
        requires { 0 < piece }
        ensures written { IfOk result (λ sink. sink.written ≡ []) }
        ensures room { IfOk result (λ sink. sink.room ≡ room) }
        ensures piece { IfOk result (λ sink. sink.piece ≡ piece) }
        ensures fails { IfOk result (λ sink. sink.fails ≡ fails.items) }
        ensures call { IfOk result (λ sink. sink.call ≡ Some 1) }
        ensures faults { IfOk result (λ sink. sink.faults ≡ 0) }
    {
        Ok(MemSink {
            bytes: Vec::with_capacity(alloc, room)?,
            room,
            piece,
            fails,
            call: Some(1),
            faults: 0,
        })
    }

    /// All bytes written so far.
    pub fn written(&self) -> &[u8]
        ensures { result.now ≡ self.now.written }
    {
        &self.bytes
    }
}

impl Sink for MemSink {
    ghost seen = { sink_seen };

    ghost faults = { λ s. s.faults };

    fn write(&mut self, bytes: &[u8]) -> Result<usize, Failed>
        requires { 0 < length bytes.now }

        // As each sink promises.
        ensures some { IfOk result (λ count. 0 < count) }
        ensures within { IfOk result (λ count. count ≤ length bytes.now) }
        ensures taken { IfOk result (λ count. Took (sink_seen self.old) (sink_seen self.new) (take count bytes.now)) }
        ensures kept { OnErr result (Took (sink_seen self.old) (sink_seen self.new) []) }
        ensures counted { OnErr result (Rose self.old.faults self.new.faults) }
        ensures later { self.old.faults ≤ self.new.faults }

        // When it fails, and how many bytes it takes where it does not.
        ensures failing { IsErr result ↔
            (Fails self.old.fails self.old.call ⊎ (room_left self.old ≡ 0)) }
        ensures count { IfOk result (λ count.
            count ≡ min (min (length bytes.now) self.old.piece) (room_left self.old)) }

        ensures call { self.new.call ≡ call_after self.old.call }
        ensures faults_ok { OnOk result (self.new.faults ≡ self.old.faults) }

        // A full sink fails for ever, so that its count stays at the last number of its type.
        ensures faults_err { OnErr result
            (self.new.faults ≡ min (self.old.faults + 1) (2 ^ 64 - 1)) }

        ensures room { self.new.room ≡ self.old.room }
        ensures piece { self.new.piece ≡ self.old.piece }
        ensures fails { self.new.fails ≡ self.old.fails }
    {
        let call = self.call;
        self.call = next_call(call);
        let left = self.room - self.bytes.len();
        if fails_at(&self.fails, call) || left == 0 {
            self.faults = self.faults.saturating_add(1);
            return Err(Failed);
        }
        let count = bytes.len().min(self.piece).min(left);
        // The room is reserved, so that this takes no memory and succeeds.
        self.bytes.extend_from_slice(&bytes[..count]).unwrap();
        Ok(count)
    }
}
