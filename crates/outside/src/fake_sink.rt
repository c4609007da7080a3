//! A sink in memory. Its room is taken once, so that no later call needs memory.

ghost use Rattle.std.specs.Prelude.{◌≡◌, ◌↔◌, ◌-◌, ◌≤◌, ◌<◌, ◌++◌, Some, [], length, min, take, IfOk, OnErr, IsErr};
ghost use Rattle.std.specs.Io.KnownBytes.{WriteAppends};
ghost use Rattle.outside.specs.Causes.{HasCause};
ghost use Rattle.outside.specs.Fakes.{count_on, Refuses};

use crate::{Failed, Memory, Sink};
use std::alloc::Global;
use std::marker::Model;

/// A sink in memory.
///
/// A call takes as many bytes as `piece`, the bytes given and the room left allow. It fails, and takes none, exactly
/// where no room is left or its number, from 1 on, stands in `fail`.
#[derive(Drop)]
pub struct MemSink {
    bytes: Vec<u8>,
    count: usize,
    piece: usize,
    fail: Vec<u64>,
    calls: u64,
    faults: u64,
}

impl Model for MemSink {
    ghost use Rattle.std.specs.Prelude.{◌≤◌, ◌<◌, vec_len, take};
    ghost use Rattle.outside.specs.Fakes.{FakeSink};

    ghost Value = { FakeSink };

    ghost view = { λ s. record {
      written = take s.count s.bytes.items;
      room = vec_len s.bytes;
      piece = s.piece;
      fail = s.fail.items;
      calls = s.calls;
      faults = s.faults;
    } };

    ghost invariant = { λ s. (s.count ≤ vec_len s.bytes) × (0 < s.piece) };
}

impl MemSink {
    /// A sink with room for `room` bytes in all. A call takes at most `piece` of them, and the calls that `fail`
    /// numbers fail. Where there is no memory for the room, `fail` is dropped.
    pub fn new(alloc: Global, room: usize, piece: usize, fail: Vec<u64>) -> Result<MemSink, Memory>
        requires { 0 < piece }
        ensures { IfOk result (λ sink. sink ≡ record {
          written = [];
          room = room;
          piece = piece;
          fail = fail.items;
          calls = 0;
          faults = 0;
        }) }
    {
        let Ok(bytes) = vec![in alloc; 0u8; room] else {
            return Err(Memory);
        };
        Ok(MemSink {
            bytes,
            count: 0,
            piece,
            fail,
            calls: 0,
            faults: 0,
        })
    }

    /// Lends the bytes taken so far.
    pub fn bytes(&self) -> &[u8]
        ensures { result.now ≡ self.now.written }
    {
        &self.bytes.as_slice()[..self.count]
    }
}

impl Sink for MemSink {
    ghost written = { λ s. Some s.written };

    ghost faults = { λ s. s.faults };

    fn write(&mut self, piece: &[u8]) -> Result<usize, Failed>
        requires { 0 < length piece.now }
        ensures some { IfOk result (λ n. 0 < n) }
        ensures bound { IfOk result (λ n. n ≤ length piece.now) }
        ensures bytes { WriteAppends (Some self.old.written) (Some self.new.written) result piece.now }
        ensures kept { OnErr result (Some self.new.written ≡ Some self.old.written) }
        ensures cause { HasCause self.old.faults self.new.faults result }

        // It fails exactly where it is full or was told to, and else takes all that it can.
        ensures fails { IsErr result ↔ Refuses self.old }
        ensures quiet { self.old.fail ≡ [] → length self.old.written < self.old.room →
            self.new.faults ≡ self.old.faults }
        ensures count { IfOk result (λ n.
            n ≡ min self.old.piece (min (length piece.now) (self.old.room - length self.old.written))) }
        ensures ok { IfOk result (λ n.
            self.new ≡ record self.old {
              written = self.old.written ++ take n piece.now;
              calls = count_on self.old.calls;
            }) }
        ensures err { OnErr result
            (self.new ≡ record self.old { calls = count_on self.old.calls; faults = count_on self.old.faults }) }
    {
        self.calls = self.calls.saturating_add(1);
        if self.count == self.bytes.len() || self.fail.as_slice().contains(&self.calls) {
            self.faults = self.faults.saturating_add(1);
            return Err(Failed);
        }
        let room = self.bytes.len() - self.count;
        let count = room.min(self.piece).min(piece.len());
        let end = self.count + count;
        self.bytes.as_mut_slice()[self.count..end].copy_from_slice(&piece[..count]);
        self.count = end;
        Ok(count)
    }
}
