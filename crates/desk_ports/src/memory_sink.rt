// A sink over memory, which tells all and fails at the calls that it is told.
ghost use Rattle.std.specs.Prelude.{◌≡◌, ◌≤◌, [], true, IfOk};
ghost use Rattle.desk_ports.specs.Faults.{is_among, NoneFails};
ghost use Rattle.desk_ports.specs.MemSink.{new_sink};

use crate::faults::raised;
use crate::{NoMemory, Sink, SinkFailed};
use std::alloc::Global;
use std::marker::Model;

/// A sink with room for a number of bytes. It takes all its memory when it is made.
#[derive(Drop)]
pub struct MemSink {
    bytes: Vec<u8>,
    room: usize,
    fails: Vec<u64>,
    calls: u64,
    faults: u64,
}

impl Model for MemSink {
    ghost use Rattle.std.specs.Prelude.{◌+◌, ◌≡◌, ◌≤◌, vec_len, vec_capacity};
    ghost use Rattle.desk_ports.specs.MemSink.{SinkState};

    ghost Value = { SinkState };

    ghost view = { λ s. record {
      written = s.bytes.items;
      room = s.room;
      fails = s.fails.items;
      calls = s.calls;
      faults = s.faults;
    } };

    ghost invariant = { λ s. vec_len s.bytes + s.room ≤ vec_capacity s.bytes };
}

impl MemSink {
    /// The calls with these numbers, counted from 0, fail, and so does a piece that doesn't fit, of
    /// which the bytes that fit are written.
    pub fn new(alloc: Global, room: usize, fails: Vec<u64>) -> Result<MemSink, NoMemory>
        ensures made { IfOk result (λ sink. sink ≡ new_sink room fails.items) }
        ensures never { fails.items ≡ []
            → IfOk result (λ sink. NoneFails (⟦<MemSink as Sink>⟧.fails sink)) }
    {
        Ok(MemSink {
            bytes: Vec::with_capacity(alloc, room)?,
            room,
            fails,
            calls: 0,
            faults: 0,
        })
    }

    /// The bytes written so far.
    pub fn written(&self) -> &[u8]
        ensures { result.now ≡ self.now.written }
    {
        &self.bytes
    }
}

impl Sink for MemSink {
    ghost tells = { true };

    ghost written = { λ s. s.written };

    ghost room = { λ s. s.room };

    ghost faults = { λ s. s.faults };

    ghost fails = { λ s. is_among s.fails };

    ghost calls = { λ s. s.calls };

    fn put(&mut self, piece: &[u8]) -> Result<(), SinkFailed> {
        let told = self.fails.contains(&self.calls);
        self.calls = raised(self.calls);
        let count = if told { 0 } else { piece.len().min(self.room) };
        self.bytes.extend_from_slice(&piece[..count]).unwrap();
        self.room -= count;
        if told || count < piece.len() {
            self.faults = raised(self.faults);
            return Err(SinkFailed);
        }
        Ok(())
    }
}
