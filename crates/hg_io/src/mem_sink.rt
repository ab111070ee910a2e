ghost use Rattle.std.specs.Prelude.{◌≡◌, ◌-◌, ◌↔◌, ◌≤◌, ◌<◌, [], Ok, Some, IfOk, OnOk, false, IsErr, min, length};
ghost use Rattle.std.specs.Io.{WritesAtMost};
ghost use Rattle.std.specs.Io.KnownBytes.{Keeps, WriteAppends};
ghost use Rattle.hg_io.specs.Faults.{HasCause};
ghost use Rattle.hg_io.specs.MemSink.{Refuses, after_put};

use crate::counts::{count_fault, is_among};
use crate::{Failed, Sink};
use hg_defs::NoMemory;
use std::alloc::Global;
use std::marker::Model;

/// A sink over memory, whose puts can be made to fail by their numbers. It takes all its memory when
/// it is made.
#[derive(Drop)]
pub struct MemSink {
    got: Vec<u8>,
    room: usize,
    fail: Vec<u32>,
    step: usize,
    puts: u64,
    faults: u64,
}

impl Model for MemSink {
    ghost use Rattle.std.specs.Prelude.{◌≤◌, vec_len, vec_capacity};
    ghost use Rattle.hg_io.specs.MemSink.{Store};

    ghost Value = { Store };

    ghost view = { λ sink. record {
      got = sink.got.items;
      room = sink.room;
      fail = sink.fail.items;
      step = sink.step;
      puts = sink.puts;
      faults = sink.faults;
    } };

    ghost invariant = { λ sink.
        (vec_len sink.got ≤ sink.room) × (sink.room ≤ vec_capacity sink.got) × (1 ≤ sink.step) };
}

impl MemSink {
    /// A sink with room for `room` bytes, which gets at most `step` at a time. Its puts are numbered
    /// from 1, and those whose numbers stand in `fail` fail.
    pub fn of(alloc: Global, room: usize, fail: Vec<u32>, step: usize) -> Result<MemSink, NoMemory>
        requires { 1 ≤ step }
        ensures { IfOk result (λ sink. sink ≡
            record { got = []; room = room; fail = fail.items; step = step; puts = 0; faults = 0 }) }
    {
        Ok(MemSink {
            got: Vec::with_capacity(alloc, room)?,
            room,
            fail,
            step,
            puts: 0,
            faults: 0,
        })
    }

    /// The faults so far, which stand still at 2^64 - 1.
    pub fn faults(&self) -> u64
        ensures { result ≡ self.now.faults }
    {
        self.faults
    }

    /// The bytes that were got.
    pub fn got(&self) -> &[u8]
        ensures { result.now ≡ self.now.got }
    {
        self.got.as_slice()
    }
}

impl Sink for MemSink {
    ghost faults = { λ sink. sink.faults };

    ghost got = { λ sink. Some sink.got };

    fn put(&mut self, piece: &[u8]) -> Result<usize, Failed>
        ensures bound { WritesAtMost result piece.now }
        ensures progress { IfOk result (λ n. 0 < length piece.now → 0 < n) }
        ensures bytes { WriteAppends (Some self.old.got) (Some self.new.got) result piece.now }
        ensures cause { HasCause self.old.faults self.new.faults result }

        // It fails exactly by its number or for want of room, and else gets the most it may.
        ensures failed { IsErr result ↔ Refuses self.old piece.now }
        ensures most { IfOk result (λ n.
            n ≡ min self.old.step (min (length piece.now) (self.old.room - length self.old.got))) }
        ensures after { self.new ≡ after_put self.old piece.now result }
    {
        self.puts = self.puts.saturating_add(1);
        let room = self.room - self.got.len();
        if is_among(&self.fail, self.puts) || (room == 0 && !piece.is_empty()) {
            return Err(count_fault(&mut self.faults));
        }
        let count = self.step.min(piece.len().min(room));
        self.got.extend_from_slice(&piece[..count]).unwrap();
        Ok(count)
    }

    fn flush(&mut self) -> Result<(), Failed>
        ensures bytes { Keeps (Some self.old.got) (Some self.new.got) }
        ensures cause { HasCause self.old.faults self.new.faults result }
        ensures sent { OnOk result (false ≡ false) }

        // It never fails, and changes nothing.
        ensures done { result ≡ Ok tt }
        ensures same { self.new ≡ self.old }
    {
        Ok(())
    }
}
