ghost use Rattle.std.specs.Prelude.{◌≡◌, ◌↔◌, ◌≤◌, ◌++◌, Some, IfOk, IsErr, MatchResult};
ghost use Rattle.std.specs.Prelude.{Contains, min, length, take, drop};
ghost use Rattle.std.specs.Io.{ReadsAtMost};
ghost use Rattle.std.specs.Io.KnownBytes.{ReadConsumes};
ghost use Rattle.hg_io.specs.Faults.{HasCause, next_count};
ghost use Rattle.hg_io.specs.MemSource.{after_take};

use crate::counts::{count_fault, is_among};
use crate::{Failed, Source};
use std::marker::Model;

/// A source over memory, whose takes can be made to fail by their numbers.
#[derive(Drop)]
pub struct MemSource {
    bytes: Vec<u8>,
    at: usize,
    fail: Vec<u32>,
    step: usize,
    takes: u64,
    faults: u64,
}

impl Model for MemSource {
    ghost use Rattle.std.specs.Prelude.{◌≤◌, vec_len, drop};
    ghost use Rattle.hg_io.specs.MemSource.{Supply};

    ghost Value = { Supply };

    ghost view = { λ source. record {
      left = drop source.at source.bytes.items;
      fail = source.fail.items;
      step = source.step;
      takes = source.takes;
      faults = source.faults;
    } };

    ghost invariant = { λ source. (source.at ≤ vec_len source.bytes) × (1 ≤ source.step) };
}

impl MemSource {
    /// A source that gives `bytes`, at most `step` at a time. Its takes are numbered from 1, and those
    /// whose numbers stand in `fail` fail.
    pub fn of(bytes: Vec<u8>, fail: Vec<u32>, step: usize) -> MemSource
        requires { 1 ≤ step }
        ensures { result ≡
            record { left = bytes.items; fail = fail.items; step = step; takes = 0; faults = 0 } }
    {
        MemSource {
            bytes,
            at: 0,
            fail,
            step,
            takes: 0,
            faults: 0,
        }
    }

    /// The faults so far, which stand still at 2^64 - 1.
    pub fn faults(&self) -> u64
        ensures { result ≡ self.now.faults }
    {
        self.faults
    }

    /// The bytes that are left.
    pub fn left(&self) -> &[u8]
        ensures { result.now ≡ self.now.left }
    {
        &self.bytes[self.at..]
    }
}

impl Source for MemSource {
    ghost faults = { λ source. source.faults };

    ghost left = { λ source. Some source.left };

    fn take(&mut self, buf: &mut [u8]) -> Result<usize, Failed>
        ensures bound { ReadsAtMost result buf.new }
        ensures bytes { ReadConsumes (Some self.old.left) (Some self.new.left) result buf.new }
        ensures cause { HasCause self.old.faults self.new.faults result }

        // It fails exactly where its number stands in `fail`, and else gives the most it may.
        ensures failed { IsErr result ↔ Contains self.old.fail (next_count self.old.takes) }
        ensures most { IfOk result (λ n.
            n ≡ min self.old.step (min (length buf.old) (length self.old.left))) }
        ensures moved { MatchResult result
            (λ n. buf.new ≡ take n self.old.left ++ drop n buf.old) (λ _. buf.new ≡ buf.old) }
        ensures after { self.new ≡ after_take self.old result }
    {
        self.takes = self.takes.saturating_add(1);
        if is_among(&self.fail, self.takes) {
            return Err(count_fault(&mut self.faults));
        }
        let left = self.bytes.len() - self.at;
        let count = self.step.min(buf.len().min(left));
        buf[..count].copy_from_slice(&self.bytes[self.at..self.at + count]);
        self.at += count;
        Ok(count)
    }
}
