//! A partition as a round begins with it.

ghost use Rattle.std.specs.Prelude.{◌≡◌, ◌<◌, ◌≤◌};
ghost use Rattle.hg_defs.specs.Hypergraph.{net_count};
ghost use Rattle.hg_base.specs.Packed.{IsWidth};
ghost use Rattle.pin_plain.specs.Counts.{net_place, net_bits};
ghost use Rattle.pin_plain.specs.Parted.{IsParted};
ghost use Rattle.pin_plain.specs.Opened.{IsOpened};

use super::Partition;
use super::stride::{Stride, stride_of};
use crate::opening::open_words;
use hg_base::Blocks;
use incidence::Hypergraph;
use std::marker::Model;
use std::snapshot::Snapshot;
use std::thread::Threads;

/// A partition whose words are those with which a round begins. A round copies them, and they stay as they
/// are until the partition is given back.
#[derive(Drop)]
pub struct Ready {
    hyper: Snapshot<Hypergraph>,
    k: u32,
    limit: u64,
    blocks: Blocks,
    loads: Vec<u64>,
    starts: Vec<u32>,
    widths: Vec<u8>,
    words: Vec<u64>,
    /// Spares the look at `starts` and `widths`, where all counts are of one width.
    stride: Option<Stride>,
}

impl Model for Ready {
    ghost use Rattle.std.specs.Prelude.{IfSome};
    ghost use Rattle.pin_plain.specs.Counts.{HasStride};
    ghost use Rattle.pin_plain.specs.Parted.{Parted, IsTallied};
    ghost use Rattle.pin_plain.specs.Opened.{IsOpened};

    ghost Value = { Parted };

    ghost view = { λ p. record { hyper = p.hyper.value; k = p.k; limit = p.limit; blocks = p.blocks } };

    ghost invariant = { λ p. IsTallied p.hyper.value p.k p.blocks p.loads.items p.starts.items p.widths.items
        p.words.items × IsOpened p.hyper.value p.k p.blocks p.words.items ×
        IfSome p.stride (λ s. HasStride p.hyper.value p.k s.bits s.first s.words) };
}

impl Ready {
    /// The words with which a round begins.
    pub fn words(&self) -> &[u64]
        ensures { IsOpened self.now.hyper self.now.k self.now.blocks result.now }
    {
        self.words.as_slice()
    }

    /// The block of each vertex.
    pub fn blocks(&self) -> &[u32]
        ensures value { result.now ≡ self.now.blocks }
        ensures parted { IsParted self.now.hyper self.now.k self.now.blocks }
    {
        self.blocks.slice()
    }

    /// The number of blocks.
    pub fn k(&self) -> u32
        ensures { result ≡ self.now.k }
    {
        self.k
    }

    /// The limit on the load of a block.
    pub fn limit(&self) -> u64
        ensures { result ≡ self.now.limit }
    {
        self.limit
    }

    /// Where the words of a net begin, the number of its blocks first, and how many bits each of its counts takes.
    pub fn place_of_net(&self, e: u32) -> (u32, u32)
        requires { e < net_count self.now.hyper }
        ensures start { result.0 ≡ net_place self.now.hyper self.now.k e }
        ensures bits { result.1 ≡ net_bits self.now.hyper e }
        ensures width { IsWidth result.1 }
    {
        if let Some(stride) = &self.stride {
            return (stride.first + e * stride.words, stride.bits);
        }
        let starts = self.starts.as_slice();
        let widths = self.widths.as_slice();
        (starts[e as usize] - 1, u32::from(widths[e as usize]))
    }

    /// Gives the partition back.
    pub fn into_partition(self) -> Partition
        ensures { result ≡ self }
    {
        let Ready {
            hyper,
            k,
            limit,
            blocks,
            loads,
            starts,
            widths,
            words,
            stride: _,
        } = self;
        Partition {
            hyper,
            k,
            limit,
            blocks,
            loads,
            starts,
            widths,
            words,
        }
    }
}

impl Partition {
    /// Makes the partition ready for a round, in at most so many threads.
    pub fn into_ready<R: Threads + Sync>(self, rt: &R, h: &Hypergraph, workers: u32) -> Ready
        requires belongs { self.hyper ≡ h.now }
        requires some { 1 ≤ workers }
        requires few { workers ≤ 64 }
        ensures { result ≡ self }
    {
        let Partition {
            hyper,
            k,
            limit,
            blocks,
            loads,
            starts,
            widths,
            mut words,
        } = self;
        open_words(
            rt,
            words.as_mut_slice(),
            h,
            k,
            blocks.slice(),
            loads.as_slice(),
            starts.as_slice(),
            workers,
        );
        let stride = stride_of(h, k, widths.as_slice());
        Ready {
            hyper,
            k,
            limit,
            blocks,
            loads,
            starts,
            widths,
            words,
            stride,
        }
    }
}
