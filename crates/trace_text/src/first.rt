//! The cost of the first partition of a descent.

ghost use Rattle.std.specs.Prelude.{◌≡◌, ℕ, ◌<◌, ◌≤◌, ◌^◌, length, slice_index};
ghost use Rattle.hg_defs.specs.Levels.{map_of};
ghost use Rattle.exact_cost.specs.Carrying.{carried, LeadsInto};
ghost use Rattle.trace_text.specs.Report.{IsPrintable, first_cost};

use exact_cost::{block_below, cost_below};
use hg_base::{FlatHyper, MapList};
use round_log::Trace;
use std::thread::Threads;

/// The blocks of a level of so few vertices stand in a table, so that the clusterings above it are gone
/// through for each of its vertices, and not for each pin of the file.
const MOST_VERTICES: usize = 1 << 18;

/// The cost of the first partition on its level. It is that on the file of the partition carried down, and
/// so it is found with no level built, by at most so many threads.
pub(crate) fn first_cost<R: Threads + Sync>(
    rt: &R,
    h: &FlatHyper,
    trace: &Trace,
    workers: u32,
) -> u64
    requires { IsPrintable h.now 256 trace.now }
    ensures { result ≡ first_cost h.now trace.now }
{
    let level = small_level(trace);
    let (maps, first) = (trace.maps.slice(), trace.first.slice());
    let below = &maps[..level as usize];
    if level == trace.start {
        return cost_below(rt, h, below, first, workers);
    }
    let mut table = [0u32; MOST_VERTICES];
    let vertices = maps[level as usize].slice().len();
    let above = &maps[level as usize..trace.start as usize];
    write_blocks(above, first, vertices, &mut table);
    cost_below(rt, h, below, &table[..vertices], workers)
}

/// The first level, from the file up, of so few vertices that their blocks have room in a table, or the level
/// of the first partition.
fn small_level(trace: &Trace) -> u32
    requires { trace.now.start ≤ length trace.now.maps }
    ensures within { result ≤ trace.now.start }
    ensures few { result < trace.now.start → length (map_of trace.now.maps result) ≤ 2 ^ 18 }
{
    for level in 0..trace.start {
        if trace.maps.slice()[level as usize].slice().len() <= MOST_VERTICES {
            return level;
        }
    }
    trace.start
}

/// Writes the blocks of so many vertices below some clusterings into a table.
fn write_blocks(maps: &[MapList], blocks: &[u32], vertices: usize, table: &mut [u32; MOST_VERTICES])
    requires few { vertices ≤ 2 ^ 18 }
    requires leads { (v : ℕ) → v < vertices → LeadsInto maps.now blocks.now v }
    ensures count { length table.new ≡ 2 ^ 18 }
    ensures blocks { (v : ℕ) → v < vertices → slice_index table.new v ≡ slice_index blocks.now (carried maps.now v) }
{
    for v in 0..vertices {
        table[v] = block_below(maps, blocks, v as u32);
    }
}
