//! Breadth-first search from the sink, against the residual network.

ghost use Rattle.std.specs.Prelude.{◌≡◌, ◌≢◌, ℕ, ◌+◌, ◌*◌, ◌^◌, ◌<◌, ◌≤◌, length, slice_index, IsTrue, false};
ghost use Rattle.flow_net.specs.Residual.{IsTree, IsOpen, IsClosed, IsSearched};

use crate::residual::{Halves, clear, mate};

/// Gives a level to each node without one from which a half with a rest leads to the node at place `start`
/// of the queue, and appends it to the queue. Answers the queue's new end.
pub(crate) fn scan(
    halves: Halves<'_>,
    rests: &[u64],
    start: usize,
    mut end: usize,
    levels: &mut [u32],
    ways: &mut [u32],
    queue: &mut [u32],
) -> usize
    requires rests { length rests.now ≡ length halves.heads.now }
    requires levels { length levels.old ≡ length halves.firsts.now }
    requires ways { length ways.old ≡ length levels.old }
    requires queue { length queue.old ≡ length levels.old }
    requires waiting { start < end }
    requires searched { IsSearched halves.heads.now rests.now levels.old ways.old queue.old halves.sink start end }
    ensures later { start < result }
    ensures searched { IsSearched halves.entry.heads.now rests.now levels.new ways.new queue.new halves.entry.sink
        (start + 1) result }
{
    let node = queue[start];
    let level = levels[node as usize] + 1;
    let mut at = halves.firsts[node as usize];
    while at > 0 {
        let half = at - 1;
        let from = halves.heads[half as usize];
        let back = mate(half);
        if rests[back as usize] > 0 && levels[from as usize] == 0 {
            levels[from as usize] = level;
            ways[from as usize] = back;
            queue[end] = from;
            end += 1;
        }
        at = halves.nexts[half as usize];
    }
    end
}

/// Gives each node the level 1 more than its distance to the sink, and a step on a shortest way there,
/// until the source has a level. Nodes that were not reached have the level 0. Answers whether the source was.
pub(crate) fn search(
    halves: Halves<'_>,
    rests: &[u64],
    levels: &mut [u32],
    ways: &mut [u32],
    queue: &mut [u32],
) -> bool
    requires rests { length rests.now ≡ length halves.heads.now }
    requires levels { length levels.old ≡ length halves.firsts.now }
    requires ways { length ways.old ≡ length levels.old }
    requires queue { length queue.old ≡ length levels.old }
    ensures tree { IsTree halves.entry.heads.now levels.new ways.new halves.entry.sink }
    ensures open_ways { IsOpen rests.now levels.new ways.new halves.entry.sink }
    ensures reached { IsTrue result → 0 < slice_index levels.new halves.entry.source }
    ensures unreached { result ≡ false → slice_index levels.new halves.entry.source ≡ 0 }
    ensures closed { result ≡ false → IsClosed halves.entry.heads.now rests.now levels.new }
{
    clear(levels);
    levels[halves.sink as usize] = 1;
    queue[0] = halves.sink;
    let mut start = 0;
    let mut end = 1;
    while levels[halves.source as usize] == 0 {
        if start == end {
            return false;
        }
        end = scan(halves, rests, start, end, levels, ways, queue);
        start += 1;
    }
    true
}
