//! The search for ways to the sink from both ends: marks are spread from the source while levels are given from the
//! sink, and where the two meet, the levels go on among marked nodes alone.

ghost use Rattle.std.specs.Prelude.{◌≡◌, ℕ, ◌+◌, ◌<◌, ◌≤◌, length, slice_index, IsTrue, false};
ghost use Rattle.flow_net.specs.Residual.{IsTree, IsOpen, IsClosed, IsLined, IsSpread, IsSearched};

use crate::levels::{scan, search};
use crate::residual::{Halves, clear, mate};

/// From so many halves on a search from both ends takes less time than one from the sink alone.
const MANY_HALVES: usize = 1 << 14;

/// Gives a mark to each node without one to which a half with a rest leads from the node at place `start` of
/// the line, and appends it to the line. Answers the line's new end.
fn spread(
    halves: Halves<'_>,
    rests: &[u64],
    mark: u32,
    start: usize,
    mut end: usize,
    marks: &mut [u32],
    line: &mut [u32],
) -> usize
    requires rests { length rests.now ≡ length halves.heads.now }
    requires marks { length marks.old ≡ length halves.firsts.now }
    requires line { length line.old ≡ length marks.old }
    requires positive { 0 < mark }
    requires waiting { start < end }
    requires lined { IsLined marks.old line.old end }
    ensures later { start < result }
    ensures lined { IsLined marks.new line.new result }
{
    let mut at = halves.firsts[line[start] as usize];
    while at > 0 {
        let half = at - 1;
        let to = halves.heads[half as usize];
        if marks[to as usize] == 0 && rests[half as usize] > 0 {
            marks[to as usize] = mark;
            line[end] = to;
            end += 1;
        }
        at = halves.nexts[half as usize];
    }
    end
}

/// Does so from the node at place `start` and from those after it with the same mark. Answers the first place
/// after them, and the line's new end.
fn spread_level(
    halves: Halves<'_>,
    rests: &[u64],
    mark: u32,
    mut start: usize,
    mut end: usize,
    marks: &mut [u32],
    line: &mut [u32],
) -> (usize, usize)
    requires rests { length rests.now ≡ length halves.heads.now }
    requires marks { length marks.old ≡ length halves.firsts.now }
    requires line { length line.old ≡ length marks.old }
    requires positive { 0 < mark }
    requires waiting { start < end }
    requires lined { IsLined marks.old line.old end }
    ensures order { result.0 ≤ result.1 }
    ensures lined { IsLined marks.new line.new result.1 }
{
    let own = marks[line[start] as usize];
    while start < end && marks[line[start] as usize] == own {
        end = spread(halves, rests, mark, start, end, marks, line);
        start += 1;
    }
    (start, end)
}

/// Gives levels from the node at place `start` of the queue and from those after it with the same level. Answers
/// the first place after them, and the queue's new end.
fn scan_level(
    halves: Halves<'_>,
    rests: &[u64],
    mut start: usize,
    mut end: usize,
    levels: &mut [u32],
    ways: &mut [u32],
    queue: &mut [u32],
) -> (usize, usize)
    requires rests { length rests.now ≡ length halves.heads.now }
    requires levels { length levels.old ≡ length halves.firsts.now }
    requires ways { length ways.old ≡ length levels.old }
    requires queue { length queue.old ≡ length levels.old }
    requires waiting { start < end }
    requires searched { IsSearched halves.heads.now rests.now levels.old ways.old queue.old halves.sink start end }
    ensures order { result.0 ≤ result.1 }
    ensures searched { IsSearched halves.entry.heads.now rests.now levels.new ways.new queue.new halves.entry.sink
        result.0 result.1 }
{
    let own = levels[queue[start] as usize];
    while start < end && levels[queue[start] as usize] == own {
        end = scan(halves, rests, start, end, levels, ways, queue);
        start += 1;
    }
    (start, end)
}

/// Whether one of the nodes from one place of a list up to another has a number.
fn any_has(list: &[u32], start: usize, end: usize, numbers: &[u32]) -> bool
    requires end { end ≤ length list.now }
    requires within { (j : ℕ) → j < end → slice_index list.now j < length numbers.now }
{
    for place in start..end {
        if numbers[list[place] as usize] > 0 {
            return true;
        }
    }
    false
}

/// Gives levels from the sink, and marks from the source, which rise with the distance from it, always from the
/// end where fewer nodes wait, until a node has both. Answers the places of the queue between which the nodes of
/// the last level stand, and places between which none does where there is no such node.
fn approach(
    halves: Halves<'_>,
    rests: &[u64],
    levels: &mut [u32],
    ways: &mut [u32],
    queue: &mut [u32],
    marks: &mut [u32],
    line: &mut [u32],
) -> (usize, usize)
    requires rests { length rests.now ≡ length halves.heads.now }
    requires levels { length levels.old ≡ length halves.firsts.now }
    requires ways { length ways.old ≡ length levels.old }
    requires queue { length queue.old ≡ length levels.old }
    requires marks { length marks.old ≡ length levels.old }
    requires line { length line.old ≡ length levels.old }
    ensures order { result.0 ≤ result.1 }
    ensures spread { IsSpread halves.entry.heads.now rests.now levels.new ways.new queue.new halves.entry.sink
        result.1 }
{
    clear(levels);
    levels[halves.sink as usize] = 1;
    queue[0] = halves.sink;
    clear(marks);
    marks[halves.source as usize] = 1;
    line[0] = halves.source;
    let (mut start, mut end) = (0, 1);
    let (mut first, mut last) = (0, 1);
    for mark in 2..levels.len() as u32 {
        if start == end || first == last {
            return (end, end);
        }
        if last - first < end - start {
            (first, last) = spread_level(halves, rests, mark, first, last, marks, line);
            if any_has(line, first, last, levels) {
                return (start, end);
            }
        } else {
            (start, end) = scan_level(halves, rests, start, end, levels, ways, queue);
            if any_has(queue, start, end, marks) {
                return (start, end);
            }
        }
    }
    (end, end)
}

/// Gives a level to each node without one that has a lower mark than the node at place `start` of the queue, to
/// which a half with a rest leads from it, and appends it to the queue. Answers the queue's new end.
fn scan_marked(
    halves: Halves<'_>,
    rests: &[u64],
    marks: &[u32],
    start: usize,
    last: usize,
    levels: &mut [u32],
    ways: &mut [u32],
    queue: &mut [u32],
) -> usize
    requires rests { length rests.now ≡ length halves.heads.now }
    requires levels { length levels.old ≡ length halves.firsts.now }
    requires ways { length ways.old ≡ length levels.old }
    requires queue { length queue.old ≡ length levels.old }
    requires marks { length marks.now ≡ length levels.old }
    requires waiting { start < last }
    requires spread { IsSpread halves.heads.now rests.now levels.old ways.old queue.old halves.sink last }
    ensures later { start < result }
    ensures spread { IsSpread halves.entry.heads.now rests.now levels.new ways.new queue.new halves.entry.sink
        result }
{
    let node = queue[start];
    let mark = marks[node as usize];
    if mark == 0 {
        return last;
    }
    let level = levels[node as usize] + 1;
    let mut end = last;
    let mut at = halves.firsts[node as usize];
    while at > 0 {
        let half = at - 1;
        let from = halves.heads[half as usize];
        let back = mate(half);
        let lower = marks[from as usize] > 0 && marks[from as usize] < mark;
        if lower && levels[from as usize] == 0 && rests[back as usize] > 0 {
            levels[from as usize] = level;
            ways[from as usize] = back;
            queue[end] = from;
            end += 1;
        }
        at = halves.nexts[half as usize];
    }
    end
}

/// Gives levels to marked nodes alone, from the places of the queue on, until the source has one. Answers
/// whether it has.
fn narrow(
    halves: Halves<'_>,
    rests: &[u64],
    marks: &[u32],
    places: (usize, usize),
    levels: &mut [u32],
    ways: &mut [u32],
    queue: &mut [u32],
) -> bool
    requires rests { length rests.now ≡ length halves.heads.now }
    requires levels { length levels.old ≡ length halves.firsts.now }
    requires ways { length ways.old ≡ length levels.old }
    requires queue { length queue.old ≡ length levels.old }
    requires marks { length marks.now ≡ length levels.old }
    requires order { places.0 ≤ places.1 }
    requires spread { IsSpread halves.heads.now rests.now levels.old ways.old queue.old halves.sink places.1 }
    ensures tree { IsTree halves.entry.heads.now levels.new ways.new halves.entry.sink }
    ensures open_ways { IsOpen rests.now levels.new ways.new halves.entry.sink }
    ensures reached { IsTrue result → 0 < slice_index levels.new halves.entry.source }
{
    let (mut start, mut end) = places;
    while levels[halves.source as usize] == 0 {
        if start == end {
            return false;
        }
        end = scan_marked(halves, rests, marks, start, end, levels, ways, queue);
        start += 1;
    }
    true
}

/// Gives nodes levels as a search from the sink does, all the nodes or only those with a mark, and answers the
/// same.
pub(crate) fn search_both(
    halves: Halves<'_>,
    rests: &[u64],
    levels: &mut [u32],
    ways: &mut [u32],
    queue: &mut [u32],
    marks: &mut [u32],
    line: &mut [u32],
) -> bool
    requires rests { length rests.now ≡ length halves.heads.now }
    requires levels { length levels.old ≡ length halves.firsts.now }
    requires ways { length ways.old ≡ length levels.old }
    requires queue { length queue.old ≡ length levels.old }
    requires marks { length marks.old ≡ length levels.old }
    requires line { length line.old ≡ length levels.old }
    ensures tree { IsTree halves.entry.heads.now levels.new ways.new halves.entry.sink }
    ensures open_ways { IsOpen rests.now levels.new ways.new halves.entry.sink }
    ensures reached { IsTrue result → 0 < slice_index levels.new halves.entry.source }
    ensures unreached { result ≡ false → slice_index levels.new halves.entry.source ≡ 0 }
    ensures closed { result ≡ false → IsClosed halves.entry.heads.now rests.now levels.new }
{
    if halves.heads.len() >= MANY_HALVES {
        let places = approach(halves, rests, levels, ways, queue, marks, line);
        if narrow(halves, rests, marks, places, levels, ways, queue) {
            return true;
        }
    }
    search(halves, rests, levels, ways, queue)
}
