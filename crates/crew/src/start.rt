//! How workers are started.

ghost use Rattle.std.specs.Prelude.{◌≡◌, ◌<◌, length, slice_index_or};
ghost use Rattle.std.specs.Fork.{AcceptsEach, ChangesEach, AcceptsChunksMut, ChangesChunks, AllInChunks};
ghost use Rattle.std.specs.Fork.{AcceptsAt, ChangesAt};
ghost use Rattle.std.specs.Thread.{IsSync, IsSend};
ghost use Rattle.crew.specs.Chunks.{AllRuns, AllRunsChange};

use std::thread::{Threads, join_mut};

/// Runs the job on every item, with the item's place, by one start of a thread for each item but the last,
/// which this thread takes, and waits for them all. Each item is afterwards what a call of the job at its
/// place left. It is never refused, and takes no memory. For no items nothing is started.
pub fn each<R: Threads + Sync, W: Send, F: Fn(usize, &mut W) + Sync>(
    rt: &R,
    items: &mut [W],
    job: &F,
)
    requires accepts { AcceptsEach F.Fn job.now items.old }
    ensures changes { ChangesEach F.Fn job.now items.old items.new }
{
    each_chunk(
        rt,
        items,
        1,
        &|place: usize, part: &mut [W]|
            requires { (length part.now ≡ 1) × ((d : W) → AcceptsAt F.Fn job.now place (slice_index_or part.now 0 d)) }
            ensures { (d : W) → ChangesAt F.Fn job.entry.now place (slice_index_or part.entry.now 0 d)
                (slice_index_or part.exit.now 0 d) }
        { run_one(job, place, part) },
    );
}

/// Runs the job on the only item of a part.
fn run_one<W, F: Fn(usize, &mut W)>(job: &F, place: usize, part: &mut [W])
    requires alone { length part.old ≡ 1 }
    requires accepts { (d : W) → AcceptsAt F.Fn job.now place (slice_index_or part.old 0 d) }
    ensures { (d : W) → ChangesAt F.Fn job.now place (slice_index_or part.old 0 d) (slice_index_or part.new 0 d) }
{
    run(job, place, &mut part[0]);
}

/// Runs the job on an item.
fn run<W, F: Fn(usize, &mut W)>(job: &F, place: usize, item: &mut W)
    requires { AcceptsAt F.Fn job.now place item.old }
    ensures { ChangesAt F.Fn job.now place item.old item.new }
{
    job(place, item);
}

/// Runs the job on every run of `size` items, of which the last may be shorter, with the place of its first
/// one: a thread for each run but the last, which this thread takes. It waits for them all, is never
/// refused, and takes no memory.
///
/// This thread starts all others, one after the other: of threads that are started by several at the same
/// time some are put on one processor, where one waits for the other.
pub fn each_chunk<R: Threads + Sync, T: Send, F: Fn(usize, &mut [T]) + Sync>(
    rt: &R,
    items: &mut [T],
    size: usize,
    job: &F,
)
    requires size { 0 < size }
    requires accepts { AcceptsChunksMut F.Fn job.now size items.old }
    ensures chunks { ChangesChunks F.Fn job.now size items.old items.new }
    ensures by_index { AllInChunks F.Fn job.now size items.old items.new }
{
    if items.is_empty() {
        return;
    }
    chunks_from(rt, job, 0, size, items.len().div_ceil(size), items);
}

/// Runs the job on so many runs of items, which begin at a place.
#[cycle(chunks)]
fn chunks_from<R: Threads + Sync, T: Send, F: Fn(usize, &mut [T]) + Sync>(
    rt: &R,
    job: &F,
    place: usize,
    size: usize,
    count: usize,
    items: &mut [T],
)
    requires { AllRuns (AcceptsAt F.Fn job.now) place size count items.old }
    ensures { AllRunsChange (ChangesAt F.Fn job.now) place size items.old items.new }
{
    if count == 1 {
        job(place, items);
        return;
    }
    let (first, others) = items.split_at_mut(size);
    beside(
        rt,
        job,
        size,
        place,
        1,
        first,
        place + size,
        count - 1,
        others,
    );
}

/// Runs the job on the first runs from a new thread, and on the others from this one.
#[cycle(chunks)]
fn beside<R: Threads + Sync, T: Send, F: Fn(usize, &mut [T]) + Sync>(
    rt: &R,
    job: &F,
    size: usize,
    place: usize,
    few: usize,
    first: &mut [T],
    next: usize,
    many: usize,
    others: &mut [T],
)
    requires first { AllRuns (AcceptsAt F.Fn job.now) place size few first.old }
    requires others { AllRuns (AcceptsAt F.Fn job.now) next size many others.old }
    ensures first { AllRunsChange (ChangesAt F.Fn job.now) place size first.old first.new }
    ensures others { AllRunsChange (ChangesAt F.Fn job.now) next size others.old others.new }
{
    let mut front = ||
        requires { IsSync R.row × IsSync F.row × IsSend T.row × AllRuns (AcceptsAt F.Fn job.now) place size few
            first.now }
        ensures { AllRunsChange (ChangesAt F.Fn job.entry.now) place size first.entry.now first.exit.now }
    { chunks_from(rt, job, place, size, few, first) };
    let mut back = ||
        requires { IsSync R.row × IsSync F.row × IsSend T.row × AllRuns (AcceptsAt F.Fn job.now) next size many
            others.now }
        ensures { AllRunsChange (ChangesAt F.Fn job.entry.now) next size others.entry.now others.exit.now }
    { chunks_from(rt, job, next, size, many, others) };
    join_mut(rt, &mut front, &mut back);
}
