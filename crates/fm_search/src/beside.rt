//! How threads are started for runs of items, beside work of the thread that starts them.

ghost use Rattle.std.specs.Prelude.{◌<◌};
ghost use Rattle.std.specs.Fork.{AcceptsAt, ChangesAt, AcceptsChunksMut, ChangesChunks, AllInChunks};
ghost use Rattle.std.specs.Thread.{IsSync, IsSend};
ghost use Rattle.crew.specs.Chunks.{AllRuns, AllRunsChange};

use std::thread::{Threads, join_mut};

/// Runs the job on every run of `size` items, of which the last may be shorter, with the place of its first one, each
/// in a thread of its own, and `own` in this thread meanwhile. It waits for them all, answers what `own` answered, is
/// never refused, and takes no memory. For no items nothing is started.
///
/// This thread starts all others, one after the other: a thread that was itself just started often has those that it
/// starts put on its own processor, where one waits for the other.
pub(crate) fn each_chunk_beside<
    R: Threads + Sync,
    T: Send,
    F: Fn(usize, &mut [T]) + Sync,
    A,
    G: FnMut() -> A,
>(rt: &R, items: &mut [T], size: usize, job: &F, own: &mut G) -> A
    requires size { 0 < size }
    requires accepts { AcceptsChunksMut F.Fn job.now size items.old }
    requires own { G.pre own.old }
    ensures chunks { ChangesChunks F.Fn job.now size items.old items.new }
    ensures by_index { AllInChunks F.Fn job.now size items.old items.new }
    ensures own { G.step own.old result own.new }
{
    if items.is_empty() {
        return own();
    }
    runs_beside(rt, job, 0, size, items.len().div_ceil(size), items, own)
}

/// Runs the job on a run of items.
fn run<T, F: Fn(usize, &mut [T])>(job: &F, place: usize, items: &mut [T])
    requires { AcceptsAt F.Fn job.now place items.old }
    ensures { ChangesAt F.Fn job.now place items.old items.new }
{
    job(place, items);
}

/// Runs the job on so many runs of items, which begin at a place, and `own` in this thread.
#[cycle(runs)]
fn runs_beside<R: Threads + Sync, T: Send, F: Fn(usize, &mut [T]) + Sync, A, G: FnMut() -> A>(
    rt: &R,
    job: &F,
    place: usize,
    size: usize,
    count: usize,
    items: &mut [T],
    own: &mut G,
) -> A
    requires items { AllRuns (AcceptsAt F.Fn job.now) place size count items.old }
    requires own { G.pre own.old }
    ensures items { AllRunsChange (ChangesAt F.Fn job.now) place size items.old items.new }
    ensures own { G.step own.old result own.new }
{
    if count == 1 {
        let mut last = ||
            requires { AcceptsAt F.Fn job.now place items.now }
            ensures { ChangesAt F.Fn job.entry.now place items.entry.now items.exit.now }
        { run(job, place, items) };
        return join_mut(rt, &mut last, own).1;
    }
    let (first, others) = items.split_at_mut(size);
    let next = place + size;
    let many = count - 1;
    let mut front = ||
        requires { AcceptsAt F.Fn job.now place first.now }
        ensures { ChangesAt F.Fn job.entry.now place first.entry.now first.exit.now }
    { run(job, place, first) };
    let mut back = || -> A
        requires { IsSync R.row × IsSync F.row × IsSend T.row × AllRuns (AcceptsAt F.Fn job.now) next size many
            others.now × G.pre own.now }
        ensures { AllRunsChange (ChangesAt F.Fn job.entry.now) next size others.entry.now others.exit.now
            × G.step own.entry.now result own.exit.now }
    { runs_beside(rt, job, next, size, many, others, own) };
    join_mut(rt, &mut front, &mut back).1
}
