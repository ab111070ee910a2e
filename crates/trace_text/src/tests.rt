ghost use Rattle.std.specs.Prelude.{◌≡◌, ◌≤◌, [], All, IfOk, length};

use crate::{put_evaluation, put_report, put_summary};
use hg_base::{Blocks, Gains, MapStack, NoMemory, Objective, Verts, cost_of, greedy};
use hg_io::MemSink;
use hmetis_read::read_hypergraph;
use incidence::Hypergraph;
use part_text::read_part;
use round_log::{Chosen, Job, Kind, LoggedRound, Move, Moves, RoundList, Stop, Trace, TraceList};
use std::alloc::Global;
use std::test::Fail;
use std::thread::Threads;

const GRAPH: &[u8; 38] = b"4 7 1\n2 1 2\n3 1 7 5 6\n8 5 6 4\n7 2 3 4\n";

// Evaluates a partition that a text spells, with no part of the share to spare.
fn evaluate(
    alloc: Global,
    sink: &mut MemSink,
    graph: &[u8],
    part: &[u8],
    k: u32,
    objective: Objective,
) -> Result<(), Fail>
    requires graph { length graph.now ≤ 100 }
    requires part { length part.now ≤ 100 }
    requires least_k { 2 ≤ k }
    requires most_k { k ≤ 256 }
{
    let mut h = read_hypergraph(alloc, graph)?;
    h.set_objective(objective);
    let blocks = read_part(alloc, part, h.vertices(), k)?;
    put_evaluation(sink, &h, k, 0, blocks.slice())?;
    Ok(())
}

#[test]
fn evaluations(rt: HostRuntime) -> Result<(), Fail> {
    let halves = b"0\n0\n0\n1\n1\n1\n0\n".as_slice();
    let thirds = b"0\n1\n2\n0\n1\n2\n0\n".as_slice();
    for (graph, part, k, objective, text) in [
        (
            GRAPH.as_slice(),
            halves,
            2,
            Objective::Connectivity,
            b"vertices 7\nnets 4\nweight 7\nblocks 2\nlimit 4\ncost 10\nload 0 4\nload 1 3\nfits yes\n".as_slice(),
        ),
        (
            GRAPH.as_slice(),
            b"0\n0\n0\n0\n0\n0\n0\n".as_slice(),
            2,
            Objective::Connectivity,
            b"vertices 7\nnets 4\nweight 7\nblocks 2\nlimit 4\ncost 0\nload 0 7\nload 1 0\nfits no\n".as_slice(),
        ),
        (
            GRAPH.as_slice(),
            thirds,
            3,
            Objective::CutNet,
            b"vertices 7\nnets 4\nweight 7\nblocks 3\nlimit 3\n\
objective cut\ncost 20\nload 0 3\nload 1 2\nload 2 2\nfits yes\n"
                .as_slice(),
        ),
        (
            GRAPH.as_slice(),
            thirds,
            3,
            Objective::ExternalDegree,
            b"vertices 7\nnets 4\nweight 7\nblocks 3\nlimit 3\n\
objective soed\ncost 58\nload 0 3\nload 1 2\nload 2 2\nfits yes\n"
                .as_slice(),
        ),
        (
            b"1 2 1\n5\n".as_slice(),
            b"0\n1\n".as_slice(),
            2,
            Objective::Connectivity,
            b"vertices 2\nnets 1\nweight 2\nblocks 2\nlimit 1\ncost 0\nload 0 1\nload 1 1\nfits yes\n".as_slice(),
        ),
    ] {
        assert!(rt; graph.len() <= 100);
        assert!(rt; part.len() <= 100);
        assert!(rt; k >= 2);
        assert!(rt; k <= 256);
        let mut sink = MemSink::of(rt.alloc(), 200, Vec::new(rt.alloc()), 200)?;
        evaluate(rt.alloc(), &mut sink, graph, part, k, objective)?;
        assert_eq!(rt; sink.got(), text);
    }
    Ok(())
}

#[test]
fn failing_sinks(rt: HostRuntime) -> Result<(), Fail> {
    let h = read_hypergraph(rt.alloc(), GRAPH)?;
    let blocks = read_part(rt.alloc(), b"0\n0\n0\n1\n1\n1\n0\n", h.vertices(), 2)?;
    for (call, got) in [
        (1, b"".as_slice()),
        (2, b"vertices 7\nnets 4\nweight 7\nblo".as_slice()),
        (
            3,
            b"vertices 7\nnets 4\nweight 7\nblocks 2\nlimit 4\ncost 10\nload 0 4".as_slice(),
        ),
    ] {
        let mut sink = MemSink::of(rt.alloc(), 200, vec![in rt.alloc(); call]?, 30)?;
        assert!(rt; put_evaluation(&mut sink, &h, 2, 0, blocks.slice()).is_err());
        assert_eq!(rt; sink.got(), got);
        assert_eq!(rt; sink.faults(), 1);
    }
    Ok(())
}

#[test]
fn summaries(rt: HostRuntime) -> Result<(), Fail> {
    let h = read_hypergraph(rt.alloc(), b"4 4\n1 2 4\n1 2 3\n3 4\n1 4\n")?;
    assert!(rt; h.fixed_within(2));
    let blocks = greedy(rt.alloc(), &h, 2, 2)?;
    let mut sink = MemSink::of(rt.alloc(), 200, Vec::new(rt.alloc()), 200)?;
    put_summary(&mut sink, &h, 2, 2, cost_of(&h, blocks.slice(), 2))?;
    assert_eq!(rt;
        sink.got(),
        b"vertices 4\nnets 4\nblocks 2\nlimit 2\ngreedy 4\nfits yes\n\
settled yes\nabove greedy no\ngains exact yes\n"
            .as_slice()
    );
    Ok(())
}

/// A round of two moves, the first of which was kept, with two gains.
fn round(alloc: Global, kind: Kind) -> Result<LoggedRound, NoMemory> {
    let mut moves = Moves::new(alloc);
    let mut gains = Gains::new(alloc);
    for (vertex, booked) in [(0, 3), (2, -2)] {
        moves.push(Move {
            vertex,
            from: 0,
            to: 1,
            worker: vertex / 2,
            booked,
        })?;
        gains.push(booked)?;
    }
    Ok(LoggedRound {
        kind,
        level: 0,
        moves,
        kept: 1,
        gains,
        before: 9,
        made: 8,
        after: 6,
        first: 0,
        second: 1,
        region: Verts::new(alloc),
        value: 1,
        tabled: false,
    })
}

/// A trace of one level with rounds of these kinds.
fn trace(alloc: Global, first: Blocks, kinds: &[Kind], chosen: Chosen) -> Result<Trace, NoMemory>
    ensures maps { IfOk result (λ t. t.maps ≡ []) }
    ensures start { IfOk result (λ t. t.start ≡ 0) }
    ensures first { IfOk result (λ t. t.first ≡ first) }
{
    let mut rounds = RoundList::new(alloc);
    for kind in kinds {
        rounds.push(round(alloc, *kind)?)?;
    }
    Ok(Trace {
        maps: MapStack::new(alloc),
        stop: Stop::Small,
        start: 0,
        last: first.copy()?,
        first,
        rounds,
        chosen,
    })
}

/// A cycle with rounds of these kinds, where there are any.
fn cycles_of(alloc: Global, first: Blocks, kinds: &[Kind]) -> Result<TraceList, NoMemory>
    ensures { IfOk result (All (λ t. (t.maps ≡ []) × ((t.start ≡ 0) × (t.first ≡ first)))) }
{
    let mut cycles = TraceList::new(alloc);
    if kinds.is_empty() {
        return Ok(cycles);
    }
    cycles.push(trace(alloc, first, kinds, Chosen::Levels)?)?;
    Ok(cycles)
}

/// Reports a run that began and ended with the partition that a text spells, with no part of the share to
/// spare, and with a cycle where rounds of it are named. Answers whether the sink got it all.
fn report<H: Threads + Sync>(
    rt: &H,
    alloc: Global,
    sink: &mut MemSink,
    graph: &[u8],
    part: &[u8],
    k: u32,
    kinds: &[Kind],
    cycle: &[Kind],
) -> Result<bool, Fail>
    requires graph { length graph.now ≤ 100 }
    requires part { length part.now ≤ 100 }
    requires least_k { 2 ≤ k }
    requires most_k { k ≤ 256 }
{
    let h = Hypergraph::build(alloc, read_hypergraph(alloc, graph)?)?;
    let job = Job {
        k,
        eps: 0,
        seed: 1,
        workers: 4,
    };
    let _vertices = h.vertices();
    if !h.fixed_within(k) {
        return Err("fixed".into());
    }
    let placed = greedy(alloc, h.flat(), k, 1_000)?;
    let blocks = read_part(alloc, part, h.vertices(), k)?;
    let cycles = cycles_of(alloc, blocks.copy()?, cycle)?;
    let main = trace(alloc, blocks.copy()?, kinds, Chosen::Greedy)?;
    let cost = cost_of(h.flat(), placed.slice(), k);
    Ok(put_report(rt, sink, &h, &job, cost, &main, &cycles, blocks.slice()).is_ok())
}

#[test]
fn reports(rt: HostRuntime) -> Result<(), Fail> {
    let refined = [Kind::Label, Kind::Search, Kind::Flow, Kind::Sweep].as_slice();
    let swept = [Kind::Sweep].as_slice();
    let none = [].as_slice();
    for (graph, part, k, kinds, cycle, text) in [
        (
            b"0 0\n".as_slice(),
            b"".as_slice(),
            2,
            none,
            none,
            b"vertices 0\nnets 0\nweight 0\nblocks 2\nlimit 0\nseed 1\nworkers 4\ngreedy 0\nlevels 1\n\
start 0\nfirst 0\n\
chosen greedy\ncost 0\nload 0 0\nload 1 0\n"
                .as_slice(),
        ),
        (
            b"1 2\n1 2\n".as_slice(),
            b"0\n1\n".as_slice(),
            4,
            refined,
            swept,
            b"vertices 2\nnets 1\nweight 2\nblocks 4\nlimit 1\nseed 1\nworkers 4\ngreedy 1\nlevels 1\n\
start 0\nfirst 1\n\
round 0 label moves 2 kept 1 before 9 made 8 after 6 gains 3 -2\n\
round 0 search moves 2 kept 1 before 9 made 8 after 6 gains 3 -2\n\
round 0 flow 0 1 region 0 value 1 before 9 after 6\n\
chosen greedy\n\
round 0 sweep moves 2 kept 1 before 9 made 8 after 6 gains 3 -2\n\
cycle 1 levels 1 before 1 after 6\n\
round 0 sweep moves 2 kept 1 before 9 made 8 after 6 gains 3 -2\n\
cost 1\nload 0 1\nload 1 1\nload 2 0\nload 3 0\n"
                .as_slice(),
        ),
    ] {
        assert!(rt; graph.len() <= 100);
        assert!(rt; part.len() <= 100);
        assert!(rt; k >= 2);
        assert!(rt; k <= 256);
        let mut sink = MemSink::of(rt.alloc(), 1_000, Vec::new(rt.alloc()), 1_000)?;
        assert!(rt; report(&rt, rt.alloc(), &mut sink, graph, part, k, kinds, cycle)?);
        assert_eq!(rt; sink.got(), text);
    }
    Ok(())
}

#[test]
fn cut_reports(rt: HostRuntime) -> Result<(), Fail> {
    for (call, got) in [
        (1, b"".as_slice()),
        (
            3,
            b"vertices 2\nnets 1\nweight 2\nblocks 4\nlimit 1\nseed 1\nworkers 4\ng".as_slice(),
        ),
    ] {
        let mut sink = MemSink::of(rt.alloc(), 1_000, vec![in rt.alloc(); call]?, 31)?;
        let kinds = [Kind::Flow];
        assert!(rt;
            !report(
                &rt,
                rt.alloc(),
                &mut sink,
                b"1 2\n1 2\n",
                b"0\n1\n",
                4,
                &kinds,
                &[]
            )?
        );
        assert_eq!(rt; sink.got(), got);
        assert_eq!(rt; sink.faults(), 1);
    }
    Ok(())
}
