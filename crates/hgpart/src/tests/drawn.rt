//! Runs over drawn hypergraphs, whose partitions are read back and counted anew by plain code.

ghost use Rattle.std.specs.Prelude.{◌≡◌, ◌≢◌, ◌<◌, ◌^◌, All, AllPairs, map};

use super::{Ran, run_over};
use crew::OpenGate;
use flow_round::FlowRound;
use fm_search::FmSearch;
use hg_defs::Objective;
use label_prop::LabelProp;
use part_run::Status;
use rand_core::utils::NextWord;
use rand_pcg::Lcg64Xsh32;
use refiner::Refiner;
use std::alloc::{AllocError, Global};
use std::fmt::Write;
use std::test::Fail;
use std::thread::Threads;

/// How many runs there are.
const RUNS: u64 = 400;

/// The greatest weight of a vertex.
const HEAVIEST: u64 = 4;

/// Imbalances, as they are spelled and in thousandths.
const IMBALANCES: [(&str, u64); 4] = [("0", 0), ("0.05", 50), ("0.2", 200), ("0.334", 334)];

/// The costs, as they are spelled.
const COSTS: [(&str, Objective); 3] = [
    ("km1", Objective::Connectivity),
    ("cut", Objective::CutNet),
    ("soed", Objective::ExternalDegree),
];

/// A net. A pin may stand in it twice.
#[derive(Drop)]
struct Net {
    weight: u64,
    pins: Vec<u32>,
}

/// A hypergraph, and what is asked of a run over it.
#[derive(Drop)]
struct Drawn {
    /// The weight of each vertex.
    weights: Vec<u64>,
    /// The block that each vertex is fixed to, if it is.
    fixes: Vec<Option<u32>>,
    nets: Vec<Net>,
    /// How many blocks there are.
    k: u32,
    imbalance: (&'static str, u64),
    cost: (&'static str, Objective),
    seed: u32,
    workers: u32,
    cycles: u32,
}

/// Draws a number below `bound`.
fn below(draws: &mut Lcg64Xsh32, bound: u32) -> u32
    requires { 0 < bound }
    ensures { result < bound }
{
    draws.next_word() % bound
}

/// Draws a net of one to five pins.
fn draw_net(draws: &mut Lcg64Xsh32, alloc: Global, vertices: u32) -> Result<Net, AllocError>
    requires { 0 < vertices }
{
    let mut pins = Vec::new(alloc);
    for _ in 0..=below(draws, 5) {
        pins.push(below(draws, vertices))?;
    }
    Ok(Net {
        weight: u64::from(below(draws, 9)),
        pins,
    })
}

/// Draws a block for one of eight vertices.
fn draw_fix(draws: &mut Lcg64Xsh32, k: u32) -> Option<u32>
    requires { 0 < k }
{
    match below(draws, 8) {
        0 => Some(below(draws, k)),
        _ => None,
    }
}

/// Draws a hypergraph of 6 to 60 vertices, and what is asked of its run.
fn draw(alloc: Global, run: u64) -> Result<Drawn, AllocError> {
    let mut draws = Lcg64Xsh32::new(run, 1);
    let vertices = 6 + below(&mut draws, 55);
    let k = 2 + below(&mut draws, 4);
    let has_fixes = below(&mut draws, 3) == 0;
    let mut weights = Vec::new(alloc);
    let mut fixes = Vec::new(alloc);
    for _ in 0..vertices {
        weights.push(1 + u64::from(below(&mut draws, HEAVIEST as u32)))?;
        fixes.push(if has_fixes {
            draw_fix(&mut draws, k)
        } else {
            None
        })?;
    }
    let mut nets = Vec::new(alloc);
    for _ in 0..vertices + below(&mut draws, 40) {
        nets.push(draw_net(&mut draws, alloc, vertices)?)?;
    }
    Ok(Drawn {
        weights,
        fixes,
        nets,
        k,
        imbalance: IMBALANCES[below(&mut draws, 4) as usize],
        cost: COSTS[below(&mut draws, 3) as usize],
        seed: draws.next_word(),
        workers: 1 + below(&mut draws, 8),
        cycles: below(&mut draws, 2),
    })
}

/// The words of a run.
fn words(alloc: Global, drawn: &Drawn) -> Result<String, AllocError> {
    let mut text = format!(in alloc; "partition g {} {} fix=f", drawn.k, drawn.imbalance.0)?;
    write!(text, " cost={} seed={}", drawn.cost.0, drawn.seed)?;
    write!(text, " workers={} cycles={}", drawn.workers, drawn.cycles)?;
    Ok(text)
}

/// The file of a hypergraph.
fn graph_text(alloc: Global, drawn: &Drawn) -> Result<String, AllocError> {
    let mut text = format!(in alloc; "{} {} 11\n", drawn.nets.len(), drawn.weights.len())?;
    for net in &drawn.nets {
        write!(text, "{}", net.weight)?;
        for pin in &net.pins {
            write!(text, " {}", u64::from(*pin) + 1)?;
        }
        text.push('\n')?;
    }
    for weight in &drawn.weights {
        write!(text, "{weight}\n")?;
    }
    Ok(text)
}

/// The fix file.
fn fix_text(alloc: Global, drawn: &Drawn) -> Result<String, AllocError> {
    let mut text = String::new(alloc);
    for fix in &drawn.fixes {
        match fix {
            Some(block) => write!(text, "{block}\n")?,
            None => text.push_str("-1\n")?,
        }
    }
    Ok(text)
}

/// The block of each vertex, as they were written.
fn blocks_of(alloc: Global, out: &[u8]) -> Result<Vec<u32>, Fail> {
    let mut blocks = Vec::new(alloc);
    for line in str::from_utf8(out)?.lines() {
        blocks.push(line.parse::<u32>()?)?;
    }
    Ok(blocks)
}

/// In how many blocks a net has pins.
fn spread(drawn: &Drawn, net: &Net, blocks: &[u32]) -> u64 {
    let has_pin = |block: &u32| {
        net.pins
            .iter()
            .any(|v| blocks.get(*v as usize) == Some(block))
    };
    (0..drawn.k).filter(has_pin).count() as u64
}

/// What a net of weight 1 in so many blocks pays.
fn price(objective: Objective, spread: u64) -> u64 {
    match objective {
        _ if spread <= 1 => 0,
        Objective::Connectivity => spread - 1,
        Objective::CutNet => 1,
        Objective::ExternalDegree => spread,
    }
}

/// The cost of a partition, net by net.
fn cost_of(drawn: &Drawn, blocks: &[u32]) -> u64 {
    let mut cost = 0u64;
    for net in &drawn.nets {
        let price = price(drawn.cost.1, spread(drawn, net, blocks));
        cost = cost.saturating_add(price.saturating_mul(net.weight));
    }
    cost
}

/// The load of a block.
fn load_of(drawn: &Drawn, blocks: &[u32], block: u32) -> u64 {
    let mut load = 0u64;
    for (weight, own) in drawn.weights.iter().zip(blocks) {
        if *own == block {
            load = load.saturating_add(*weight);
        }
    }
    load
}

/// The weight of all vertices.
fn total(drawn: &Drawn) -> u64 {
    let mut total = 0u64;
    for weight in &drawn.weights {
        total = total.saturating_add(*weight);
    }
    total
}

/// The most that a block may weigh.
fn limit_of(drawn: &Drawn) -> u64 {
    let share = total(drawn).div_ceil(u64::from(drawn.k.max(1)));
    share.saturating_mul(drawn.imbalance.1.saturating_add(1000)) / 1000
}

/// The first of the blocks of least load.
fn lightest(drawn: &Drawn, blocks: &[u32]) -> u32 {
    let mut best = 0;
    for block in 1..drawn.k {
        if load_of(drawn, blocks, block) < load_of(drawn, blocks, best) {
            best = block;
        }
    }
    best
}

/// Puts a vertex into a block, and tells whether that is within the limit.
fn put(drawn: &Drawn, blocks: &mut [u32], vertex: usize, block: u32) -> bool {
    if let Some(own) = blocks.get_mut(vertex) {
        *own = block;
    }
    load_of(drawn, blocks, block) <= limit_of(drawn)
}

/// Greedy placement: the fixed vertices, and then the free ones by falling weight, each into the lightest block.
/// There is none where a block becomes too heavy.
fn greedy(alloc: Global, drawn: &Drawn) -> Result<Option<Vec<u32>>, AllocError> {
    let mut blocks = vec![in alloc; drawn.k; drawn.weights.len()]?;
    for (v, fix) in drawn.fixes.iter().enumerate() {
        if let Some(block) = fix {
            if !put(drawn, &mut blocks, v, *block) {
                return Ok(None);
            }
        }
    }
    for lighter in 0..HEAVIEST {
        for (v, (weight, fix)) in drawn.weights.iter().zip(&drawn.fixes).enumerate() {
            if fix.is_none() && *weight == HEAVIEST - lighter {
                let block = lightest(drawn, &blocks);
                if !put(drawn, &mut blocks, v, block) {
                    return Ok(None);
                }
            }
        }
    }
    Ok(Some(blocks))
}

/// Whether there is one block for each vertex, where it is fixed, and none is too heavy.
fn is_within(drawn: &Drawn, blocks: &[u32]) -> bool {
    let limit = limit_of(drawn);
    blocks.len() == drawn.weights.len()
        && blocks.iter().all(|block| *block < drawn.k)
        && drawn
            .fixes
            .iter()
            .zip(blocks)
            .all(|(fix, block)| fix.unwrap_or(*block) == *block)
        && (0..drawn.k).all(|block| load_of(drawn, blocks, block) <= limit)
}

/// Whether a vertex has an allowed move that makes the partition cheaper.
fn can_save(
    alloc: Global,
    drawn: &Drawn,
    blocks: &[u32],
    vertex: usize,
) -> Result<bool, AllocError> {
    let cost = cost_of(drawn, blocks);
    for block in 0..drawn.k {
        let mut moved = blocks.to_vec(alloc)?;
        if put(drawn, &mut moved, vertex, block) && cost_of(drawn, &moved) < cost {
            return Ok(true);
        }
    }
    Ok(false)
}

/// Whether no free vertex has an allowed move that makes the partition cheaper.
fn is_settled(alloc: Global, drawn: &Drawn, blocks: &[u32]) -> Result<bool, AllocError> {
    for (v, fix) in drawn.fixes.iter().enumerate() {
        if fix.is_none() && can_save(alloc, drawn, blocks, v)? {
            return Ok(false);
        }
    }
    Ok(true)
}

/// The first lines of the report.
fn head(alloc: Global, drawn: &Drawn, greedy: u64) -> Result<String, AllocError> {
    let mut text = format!(in alloc;
        "vertices {}\nnets {}\nweight {}\nblocks {}\nlimit {}\nseed {}\nworkers {}\n",
        drawn.weights.len(),
        drawn.nets.len(),
        total(drawn),
        drawn.k,
        limit_of(drawn),
        drawn.seed,
        drawn.workers
    )?;
    if drawn.cost.1 != Objective::Connectivity {
        write!(text, "objective {}\n", drawn.cost.0)?;
    }
    write!(text, "greedy {greedy}\n")?;
    Ok(text)
}

/// The last lines of the report.
fn tail(alloc: Global, drawn: &Drawn, blocks: &[u32]) -> Result<String, AllocError> {
    let mut text = format!(in alloc; "\ncost {}\n", cost_of(drawn, blocks))?;
    for block in 0..drawn.k {
        write!(text, "load {block} {}\n", load_of(drawn, blocks, block))?;
    }
    Ok(text)
}

/// Whether a run that is done wrote a partition that is within the limit, settled and no dearer than greedy
/// placement, and reported the cost and the loads of both.
fn is_right(alloc: Global, drawn: &Drawn, ran: &Ran, greedy: &[u32]) -> Result<bool, Fail> {
    let blocks = blocks_of(alloc, &ran.out)?;
    let bound = cost_of(drawn, greedy);
    Ok(
        ran.ended.status == Status::Done
            && is_within(drawn, &blocks)
            && cost_of(drawn, &blocks) <= bound
            && is_settled(alloc, drawn, &blocks)?
            && ran
                .report
                .starts_with(head(alloc, drawn, bound)?.as_bytes())
            && ran
                .report
                .ends_with(tail(alloc, drawn, &blocks)?.as_bytes()),
    )
}

/// Whether a drawn run is refused where greedy placement passes the limit, and otherwise done and right.
fn ends_well<H: Threads + Sync>(
    rt: &H,
    alloc: Global,
    run: u64,
    refiners: &mut [Box<dyn Refiner>],
) -> Result<bool, Fail>
    requires may_run { All (λ b. may_run b) refiners.old }
    requires kinds { AllPairs (λ a b. a ≢ b) (map (λ b. kind b) refiners.old) }
    requires tallied { All (λ b. ((tally b).rounds < 2 ^ 59) × ((tally b).gain < 2 ^ 59)) refiners.old }
{
    let drawn = &draw(alloc, run)?;
    let words = words(alloc, drawn)?;
    let graph = graph_text(alloc, drawn)?;
    let fixes = fix_text(alloc, drawn)?;
    let ran = run_over(
        rt,
        alloc,
        &words,
        graph.as_bytes(),
        fixes.as_bytes(),
        refiners,
    )?;
    match greedy(alloc, drawn)? {
        Some(greedy) => is_right(alloc, drawn, &ran, &greedy),
        None => Ok(matches!(ran.ended.status, Status::Unplaced { .. })),
    }
}

#[test]
fn partitions_are_counted_anew(rt: HostRuntime) -> Result<(), Fail> {
    for run in 0..RUNS {
        let mut refiners: [Box<dyn Refiner>; 3] = [
            Box::new(rt.alloc(), LabelProp::new(rt, OpenGate))?,
            Box::new(rt.alloc(), FmSearch::new(rt, OpenGate))?,
            Box::new(rt.alloc(), FlowRound::new(rt, OpenGate))?,
        ];
        assert!(rt;
            ends_well(&rt, rt.alloc(), run, &mut refiners)?,
            "run {run}"
        );
    }
    Ok(())
}
