ghost use Rattle.std.specs.Prelude.{◌≡◌, ◌+◌, ◌*◌, ◌<◌, ◌≤◌, ◌^◌, ℕ, IfOk, length, map, slice_index, replicate, true};
ghost use Rattle.std.specs.List.{range_with_len, flat_map};
ghost use Rattle.hg_defs.specs.Hypergraph.{vertices, net_count, net_of, IsFixedWithin};
ghost use Rattle.hg_defs.specs.Pins.{pins_in};
ghost use Rattle.hg_defs.specs.Partition.{load, IsPartition, Fits};
ghost use Rattle.hg_defs.specs.Incidence.{nets_of};
ghost use Rattle.move_core.specs.State.{opened, present_below, count_place, blank, setup_of};
ghost use Rattle.move_core.specs.Balance.{IsSetup, IsBooks};

use crate::books::Books;
use crate::ledger::Ledger;
use crate::pass::Pass;
use hg_base::{FlatHyper, NoMemory, Verts};
use std::alloc::Global;
use std::snapshot::Snapshot;

/// The nets of each vertex, in rising number.
fn index_of(alloc: Global, h: &FlatHyper) -> Result<Vec<Verts>, NoMemory>
    ensures { IfOk result (λ index. index.items ≡ map (nets_of h.now) (vertices h.now)) }
{
    let mut index = Vec::with_capacity(alloc, h.vertices() as usize)?;
    for _ in 0..h.vertices() {
        index.push(Verts::new(alloc))?;
    }
    for e in 0..h.nets() {
        for v in h.pins(e) {
            index[*v as usize].push(e)?;
        }
    }
    Ok(index)
}

/// The load of each block.
pub(crate) fn loads_of(
    alloc: Global,
    h: &FlatHyper,
    p: &[u32],
    k: u32,
) -> Result<Vec<u64>, NoMemory>
    requires { IsPartition h.now k p.now }
    ensures { IfOk result (λ loads. loads.items ≡ map (load h.now p.now) (range_with_len 0 k)) }
{
    let mut loads = vec![in alloc; 0u64; k as usize]?;
    for v in 0..h.vertices() {
        loads[p[v as usize] as usize] += h.vertex_weight(v);
    }
    Ok(loads)
}

/// For each net, its number of pins in each block.
fn counts_of(alloc: Global, h: &FlatHyper, p: &[u32], k: u32) -> Result<Vec<u64>, NoMemory>
    requires { IsPartition h.now k p.now }
    ensures { IfOk result (λ counts. counts.items ≡ flat_map (λ e. map (pins_in p.now (net_of h.now e).pins)
        (range_with_len 0 k)) (range_with_len 0 (net_count h.now))) }
{
    let mut counts = vec![in alloc; 0u64; h.nets() as usize * k as usize]?;
    for e in 0..h.nets() {
        let row = e as usize * k as usize;
        for v in h.pins(e) {
            counts[row + p[*v as usize] as usize] += 1;
        }
    }
    Ok(counts)
}

/// For each net, 64 more than its number of blocks with pins, read off the counts.
fn spreads_of(alloc: Global, nets: u32, k: u32, counts: &[u64]) -> Result<Vec<u64>, NoMemory>
    requires { length counts.now ≡ nets * k }
    ensures { IfOk result (λ spreads. spreads.items ≡ map
        (λ e. 64 + present_below (λ b. slice_index counts.now (count_place k e b)) k) (range_with_len 0 nets)) }
{
    let mut spreads = Vec::with_capacity(alloc, nets as usize)?;
    for e in 0..nets {
        let row = e as usize * k as usize;
        let mut spread = 64u64;
        for b in 0..k {
            if counts[row + b as usize] > 0 {
                spread += 1;
            }
        }
        spreads.push(spread)?;
    }
    Ok(spreads)
}

/// So many passes that have nothing.
fn blank_passes(alloc: Global, passes: u32) -> Result<Vec<Pass>, NoMemory>
    ensures { IfOk result (λ made. made.items ≡ replicate passes (blank true)) }
{
    let mut made = Vec::with_capacity(alloc, passes as usize)?;
    for _ in 0..passes {
        made.push(Pass::blank(alloc, true))?;
    }
    Ok(made)
}

impl Ledger {
    /// Opens the ledger of a round.
    fn open(
        alloc: Global,
        h: &FlatHyper,
        p: &[u32],
        k: u32,
        limit: u64,
        passes: u32,
    ) -> Result<Self, NoMemory>
        requires partition { IsPartition h.now k p.now }
        requires fits { Fits h.now k limit p.now }
        ensures state { IfOk result (λ ledger. ledger ≡ opened (setup_of h.now k limit p.now) passes) }
        ensures setup { IfOk result (λ ledger. IsSetup ledger.setup) }
    {
        let index = index_of(alloc, h)?;
        let loads = loads_of(alloc, h, p, k)?;
        let counts = counts_of(alloc, h, p, k)?;
        let spreads = spreads_of(alloc, h.nets(), k, &counts)?;
        Ok(Ledger {
            alloc,
            graph: Snapshot::of(h),
            blocks: k,
            limit,
            opening: Vec::from_slice(alloc, p)?,
            index,
            claims: vec![in alloc; 0u64; h.vertices() as usize]?,
            names: Vec::from_slice(alloc, p)?,
            loads,
            counts,
            spreads,
            next: 0,
            cursor: 0,
            passes: blank_passes(alloc, passes)?,
        })
    }
}

impl Books {
    /// Opens the books of a round over a hypergraph and a partition of it into `k` blocks: nothing
    /// is claimed, and there are the passes 0 to `passes` - 1, 1 to 64 of them, which have nothing.
    ///
    /// The partition must fit the limit, and each fix must be free or below `k`.
    pub fn open(
        alloc: Global,
        h: &FlatHyper,
        p: &[u32],
        k: u32,
        limit: u64,
        passes: u32,
    ) -> Result<Self, NoMemory>
        requires partition { IsPartition h.now k p.now }
        requires fits { Fits h.now k limit p.now }
        requires fixed { IsFixedWithin h.now k }
        requires some { 1 ≤ passes }
        requires few { passes ≤ 64 }
        ensures state { IfOk result (λ books. books ≡ opened (setup_of h.now k limit p.now) passes) }
        ensures balance { IfOk result (λ books. IsBooks books) }
    {
        Ok(Books {
            ledger: Ledger::open(alloc, h, p, k, limit, passes)?,
        })
    }
}
