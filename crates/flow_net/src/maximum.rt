//! The maximum flow, by blocking flows along shortest ways (Dinic's algorithm).

ghost use Rattle.std.specs.Prelude.{◌≡◌, ◌≢◌, ℕ, ◌+◌, ◌-◌, ◌*◌, ◌^◌, ◌<◌, ◌≤◌, length};
ghost use Rattle.std.specs.Prelude.{slice_index, IfOk, OnOk, OnErr};
ghost use Rattle.flow_net.specs.Flow.{IsNetwork, IsFlow, IsFilledCut};
ghost use Rattle.flow_net.specs.Residual.{IsTree, IsClosed, IsBounded, IsRaised, AreJoined};
ghost use Rattle.flow_net.specs.Ready.{IsReady};

use crate::cut::{Cut, flag_near, flag_unreached, flow_from, write_flows};
use crate::ends::search_both;
use crate::layout::{lay, link};
use crate::network::{Arc, Network};
use crate::paths::{block, least_rest, push};
use crate::residual::{Halves, clear};
use hg_base::{Flags, NoMemory};
use std::alloc::Global;

/// Raises the flow from the source to the sink until it is greatest. Afterwards the nodes with a
/// level are those from which more could flow to the sink.
fn maximize(
    halves: Halves<'_>,
    rests: &mut [u64],
    levels: &mut [u32],
    ways: &mut [u32],
    currents: &mut [u32],
    entries: &mut [u32],
    queue: &mut [u32],
    line: &mut [u32],
)
    requires rests { length rests.old ≡ length halves.heads.now }
    requires levels { length levels.old ≡ length halves.firsts.now }
    requires ways { length ways.old ≡ length levels.old }
    requires currents { length currents.old ≡ length levels.old }
    requires entries { length entries.old ≡ length levels.old }
    requires queue { length queue.old ≡ length levels.old }
    requires line { length line.old ≡ length levels.old }
    requires bounded { IsBounded rests.old }
    ensures raised { IsRaised halves.entry.heads.now halves.entry.source halves.entry.sink 0 rests.old rests.new }
    ensures source { slice_index levels.new halves.entry.source ≡ 0 }
    ensures sink { slice_index levels.new halves.entry.sink ≡ 1 }
    ensures closed { IsClosed halves.entry.heads.now rests.new levels.new }
{
    clear(entries);
    // Nothing that matters stands in the currents then, so they hold the marks.
    while search_both(halves, rests, levels, ways, queue, currents, line) {
        let amount = least_rest(halves, levels, ways, rests);
        push(halves, levels, ways, amount, rests);
        block(halves, levels, ways, currents, entries, rests);
    }
}

/// Memory for computing flows, which may be lent to one computation after the other.
#[derive(Debug, Drop)]
pub struct Workspace {
    heads: Vec<u32>,
    nexts: Vec<u32>,
    firsts: Vec<u32>,
    rests: Vec<u64>,
    levels: Vec<u32>,
    ways: Vec<u32>,
    currents: Vec<u32>,
    entries: Vec<u32>,
    queue: Vec<u32>,
    line: Vec<u32>,
}

/// Makes a list at least so long. What stands in it then doesn't matter.
fn lengthen(list: &mut Vec<u32>, count: usize) -> Result<(), NoMemory>
    ensures { OnOk result (count ≤ length list.new.items) }
{
    if list.len() < count {
        list.resize(count, 0)?;
    }
    Ok(())
}

impl Workspace {
    /// Makes a workspace, which takes no memory yet.
    pub fn new(alloc: Global) -> Self {
        Workspace {
            heads: Vec::new(alloc),
            nexts: Vec::new(alloc),
            firsts: Vec::new(alloc),
            rests: Vec::new(alloc),
            levels: Vec::new(alloc),
            ways: Vec::new(alloc),
            currents: Vec::new(alloc),
            entries: Vec::new(alloc),
            queue: Vec::new(alloc),
            line: Vec::new(alloc),
        }
    }

    /// Takes the memory for a network of so many nodes and halves.
    fn prepare(&mut self, nodes: usize, halves: usize) -> Result<(), NoMemory>
        ensures { OnOk result (IsReady self.new nodes halves) }
    {
        lengthen(&mut self.heads, halves)?;
        lengthen(&mut self.nexts, halves)?;
        lengthen(&mut self.firsts, nodes)?;
        if self.rests.len() < halves {
            self.rests.resize(halves, 0)?;
        }
        lengthen(&mut self.levels, nodes)?;
        lengthen(&mut self.ways, nodes)?;
        lengthen(&mut self.currents, nodes)?;
        lengthen(&mut self.entries, nodes)?;
        lengthen(&mut self.queue, nodes)?;
        lengthen(&mut self.line, nodes)
    }
}

/// Writes a maximum flow and the two extreme sides of the source, and answers the capacity of the arcs that
/// leave either.
fn solve(
    arcs: &[Arc],
    space: &mut Workspace,
    source: u32,
    sink: u32,
    flows: &mut [u64],
    side: &mut [bool],
    near: &mut [bool],
) -> u128
    requires nodes { length side.old ≤ 2 ^ 26 }
    requires few { length arcs.now ≤ 2 ^ 28 }
    requires joined { AreJoined (length side.old) arcs.now }
    requires flows { length flows.old ≡ length arcs.now }
    requires source { source < length side.old }
    requires sink { sink < length side.old }
    requires apart { source ≢ sink }
    requires near { length near.old ≡ length side.old }
    requires ready { IsReady space.old (length side.old) (2 * length arcs.now) }
    ensures flow { IsFlow (record { nodes = length side.old; arcs = arcs.now; flows = flows.new }) source sink }
    ensures cut { IsFilledCut (record { nodes = length side.old; arcs = arcs.now; flows = flows.new }) source sink
        result side.new }
    ensures near { IsFilledCut (record { nodes = length side.old; arcs = arcs.now; flows = flows.new }) source sink
        result near.new }
{
    let nodes = side.len();
    let count = 2 * arcs.len();
    let heads = &mut space.heads.as_mut_slice()[..count];
    let nexts = &mut space.nexts.as_mut_slice()[..count];
    let firsts = &mut space.firsts.as_mut_slice()[..nodes];
    let rests = &mut space.rests.as_mut_slice()[..count];
    let levels = &mut space.levels.as_mut_slice()[..nodes];
    let ways = &mut space.ways.as_mut_slice()[..nodes];
    let queue = &mut space.queue.as_mut_slice()[..nodes];
    lay(arcs, heads, rests);
    link(heads, nexts, firsts);
    let halves = Halves {
        heads,
        nexts,
        firsts,
        source,
        sink,
    };
    maximize(
        halves,
        rests,
        levels,
        ways,
        &mut space.currents.as_mut_slice()[..nodes],
        &mut space.entries.as_mut_slice()[..nodes],
        queue,
        &mut space.line.as_mut_slice()[..nodes],
    );
    flag_unreached(levels, side);
    write_flows(rests, flows);
    flag_near(halves, rests, levels, ways, queue, near);
    flow_from(arcs, flows, source)
}

impl Network {
    /// Computes a maximum flow from one node to another, beginning without flow, and the two extreme cuts
    /// that it fills. Without memory the flows stay as they were.
    pub fn max_flow(&mut self, source: u32, sink: u32) -> Result<Cut, NoMemory>
        requires source { source < self.old.nodes }
        requires sink { sink < self.old.nodes }
        requires apart { source ≢ sink }
        ensures kept { (self.new.nodes ≡ self.old.nodes) × (self.new.arcs ≡ self.old.arcs) }
        ensures sound { IsNetwork self.new }
        ensures flow { OnOk result (IsFlow self.new source sink) }
        ensures cut { IfOk result (λ cut. IsFilledCut self.new source sink cut.value cut.side) }
        ensures near { IfOk result (λ cut. IsFilledCut self.new source sink cut.value cut.near) }
        ensures err { OnErr result (self.new ≡ self.old) }
    {
        let mut space = Workspace::new(*self.arcs.allocator());
        self.max_flow_in(&mut space, source, sink)
    }

    /// The same in the memory of a workspace.
    pub fn max_flow_in(
        &mut self,
        space: &mut Workspace,
        source: u32,
        sink: u32,
    ) -> Result<Cut, NoMemory>
        requires source { source < self.old.nodes }
        requires sink { sink < self.old.nodes }
        requires apart { source ≢ sink }
        ensures kept { (self.new.nodes ≡ self.old.nodes) × (self.new.arcs ≡ self.old.arcs) }
        ensures sound { IsNetwork self.new }
        ensures flow { OnOk result (IsFlow self.new source sink) }
        ensures cut { IfOk result (λ cut. IsFilledCut self.new source sink cut.value cut.side) }
        ensures near { IfOk result (λ cut. IsFilledCut self.new source sink cut.value cut.near) }
        ensures err { OnErr result (self.new ≡ self.old) }
    {
        let nodes = self.nodes as usize;
        space.prepare(nodes, 2 * self.arcs.len())?;
        let mut side = vec![in *self.arcs.allocator(); false; nodes]?;
        let mut near = vec![in *self.arcs.allocator(); false; nodes]?;
        let value = solve(
            self.arcs.as_slice(),
            space,
            source,
            sink,
            self.flows.as_mut_slice(),
            side.as_mut_slice(),
            near.as_mut_slice(),
        );
        Ok(Cut {
            value,
            side: Flags::from_vec(side),
            near: Flags::from_vec(near),
        })
    }
}
