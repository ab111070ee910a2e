ghost use Rattle.std.specs.Prelude.{◌≡◌, ◌<◌, ◌≤◌, ◌^◌, ℕ, OnOk, IfOk, IfErr, true, false, length, map, replicate};
ghost use Rattle.std.specs.List.{range_with_len};
ghost use Rattle.hg_defs.specs.Hypergraph.{vertex_count};
ghost use Rattle.cluster_core.specs.State.{opened, setup_of, blank};
ghost use Rattle.cluster_core.specs.Balance.{IsClusterState};
ghost use Rattle.cluster_core.specs.Run.{run_of, all_enabled, IsStoppedBy};

use crate::events::ClusterEvent;
use crate::marks::Marks;
use crate::pass::Pass;
use hg_base::{FlatHyper, NoMemory};
use std::alloc::Global;

/// Why a list of events did not run to its end.
#[derive(Clone, Copy, Debug, PartialEq, Eq)]
pub enum RunEnd {
    /// The event at this place, counted from 0, was the first that was not enabled at its turn.
    NotEnabled { at: u32 },
    /// There was no memory.
    NoMemory,
}

impl From<NoMemory> for RunEnd {
    ghost use Rattle.cluster_core.specs.declared.runs.RunEnd.TheVariants.{NoMemory as no_memory};

    ghost from_gives = { λ _ end. end ≡ no_memory };

    fn from(_error: NoMemory) -> Self {
        RunEnd::NoMemory
    }
}

/// The weight of each vertex.
fn weights_of(alloc: Global, h: &FlatHyper) -> Result<Vec<u64>, NoMemory>
    ensures { IfOk result (λ weights. weights.items ≡ h.now.weights) }
{
    let mut weights = Vec::with_capacity(alloc, h.vertices() as usize)?;
    for v in 0..h.vertices() {
        weights.push(h.vertex_weight(v))?;
    }
    Ok(weights)
}

/// So many passes that have nothing.
fn blank_passes(alloc: Global, passes: u32) -> Result<Vec<Pass>, NoMemory>
    ensures { IfOk result (λ made. made.items ≡ replicate passes (blank true)) }
{
    let mut made = Vec::with_capacity(alloc, passes as usize)?;
    for _ in 0..passes {
        made.push(Pass::blank(alloc, true))?;
    }
    Ok(made)
}

impl Marks {
    /// Nothing is taken, and there are so many passes that have nothing.
    fn open(alloc: Global, h: &FlatHyper, _cap: u64, passes: u32) -> Result<Self, NoMemory>
        requires vertex { 0 < vertex_count h.now }
        requires few { passes ≤ 64 }
        ensures state { IfOk result (λ marks. marks ≡ opened (setup_of h.now _cap) passes) }
        ensures balance { IfOk result (λ marks. IsClusterState (setup_of h.now _cap) marks) }
    {
        Ok(Marks {
            alloc,
            marks: vec![in alloc; 0u32; h.vertices() as usize]?,
            masses: weights_of(alloc, h)?,
            passes: blank_passes(alloc, passes)?,
        })
    }

    /// Makes the events, one after the other, up to the first that is not enabled at its turn.
    fn make(&mut self, h: &FlatHyper, cap: u64, events: &[ClusterEvent]) -> Result<(), RunEnd>
        requires balance { IsClusterState (setup_of h.now cap) self.old }
        requires events { length events.now < 2 ^ 32 }
        ensures enabled { OnOk result (all_enabled (setup_of h.now cap) self.old events.now ≡ true) }
        ensures state { OnOk result (self.new ≡ run_of (setup_of h.now cap) self.old events.now) }
        ensures balance { OnOk result (IsClusterState (setup_of h.now cap) self.new) }
        ensures refused { IfErr result (IsStoppedBy (setup_of h.now cap) self.old events.now) }
    {
        let mut at = 0;
        for event in events {
            if !self.enabled(h, cap, *event) {
                return Err(RunEnd::NotEnabled { at });
            }
            match self.step(h, cap, *event) {
                Ok(_found) => at += 1,
                Err(NoMemory) => return Err(RunEnd::NoMemory),
            }
        }
        Ok(())
    }
}

/// Opens a clustering and makes the events, one after the other, up to the first that is not enabled
/// at its turn.
///
/// The hypergraph has a vertex, and there are 1 to 64 passes. A cluster of several vertices may weigh
/// at most `cap`.
pub fn run(
    alloc: Global,
    h: &FlatHyper,
    cap: u64,
    passes: u32,
    events: &[ClusterEvent],
) -> Result<Marks, RunEnd>
    requires vertex { 0 < vertex_count h.now }
    requires some { 1 ≤ passes }
    requires few { passes ≤ 64 }
    requires events { length events.now < 2 ^ 32 }
    ensures enabled { OnOk result (all_enabled (setup_of h.now cap) (opened (setup_of h.now cap) passes) events.now ≡
        true) }
    ensures state { IfOk result (λ marks. marks ≡ run_of (setup_of h.now cap) (opened (setup_of h.now cap) passes)
        events.now) }
    ensures balance { IfOk result (λ marks. IsClusterState (setup_of h.now cap) marks) }
    ensures refused { IfErr result (IsStoppedBy (setup_of h.now cap) (opened (setup_of h.now cap) passes) events.now) }
{
    match Marks::open(alloc, h, cap, passes) {
        Ok(mut marks) => match marks.make(h, cap, events) {
            Ok(()) => Ok(marks),
            Err(end) => Err(end),
        },
        Err(NoMemory) => Err(RunEnd::NoMemory),
    }
}
