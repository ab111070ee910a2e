//! The cut that a maximum flow fills.

ghost use Rattle.std.specs.Prelude.{◌≡◌, ◌≢◌, ℕ, ◌+◌, ◌*◌, ◌^◌, ◌<◌, ◌≤◌, length, slice_index, nat_eq, nat_lt, true, false};
ghost use Rattle.flow_net.specs.Flow.{is_in, leaving, entering};
ghost use Rattle.flow_net.specs.Residual.{IsClosed, IsShut};

use crate::levels::search;
use crate::network::Arc;
use crate::residual::{Halves, turn};
use hg_base::Flags;

/// The two extreme cuts that a maximum flow fills: the sides of the source, as a flag for each node, and the
/// capacity of the arcs that leave either.
#[derive(Debug, Drop)]
pub struct Cut {
    pub value: u128,
    /// The side in the cut nearest to the sink: the nodes from which no more could flow to the sink.
    pub side: Flags,
    /// The side in the cut nearest to the source: the nodes to which more could flow from the source.
    pub near: Flags,
}

/// Flags the nodes without a level.
pub(crate) fn flag_unreached(levels: &[u32], side: &mut [bool])
    requires { length side.old ≡ length levels.now }
    ensures { (v : ℕ) → v < length side.new → is_in side.new v ≡ nat_eq (slice_index levels.now v) 0 }
{
    for node in 0..levels.len() {
        side[node] = levels[node] == 0;
    }
}

/// Flags the nodes with a level.
fn flag_reached(levels: &[u32], near: &mut [bool])
    requires { length near.old ≡ length levels.now }
    ensures { (v : ℕ) → v < length near.new → is_in near.new v ≡ nat_lt 0 (slice_index levels.now v) }
{
    for node in 0..levels.len() {
        near[node] = levels[node] > 0;
    }
}

/// Flags the nodes that the source reaches over halves with a rest, where the sink, which has a level, isn't
/// among them. They are those from which the search finds the source in the network turned round, and the
/// rests are left so.
pub(crate) fn flag_near(
    halves: Halves<'_>,
    rests: &mut [u64],
    levels: &mut [u32],
    ways: &mut [u32],
    queue: &mut [u32],
    near: &mut [bool],
)
    requires rests { length rests.old ≡ length halves.heads.now }
    requires levels { length levels.old ≡ length halves.firsts.now }
    requires ways { length ways.old ≡ length levels.old }
    requires queue { length queue.old ≡ length levels.old }
    requires near { length near.old ≡ length levels.old }
    requires source { slice_index levels.old halves.source ≡ 0 }
    requires sink { 0 < slice_index levels.old halves.sink }
    requires closed { IsClosed halves.heads.now rests.old levels.old }
    ensures source { is_in near.new halves.entry.source ≡ true }
    ensures sink { is_in near.new halves.entry.sink ≡ false }
    ensures shut { IsShut halves.entry.heads.now rests.old near.new }
{
    turn(rests);
    let turned = Halves {
        heads: halves.heads,
        nexts: halves.nexts,
        firsts: halves.firsts,
        source: halves.sink,
        sink: halves.source,
    };
    search(turned, rests, levels, ways, queue);
    flag_reached(levels, near);
}

/// Writes the flow on each arc: the rest of the half against it.
pub(crate) fn write_flows(rests: &[u64], flows: &mut [u64])
    requires few { length flows.old ≤ 2 ^ 28 }
    requires rests { length rests.now ≡ 2 * length flows.old }
    ensures { (i : ℕ) → i < length flows.new → slice_index flows.new i ≡ slice_index rests.now (2 * i + 1) }
{
    for i in 0..flows.len() {
        flows[i] = rests[2 * i + 1];
    }
}

/// How much more flow leaves a node than enters it.
pub(crate) fn flow_from(arcs: &[Arc], flows: &[u64], node: u32) -> u128
    requires few { length arcs.now ≤ 2 ^ 28 }
    requires flows { length flows.now ≡ length arcs.now }
    requires more { entering arcs.now flows.now node ≤ leaving arcs.now flows.now node }
    ensures { leaving arcs.now flows.now node ≡ entering arcs.now flows.now node + result }
{
    let mut left = 0;
    let mut entered = 0;
    for i in 0..arcs.len() {
        let flow = u128::from(flows[i]);
        if arcs[i].from == node {
            left += flow;
        }
        if arcs[i].to == node {
            entered += flow;
        }
    }
    left - entered
}
