//! A flow network: nodes, arcs with capacities, and a flow for each arc.

ghost use Rattle.std.specs.Prelude.{◌≡◌, ℕ, ◌+◌, ◌^◌, ◌<◌, ◌≤◌, [], ◌∷◌, ◌++◌, length};
ghost use Rattle.std.specs.Prelude.{IfOk, OnOk, OnErr, slice_index};

use hg_base::NoMemory;
use std::alloc::Global;
use std::marker::Model;

/// An arc, by which at most `cap` may flow from node `from` to node `to`.
#[derive(Clone, Copy, Debug, PartialEq, Eq)]
pub struct Arc {
    pub from: u32,
    pub to: u32,
    pub cap: u64,
}

/// A flow network. It has at most 2^26 nodes and 2^28 arcs, of a capacity of at most 2^62 each.
#[derive(Debug, Drop)]
pub struct Network {
    pub(crate) nodes: u32,
    pub(crate) arcs: Vec<Arc>,
    pub(crate) flows: Vec<u64>,
}

impl Model for Network {
    ghost use Rattle.flow_net.specs.Flow.{FlowNetwork, IsNetwork};

    ghost Value = { FlowNetwork };

    ghost view = { λ n. record { nodes = n.nodes; arcs = n.arcs.items; flows = n.flows.items } };

    ghost invariant = { λ n. IsNetwork (record { nodes = n.nodes; arcs = n.arcs.items; flows = n.flows.items }) };
}

impl Network {
    /// Makes a network without arcs.
    pub fn new(alloc: Global, nodes: u32) -> Result<Self, NoMemory>
        requires { nodes ≤ 2 ^ 26 }
        ensures { IfOk result (λ network. network ≡ record { nodes = nodes; arcs = []; flows = [] }) }
    {
        Ok(Network {
            nodes,
            arcs: Vec::new(alloc),
            flows: Vec::new(alloc),
        })
    }

    /// Takes all arcs away and sets the number of nodes, in the same memory.
    pub fn clear(&mut self, nodes: u32)
        requires { nodes ≤ 2 ^ 26 }
        ensures { self.new ≡ record { nodes = nodes; arcs = []; flows = [] } }
    {
        self.nodes = nodes;
        self.arcs.clear();
        self.flows.clear();
    }

    /// Adds nodes after those that are there.
    pub fn add_nodes(&mut self, count: u32)
        requires { self.old.nodes + count ≤ 2 ^ 26 }
        ensures { self.new ≡ record self.old { nodes = self.old.nodes + count } }
    {
        self.nodes += count;
    }

    /// Adds an arc without flow, and answers its number.
    pub fn arc(&mut self, from: u32, to: u32, cap: u64) -> Result<u32, NoMemory>
        requires from { from < self.old.nodes }
        requires to { to < self.old.nodes }
        requires cap { cap ≤ 2 ^ 62 }
        requires room { length self.old.arcs < 2 ^ 28 }
        ensures number { IfOk result (λ i. i ≡ length self.old.arcs) }
        ensures ok { OnOk result (self.new ≡ record {
          nodes = self.old.nodes;
          arcs = self.old.arcs ++ record { from = from; to = to; cap = cap } ∷ [];
          flows = self.old.flows ++ 0 ∷ [];
        }) }
        ensures err { OnErr result (self.new ≡ self.old) }
    {
        let number = self.arcs.len() as u32;
        self.flows.reserve(1)?;
        self.arcs.push(Arc { from, to, cap })?;
        self.flows.push(0)?;
        Ok(number)
    }

    /// How many nodes there are.
    pub fn nodes(&self) -> u32
        ensures { result ≡ self.now.nodes }
    {
        self.nodes
    }

    /// The arcs, in the order in which they were added.
    pub fn arcs(&self) -> &[Arc]
        ensures { result.now ≡ self.now.arcs }
    {
        self.arcs.as_slice()
    }

    /// The flow on an arc.
    pub fn flow_on(&self, arc: u32) -> u64
        requires { arc < length self.now.arcs }
        ensures { result ≡ slice_index self.now.flows arc }
    {
        self.flows[arc as usize]
    }
}
