//! The hypergraph as flat arrays.

ghost use Rattle.std.specs.Prelude.{◌≡◌, ℕ, ◌+◌, ◌*◌, ◌^◌, ◌<◌, ◌≤◌, [], ◌∷◌, ◌++◌, length, replicate};
ghost use Rattle.std.specs.Prelude.{All, IsTrue, ◌↔◌, IfOk, OnOk, OnErr, slice_set};
ghost use Rattle.std.specs.List.{flat_map};
ghost use Rattle.std.specs.List.Sorted.{IsStrictlyIncreasing};
ghost use Rattle.std.specs.Ordering.{nat_cmp};
ghost use Rattle.hg_defs.specs.Sorting.{set_of};
ghost use Rattle.hg_defs.specs.Sums.{total};
ghost use Rattle.hg_base.specs.Flat.{AreFlat, nets_at, GrowsBy};
ghost use Rattle.hg_defs.specs.Hypergraph.{vertex_count, net_count, pin_count, weight_of, total_weight};
ghost use Rattle.hg_defs.specs.Hypergraph.{total_net_weight, net_of, fix_of, IsNet, IsHypergraph};
ghost use Rattle.hg_defs.specs.Hypergraph.{IsWithinLimits, IsFixedWithin, Suits};

use crate::sets::{append_raised, append_set};
use hg_defs::{FREE, NoMemory, Objective};
use std::alloc::Global;
use std::marker::Model;

/// The greatest number of counts that the blocks of all vertices and nets may have together.
const MOST_COUNTS: u64 = 1 << 26;

/// A weighted hypergraph. Its nets stand in flat arrays.
///
/// It has at most 2^22 vertices, 2^22 nets and 2^25 pins; all vertices weigh less than 2^54
/// together, all nets too, and each net's weight times its pins comes to less than 2^57 together.
#[derive(Debug, Drop)]
pub struct FlatHyper {
    vertex_weights: Vec<u64>,
    fixes: Vec<u16>,
    net_weights: Vec<u64>,
    starts: Vec<u32>,
    pins: Vec<u32>,
    total: u64,
    objective: Objective,
}

impl Model for FlatHyper {
    ghost use Rattle.std.specs.Prelude.{length};
    ghost use Rattle.hg_defs.specs.Hypergraph.{Hyper};
    ghost use Rattle.hg_base.specs.Flat.{nets_at, IsLaidOut, IsKept};

    ghost Value = { Hyper };

    ghost view = { λ h. record {
      weights = h.vertex_weights.items;
      nets = nets_at h.starts.items h.net_weights.items h.pins.items;
      objective = h.objective;
      fixes = h.fixes.items;
    } };

    ghost invariant = { λ h.
        IsLaidOut h.starts.items h.net_weights.items h.pins.items
        × IsKept (record {
          weights = h.vertex_weights.items;
          nets = nets_at h.starts.items h.net_weights.items h.pins.items;
          objective = h.objective;
          fixes = h.fixes.items;
        }) (length h.pins.items) h.total };
}

impl FlatHyper {
    /// Makes a hypergraph of vertices of weight 1, all free, without nets; at most 2^22 vertices.
    pub fn start(alloc: Global, vertices: u32) -> Result<Self, NoMemory>
        requires { vertices ≤ 2 ^ 22 }
        ensures value { IfOk result (λ h. h ≡ record {
          weights = replicate vertices 1;
          nets = [];
          objective = Objective.Connectivity;
          fixes = replicate vertices FREE;
        }) }
        ensures total { IfOk result (λ h. total_weight h ≡ vertices) }
    {
        let count = vertices as usize;
        Ok(FlatHyper {
            vertex_weights: vec![in alloc; 1u64; count]?,
            fixes: vec![in alloc; FREE as u16; count]?,
            net_weights: Vec::new(alloc),
            starts: vec![in alloc; 0u32]?,
            pins: Vec::new(alloc),
            total: u64::from(vertices),
            objective: Objective::Connectivity,
        })
    }

    /// Makes a copy, whose lists have no more room than they need.
    pub fn copy(&self, alloc: Global) -> Result<Self, NoMemory>
        ensures { IfOk result (λ h. h ≡ self.now) }
    {
        Ok(FlatHyper {
            vertex_weights: self.vertex_weights.to_vec(alloc)?,
            fixes: self.fixes.to_vec(alloc)?,
            net_weights: self.net_weights.to_vec(alloc)?,
            starts: self.starts.to_vec(alloc)?,
            pins: self.pins.to_vec(alloc)?,
            total: self.total,
            objective: self.objective,
        })
    }

    /// Adds a net, whose pins are the set of the given vertices. Where there is no memory,
    /// the hypergraph stays as it was.
    ///
    /// The given vertices may stand in any order and more than once; the work is least where
    /// they rise. All nets, all pins, all weights and all products of a net's weight and its
    /// given pins must stay within the limits of the type.
    pub fn push_net(&mut self, weight: u64, pins: &[u32]) -> Result<(), NoMemory>
        requires vertices { All (λ v. v < vertex_count self.old) pins.now }
        requires nets { net_count self.old < 2 ^ 22 }
        requires all_pins { pin_count self.old + length pins.now ≤ 2 ^ 25 }
        requires net_weight { total_net_weight self.old + weight < 2 ^ 54 }
        requires pin_weight { total (λ e. e.weight * length e.pins) self.old.nets + weight * length pins.now < 2 ^ 57 }
        ensures ok { OnOk result (self.new ≡ record self.old {
          nets = self.old.nets ++ record { weight = weight; pins = set_of nat_cmp pins.now } ∷ [];
        }) }
        ensures sizes { OnOk result (GrowsBy self.old self.new weight (length pins.now)) }
        ensures err { OnErr result (self.new ≡ self.old) }
    {
        self.net_weights.reserve(1)?;
        self.starts.reserve(1)?;
        append_set(&mut self.pins, pins)?;
        self.starts.push(self.pins.len() as u32)?;
        self.net_weights.push(weight)?;
        Ok(())
    }

    /// Makes room for so many more nets, and for so many more pins of them all: room for no more than
    /// these where there was too little. Where there is no memory, the hypergraph stays as it was.
    pub fn reserve(&mut self, nets: usize, pins: usize) -> Result<(), NoMemory>
        ensures { self.new ≡ self.old }
    {
        self.net_weights.reserve_exact(nets)?;
        self.starts.reserve_exact(nets)?;
        self.pins.reserve_exact(pins)?;
        Ok(())
    }

    /// Adds nets that stand in flat arrays: their weights, the places at which their pins start, an
    /// end behind the last one, and the pins of all, those of a net in strictly rising order. Where
    /// there is no memory, the hypergraph stays as it was.
    ///
    /// With these nets the hypergraph must stay within the limits of the type.
    pub fn push_nets(
        &mut self,
        weights: &[u64],
        starts: &[u32],
        pins: &[u32],
    ) -> Result<(), NoMemory>
        requires flat { AreFlat starts.now weights.now pins.now }
        requires nets { All (IsNet (vertex_count self.old)) (nets_at starts.now weights.now pins.now) }
        requires limits { IsWithinLimits (record self.old {
          nets = self.old.nets ++ nets_at starts.now weights.now pins.now;
        }) }
        ensures ok { OnOk result (self.new ≡ record self.old {
          nets = self.old.nets ++ nets_at starts.now weights.now pins.now;
        }) }
        ensures err { OnErr result (self.new ≡ self.old) }
    {
        self.net_weights.reserve(weights.len())?;
        self.pins.reserve(pins.len())?;
        append_raised(&mut self.starts, &starts[1..], self.pins.len() as u32)?;
        self.net_weights.extend_from_slice(weights)?;
        self.pins.extend_from_slice(pins)?;
        Ok(())
    }

    /// How many vertices there are.
    pub fn vertices(&self) -> u32
        ensures count { result ≡ vertex_count self.now }
        ensures sound { IsHypergraph self.now }
        ensures bounds { IsWithinLimits self.now }
    {
        self.vertex_weights.len() as u32
    }

    /// How many nets there are.
    pub fn nets(&self) -> u32
        ensures count { result ≡ net_count self.now }
        ensures sound { IsHypergraph self.now }
        ensures bounds { IsWithinLimits self.now }
    {
        self.net_weights.len() as u32
    }

    /// The pins of a net, in strictly rising order.
    pub fn pins(&self, e: u32) -> &[u32]
        requires { e < net_count self.now }
        ensures value { result.now ≡ (net_of self.now e).pins }
        ensures rising { IsStrictlyIncreasing result.now }
        ensures below { All (λ v. v < vertex_count self.now) result.now }
    {
        let start = self.starts[e as usize] as usize;
        let end = self.starts[e as usize + 1] as usize;
        &self.pins[start..end]
    }

    /// The pins of all nets: those of each net behind those of the nets before it.
    pub fn all_pins(&self) -> &[u32]
        ensures value { result.now ≡ flat_map (λ e. e.pins) self.now.nets }
        ensures count { length result.now ≡ pin_count self.now }
        ensures below { All (λ v. v < vertex_count self.now) result.now }
    {
        self.pins.as_slice()
    }

    /// The weight of a net.
    pub fn net_weight(&self, e: u32) -> u64
        requires { e < net_count self.now }
        ensures value { result ≡ (net_of self.now e).weight }
        ensures bound { result < 2 ^ 54 }
    {
        self.net_weights[e as usize]
    }

    /// The weight of a vertex.
    pub fn vertex_weight(&self, v: u32) -> u64
        requires { v < vertex_count self.now }
        ensures value { result ≡ weight_of self.now v }
        ensures bound { result < 2 ^ 54 }
    {
        self.vertex_weights[v as usize]
    }

    /// The weight of all vertices together.
    pub fn total_weight(&self) -> u64
        ensures { result ≡ total_weight self.now }
    {
        self.total
    }

    /// Whether the counts of `k` blocks for all vertices and nets are at most 2^26.
    pub fn suits(&self, k: u32) -> bool
        ensures { IsTrue result ↔ Suits self.now k }
    {
        (u64::from(self.vertices()) + u64::from(self.nets())) * u64::from(k) <= MOST_COUNTS
    }

    /// Sets the weight of a vertex. All vertices must weigh less than 2^54 together afterwards.
    pub fn set_vertex_weight(&mut self, v: u32, weight: u64)
        requires vertex { v < vertex_count self.old }
        requires fits { total_weight self.old + weight < 2 ^ 54 + weight_of self.old v }
        ensures value { self.new ≡ record self.old { weights = slice_set self.old.weights v weight } }
        ensures total { total_weight self.new + weight_of self.old v ≡ total_weight self.old + weight }
    {
        self.total = self.total - self.vertex_weights[v as usize] + weight;
        self.vertex_weights[v as usize] = weight;
    }

    /// The cost that partitions are to keep low.
    pub fn objective(&self) -> Objective
        ensures { result ≡ self.now.objective }
    {
        self.objective
    }

    /// Sets the cost that partitions are to keep low.
    pub fn set_objective(&mut self, objective: Objective)
        ensures { self.new ≡ record self.old { objective = objective } }
    {
        self.objective = objective;
    }

    /// The block to which a vertex is fixed, or `FREE`.
    pub fn fix(&self, v: u32) -> u32
        requires { v < vertex_count self.now }
        ensures value { result ≡ fix_of self.now v }
        ensures bound { result ≤ FREE }
    {
        u32::from(self.fixes[v as usize])
    }

    /// Fixes a vertex to a block below 256, or frees it by `FREE`.
    pub fn set_fix(&mut self, v: u32, fix: u32)
        requires vertex { v < vertex_count self.old }
        requires fix { fix ≤ FREE }
        ensures { self.new ≡ record self.old { fixes = slice_set self.old.fixes v fix } }
    {
        self.fixes[v as usize] = fix as u16;
    }

    /// Whether each fix is `FREE` or a block below `k`.
    pub fn fixed_within(&self, k: u32) -> bool
        ensures { IsTrue result ↔ IsFixedWithin self.now k }
    {
        self.fixes
            .iter()
            .all(|fix| u32::from(*fix) == FREE || u32::from(*fix) < k)
    }
}
