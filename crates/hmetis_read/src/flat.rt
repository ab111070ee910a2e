//! Nets in flat arrays, without vertices.

ghost use Rattle.std.specs.Prelude.{◌≡◌, ◌+◌, ◌<◌, ◌^◌, [], ◌∷◌, ◌++◌, length, All, IfOk, OnOk, OnErr};
ghost use Rattle.hg_defs.specs.Sums.{total};
ghost use Rattle.hg_defs.specs.Hypergraph.{vertex_count, IsNet, IsWithinLimits};

use hg_base::{FlatHyper, NoMemory};
use std::alloc::Global;
use std::marker::Model;

/// Nets in flat arrays, without vertices.
#[derive(Debug, Drop)]
pub(crate) struct FlatNets {
    weights: Vec<u64>,
    starts: Vec<u32>,
    pins: Vec<u32>,
}

impl Model for FlatNets {
    ghost use Rattle.std.specs.Prelude.{List};
    ghost use Rattle.hg_defs.specs.Hypergraph.{Net};
    ghost use Rattle.hg_base.specs.Flat.{nets_at, AreFlat};

    ghost Value = { List Net };

    ghost view = { λ n. nets_at n.starts.items n.weights.items n.pins.items };

    ghost invariant = { λ n. AreFlat n.starts.items n.weights.items n.pins.items };
}

impl FlatNets {
    /// Makes an empty list with room for so many nets, and for so many pins of them all.
    pub(crate) fn with_room(alloc: Global, nets: usize, pins: usize) -> Result<Self, NoMemory>
        ensures { IfOk result (λ n. n ≡ []) }
    {
        let mut starts = Vec::with_capacity(alloc, nets.saturating_add(1))?;
        starts.push(0u32)?;
        Ok(FlatNets {
            weights: Vec::with_capacity(alloc, nets)?,
            starts,
            pins: Vec::with_capacity(alloc, pins)?,
        })
    }

    /// Adds a net with these pins behind the others. Where there is no memory, the list stays as it was.
    /// The pins of all nets come to less than 2^32.
    pub(crate) fn push(&mut self, weight: u64, pins: &[u32]) -> Result<(), NoMemory>
        requires { total (λ e. length e.pins) self.old + length pins.now < 2 ^ 32 }
        ensures ok { OnOk result (self.new ≡ self.old ++ record { weight = weight; pins = pins.now } ∷ []) }
        ensures err { OnErr result (self.new ≡ self.old) }
    {
        self.weights.reserve(1)?;
        self.starts.reserve(1)?;
        self.pins.extend_from_slice(pins)?;
        self.starts.push(self.pins.len() as u32)?;
        self.weights.push(weight)?;
        Ok(())
    }

    /// How many nets there are.
    pub(crate) fn len(&self) -> usize
        ensures { result ≡ length self.now }
    {
        self.weights.len()
    }

    /// Adds the nets to a hypergraph. Where there is no memory, it stays as it was.
    pub(crate) fn add_to(&self, hyper: &mut FlatHyper) -> Result<(), NoMemory>
        requires nets { All (IsNet (vertex_count hyper.old)) self.now }
        requires limits { IsWithinLimits (record hyper.old { nets = hyper.old.nets ++ self.now }) }
        ensures { OnOk result (hyper.new ≡ record hyper.old { nets = hyper.old.nets ++ self.now }) }
    {
        hyper.push_nets(&self.weights, &self.starts, &self.pins)
    }
}
