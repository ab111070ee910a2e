//! The loads of blocks, of which the least is found fast.

ghost use Rattle.std.specs.Prelude.{◌≡◌, ℕ, ◌+◌, ◌*◌, ◌<◌, ◌≤◌, List, length, replicate};
ghost use Rattle.std.specs.Prelude.{IfOk, slice_index, slice_set, min};
ghost use Rattle.hg_base.specs.Placing.{IsLeastWithin};
ghost use Rattle.hg_defs.specs.LeastLoaded.{least};

use hg_defs::NoMemory;
use std::alloc::Global;
use std::marker::Model;

/// How many blocks have a leader in common.
const GROUP: usize = 16;

/// The loads of blocks. Each group of 16 blocks in a row has a leader, its least loaded block,
/// so that neither a search for the least load nor a change of one goes through all loads.
#[derive(Drop)]
pub(crate) struct Loads {
    loads: Vec<u64>,
    leaders: Vec<usize>,
}

impl Model for Loads {
    ghost use Rattle.std.specs.Prelude.{ℕ, List, length};
    ghost use Rattle.hg_base.specs.Placing.{AreLed};

    ghost Value = { List ℕ };

    ghost view = { λ s. s.loads.items };

    ghost invariant = { λ s. AreLed s.loads.items s.leaders.items };
}

impl Loads {
    /// Makes `k` loads of 0.
    pub(crate) fn start(alloc: Global, k: u32) -> Result<Self, NoMemory>
        ensures { IfOk result (λ loads. loads ≡ replicate k 0) }
    {
        let loads = vec![in alloc; 0u64; k as usize]?;
        let mut leaders = Vec::with_capacity(alloc, loads.len().div_ceil(GROUP))?;
        for group in 0..loads.len().div_ceil(GROUP) {
            leaders.push(group * GROUP)?;
        }
        Ok(Loads { loads, leaders })
    }

    /// The load of a block.
    pub(crate) fn load(&self, block: u32) -> u64
        requires { block < length self.now }
        ensures { result ≡ slice_index self.now block }
    {
        self.loads[block as usize]
    }

    /// The least loaded block, the first at a tie.
    pub(crate) fn least(&self) -> u32
        requires some { 0 < length self.now }
        requires few { length self.now ≤ 256 }
        ensures least { result ≡ least self.now }
        ensures below { result < length self.now }
    {
        let mut best = self.leaders[0];
        let mut least = self.loads[best];
        for group in 1..self.leaders.len() {
            let leader = self.leaders[group];
            let load = self.loads[leader];
            if load < least {
                best = leader;
                least = load;
            }
        }
        best as u32
    }

    /// Changes the load of a block.
    pub(crate) fn set(&mut self, block: u32, load: u64)
        requires { block < length self.old }
        ensures { self.new ≡ slice_set self.old block load }
    {
        let block = block as usize;
        self.loads[block] = load;
        let group = block / GROUP;
        let start = group * GROUP;
        let end = (start + GROUP).min(self.loads.len());
        self.leaders[group] = least_within(&self.loads, start, end);
    }
}

/// The place of the least of the loads from `low` up to `high`, the first at a tie.
fn least_within(loads: &[u64], low: usize, high: usize) -> usize
    requires some { low < high }
    requires within { high ≤ length loads.now }
    ensures { IsLeastWithin (slice_index loads.now) low high result }
{
    let mut best = low;
    let mut lowest = loads[low];
    for i in low + 1..high {
        let load = loads[i];
        if load < lowest {
            best = i;
            lowest = load;
        }
    }
    best
}
