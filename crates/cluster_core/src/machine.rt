ghost use Rattle.std.specs.Prelude.{◌≡◌, ◌<◌, ◌+◌, ◌^◌, ℕ, IfOk, OnErr, true, length, nat_le, if◌then◌else◌};
ghost use Rattle.hg_defs.specs.Hypergraph.{vertex_count};
ghost use Rattle.cluster_core.specs.State.{setup_of};
ghost use Rattle.cluster_core.specs.Events.{is_enabled};
ghost use Rattle.cluster_core.specs.Balance.{IsClusterState};
ghost use Rattle.cluster_core.specs.Run.{Leads};

use crate::account::Stage;
use crate::events::ClusterEvent;
use crate::marks::Marks;
use crate::pass::Pass;
use hg_base::{FlatHyper, NoMemory};

/// Where a pass stands that found a mass and added the weight of its vertex.
fn answer(vertex: u32, root: u32, found: u64, weight: u64, cap: u64) -> Stage
    requires { found + weight < 2 ^ 64 }
    ensures { result ≡ (if nat_le (found + weight) cap then Stage.Granted vertex root else Stage.Refused vertex root) }
{
    if found + weight <= cap {
        Stage::Granted { vertex, root }
    } else {
        Stage::Refused { vertex, root }
    }
}

impl Marks {
    fn take(&mut self, _h: &FlatHyper, _cap: u64, pass: u32, vertex: u32) -> Result<u64, NoMemory>
        requires balance { IsClusterState (setup_of _h.now _cap) self.old }
        requires enabled { is_enabled (setup_of _h.now _cap) self.old.accounts (ClusterEvent.Take pass vertex) ≡ true }
        ensures ok { IfOk result (λ found. Leads (setup_of _h.now _cap) self.old (ClusterEvent.Take pass vertex) found
            self.new) }
        ensures err { OnErr result (self.new ≡ self.old) }
    {
        let found = self.marks[vertex as usize];
        if found == 0 {
            self.passes[pass as usize].take(vertex)?;
            self.marks[vertex as usize] = 1;
        } else if found >= 2 {
            self.passes[pass as usize].learn(found - 2)?;
        }
        Ok(u64::from(found))
    }

    fn make_root(
        &mut self,
        _h: &FlatHyper,
        _cap: u64,
        pass: u32,
        vertex: u32,
    ) -> Result<u64, NoMemory>
        requires balance { IsClusterState (setup_of _h.now _cap) self.old }
        requires enabled { is_enabled (setup_of _h.now _cap) self.old.accounts (ClusterEvent.Root pass vertex) ≡ true }
        ensures ok { IfOk result (λ found. Leads (setup_of _h.now _cap) self.old (ClusterEvent.Root pass vertex) found
            self.new) }
        ensures err { OnErr result (self.new ≡ self.old) }
    {
        let found = self.marks[vertex as usize];
        self.passes[pass as usize].root(vertex)?;
        self.marks[vertex as usize] = vertex + 2;
        Ok(u64::from(found))
    }

    fn add(&mut self, h: &FlatHyper, cap: u64, pass: u32, vertex: u32, root: u32) -> u64
        requires balance { IsClusterState (setup_of h.now cap) self.old }
        requires enabled { is_enabled (setup_of h.now cap) self.old.accounts (ClusterEvent.Add pass vertex root) ≡
            true }
        ensures { Leads (setup_of h.now cap) self.old (ClusterEvent.Add pass vertex root) result self.new }
    {
        let weight = h.vertex_weight(vertex);
        let found = self.masses[root as usize];
        let stage = answer(vertex, root, found, weight, cap);
        self.masses[root as usize] = found + weight;
        self.passes[pass as usize].set_stage(stage);
        found
    }

    fn take_back(&mut self, h: &FlatHyper, _cap: u64, pass: u32) -> u64
        requires balance { IsClusterState (setup_of h.now _cap) self.old }
        requires enabled { is_enabled (setup_of h.now _cap) self.old.accounts (ClusterEvent.TakeBack pass) ≡ true }
        ensures { Leads (setup_of h.now _cap) self.old (ClusterEvent.TakeBack pass) result self.new }
    {
        let stage = self.passes[pass as usize].stage();
        let weight = h.vertex_weight(stage.vertex());
        let root = stage.root() as usize;
        let found = self.masses[root];
        self.masses[root] = found - weight;
        self.passes[pass as usize].set_stage(Stage::Idle);
        found
    }

    fn follow(&mut self, _h: &FlatHyper, _cap: u64, pass: u32) -> u64
        requires balance { IsClusterState (setup_of _h.now _cap) self.old }
        requires enabled { is_enabled (setup_of _h.now _cap) self.old.accounts (ClusterEvent.Follow pass) ≡ true }
        ensures { Leads (setup_of _h.now _cap) self.old (ClusterEvent.Follow pass) result self.new }
    {
        let stage = self.passes[pass as usize].stage();
        let vertex = stage.vertex() as usize;
        let found = self.marks[vertex];
        self.marks[vertex] = stage.root() + 2;
        self.passes[pass as usize].follow();
        u64::from(found)
    }

    fn peek(&mut self, _h: &FlatHyper, _cap: u64, pass: u32, vertex: u32) -> Result<u64, NoMemory>
        requires balance { IsClusterState (setup_of _h.now _cap) self.old }
        requires enabled { is_enabled (setup_of _h.now _cap) self.old.accounts (ClusterEvent.Peek pass vertex) ≡ true }
        ensures ok { IfOk result (λ found. Leads (setup_of _h.now _cap) self.old (ClusterEvent.Peek pass vertex) found
            self.new) }
        ensures err { OnErr result (self.new ≡ self.old) }
    {
        let found = self.marks[vertex as usize];
        if found >= 2 {
            self.passes[pass as usize].learn(found - 2)?;
        }
        Ok(u64::from(found))
    }

    fn split(&mut self, _h: &FlatHyper, _cap: u64, _pass: u32) -> Result<u64, NoMemory>
        requires balance { IsClusterState (setup_of _h.now _cap) self.old }
        requires enabled { is_enabled (setup_of _h.now _cap) self.old.accounts (ClusterEvent.Split _pass) ≡ true }
        ensures ok { IfOk result (λ found. Leads (setup_of _h.now _cap) self.old (ClusterEvent.Split _pass) found
            self.new) }
        ensures err { OnErr result (self.new ≡ self.old) }
    {
        let found = self.marks[0];
        self.passes.push(Pass::blank(self.alloc, true))?;
        Ok(u64::from(found))
    }

    fn join(&mut self, _h: &FlatHyper, _cap: u64, pass: u32, other: u32) -> Result<u64, NoMemory>
        requires balance { IsClusterState (setup_of _h.now _cap) self.old }
        requires enabled { is_enabled (setup_of _h.now _cap) self.old.accounts (ClusterEvent.Join pass other) ≡ true }
        ensures ok { IfOk result (λ found. Leads (setup_of _h.now _cap) self.old (ClusterEvent.Join pass other) found
            self.new) }
        ensures err { OnErr result (self.new ≡ self.old) }
    {
        let found = self.marks[0];
        let joined = self.passes[pass as usize].joined(&self.passes[other as usize])?;
        self.passes[pass as usize] = joined;
        self.passes[other as usize] = Pass::blank(self.alloc, false);
        Ok(u64::from(found))
    }

    /// Makes one event, which must be enabled, and tells what its pass found in the word. Where
    /// there is no memory, nothing changes.
    pub(crate) fn step(
        &mut self,
        h: &FlatHyper,
        cap: u64,
        event: ClusterEvent,
    ) -> Result<u64, NoMemory>
        requires balance { IsClusterState (setup_of h.now cap) self.old }
        requires enabled { is_enabled (setup_of h.now cap) self.old.accounts event ≡ true }
        ensures ok { IfOk result (λ found. Leads (setup_of h.now cap) self.old event found self.new) }
        ensures err { OnErr result (self.new ≡ self.old) }
    {
        match event {
            ClusterEvent::Take { pass, vertex } => self.take(h, cap, pass, vertex),
            ClusterEvent::Root { pass, vertex } => self.make_root(h, cap, pass, vertex),
            ClusterEvent::Add { pass, vertex, root } => Ok(self.add(h, cap, pass, vertex, root)),
            ClusterEvent::TakeBack { pass } => Ok(self.take_back(h, cap, pass)),
            ClusterEvent::Follow { pass } => Ok(self.follow(h, cap, pass)),
            ClusterEvent::Peek { pass, vertex } => self.peek(h, cap, pass, vertex),
            ClusterEvent::Split { pass } => self.split(h, cap, pass),
            ClusterEvent::Join { pass, other } => self.join(h, cap, pass, other),
        }
    }
}
