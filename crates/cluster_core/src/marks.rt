ghost use Rattle.std.specs.Prelude.{◌≡◌, ◌<◌, ◌+◌, ◌^◌, ◌&&◌, length, slice_index};
ghost use Rattle.hg_defs.specs.Hypergraph.{vertex_count};
ghost use Rattle.cluster_core.specs.State.{account, setup_of};
ghost use Rattle.cluster_core.specs.Events.{pass_of, may_step, others_agree, is_enabled, is_idle};
ghost use Rattle.cluster_core.specs.Balance.{IsShaped};
ghost use Rattle.cluster_core.specs.Roots.{root_of};

use crate::events::ClusterEvent;
use crate::pass::Pass;
use hg_base::{FREE, FlatHyper};
use std::alloc::Global;
use std::marker::Model;

/// The marks and the masses of a clustering, and what each of its passes has.
#[derive(Drop)]
pub struct Marks {
    pub(crate) alloc: Global,
    pub(crate) marks: Vec<u32>,
    pub(crate) masses: Vec<u64>,
    pub(crate) passes: Vec<Pass>,
}

impl Model for Marks {
    ghost use Rattle.cluster_core.specs.State.{State};

    ghost Value = { State };

    ghost view = { λ m. record { marks = m.marks.items; masses = m.masses.items; accounts = m.passes.items } };
}

impl Marks {
    /// The root of a vertex, or `None` where it isn't decided.
    pub fn root(&self, v: u32) -> Option<u32>
        requires { v < length self.now.marks }
        ensures { result ≡ root_of self.now v }
    {
        let mark = self.marks[v as usize];
        if mark >= 2 { Some(mark - 2) } else { None }
    }

    /// The mass of a vertex.
    pub fn mass(&self, v: u32) -> u64
        requires { v < length self.now.masses }
        ensures { result ≡ slice_index self.now.masses v }
    {
        self.masses[v as usize]
    }

    fn may_take(&self, h: &FlatHyper, _cap: u64, pass: u32, vertex: u32) -> bool
        requires { pass < length self.now.accounts }
        ensures { result ≡ may_step (setup_of h.now _cap) (ClusterEvent.Take pass vertex)
            (account self.now.accounts pass) }
    {
        self.passes[pass as usize].stage().is_idle()
            && vertex < h.vertices()
            && h.fix(vertex) == FREE
    }

    fn may_root(&self, h: &FlatHyper, _cap: u64, pass: u32, vertex: u32) -> bool
        requires { pass < length self.now.accounts }
        ensures { result ≡ may_step (setup_of h.now _cap) (ClusterEvent.Root pass vertex)
            (account self.now.accounts pass) }
    {
        self.passes[pass as usize].stage().is_idle()
            && vertex < h.vertices()
            && self.passes[pass as usize].has_taken(vertex)
    }

    fn may_add(&self, h: &FlatHyper, _cap: u64, pass: u32, vertex: u32, root: u32) -> bool
        requires { pass < length self.now.accounts }
        ensures { result ≡ may_step (setup_of h.now _cap) (ClusterEvent.Add pass vertex root)
            (account self.now.accounts pass) }
    {
        self.passes[pass as usize].stage().is_idle()
            && vertex < h.vertices()
            && root < h.vertices()
            && self.passes[pass as usize].has_taken(vertex)
            && self.passes[pass as usize].knows(root)
    }

    /// Whether the event is enabled for its pass, but for what it asks of other passes.
    fn may_step(&self, h: &FlatHyper, cap: u64, event: ClusterEvent) -> bool
        requires { pass_of event < length self.now.accounts }
        ensures { result ≡ may_step (setup_of h.now cap) event (account self.now.accounts (pass_of event)) }
    {
        match event {
            ClusterEvent::Take { pass, vertex } => self.may_take(h, cap, pass, vertex),
            ClusterEvent::Root { pass, vertex } => self.may_root(h, cap, pass, vertex),
            ClusterEvent::Add { pass, vertex, root } => self.may_add(h, cap, pass, vertex, root),
            ClusterEvent::TakeBack { pass } => self.passes[pass as usize].stage().is_added(),
            ClusterEvent::Follow { pass } => self.passes[pass as usize].stage().is_granted(),
            ClusterEvent::Peek { vertex, .. } => vertex < h.vertices(),
            ClusterEvent::Split { pass } => self.passes[pass as usize].stage().is_idle(),
            ClusterEvent::Join { pass, other } => {
                self.passes[pass as usize].stage().is_idle() && pass != other
            }
        }
    }

    fn is_live_and_idle(&self, pass: u32) -> bool
        ensures { result ≡ ((account self.now.accounts pass).live && is_idle (account self.now.accounts pass).stage) }
    {
        (pass as usize) < self.passes.len()
            && self.passes[pass as usize].is_live()
            && self.passes[pass as usize].stage().is_idle()
    }

    /// Whether other passes are as the event asks.
    fn others_agree(&self, event: ClusterEvent) -> bool
        ensures { result ≡ others_agree self.now.accounts event }
    {
        match event {
            ClusterEvent::Split { .. } => self.passes.len() < 64,
            ClusterEvent::Join { other, .. } => self.is_live_and_idle(other),
            _ => true,
        }
    }

    /// Whether the event is enabled.
    pub(crate) fn enabled(&self, h: &FlatHyper, cap: u64, event: ClusterEvent) -> bool
        ensures { result ≡ is_enabled (setup_of h.now cap) self.now.accounts event }
    {
        let pass = event.pass() as usize;
        pass < self.passes.len()
            && self.passes[pass].is_live()
            && self.may_step(h, cap, event)
            && self.others_agree(event)
    }
}

impl ClusterEvent {
    /// The pass that makes the event.
    fn pass(self) -> u32
        ensures { result ≡ pass_of self }
    {
        match self {
            ClusterEvent::Take { pass, .. } => pass,
            ClusterEvent::Root { pass, .. } => pass,
            ClusterEvent::Add { pass, .. } => pass,
            ClusterEvent::TakeBack { pass } => pass,
            ClusterEvent::Follow { pass } => pass,
            ClusterEvent::Peek { pass, .. } => pass,
            ClusterEvent::Split { pass } => pass,
            ClusterEvent::Join { pass, .. } => pass,
        }
    }
}
