//! The stack of levels.

ghost use Rattle.std.specs.Prelude.{◌≡◌, ◌+◌, ◌-◌, ◌<◌, ◌≤◌, ◌^◌, suc, [], ◌∷◌, ◌++◌, length, IfOk, OnOk, OnErr};
ghost use Rattle.hg_defs.specs.Contraction.{contract};
ghost use Rattle.hg_defs.specs.Clustering.{cluster_count};
ghost use Rattle.hg_defs.specs.Levels.{level, coarsest, map_of};
ghost use Rattle.level_stack.specs.Stack.{ledger_of, LeadsUp};

use crate::down::{LevelsBelow, LevelsDown, take_last};
use contract_nets::MergeLedger;
use hg_base::{FlatHyper, MapList, MapStack, NoMemory};
use incidence::Hypergraph;
use std::alloc::Global;
use std::marker::Model;
use std::mem;
use std::thread::Threads;

/// The levels of a coarsening, the finest first, with the clusterings that lead from each level to
/// the next and the ledgers of these contractions. Each level is the contraction of the one below.
///
/// The coarsest level knows the nets of each vertex. Those below it are kept as flat arrays alone,
/// which takes about half the memory: nobody asks for the nets of their vertices before a descent
/// comes to them.
#[derive(Drop)]
pub struct LevelStack {
    below: Vec<FlatHyper>,
    top: Hypergraph,
    maps: MapStack,
    ledgers: Vec<MergeLedger>,
}

impl Model for LevelStack {
    ghost use Rattle.std.specs.Prelude.{[], ◌∷◌, ◌++◌};
    ghost use Rattle.level_stack.specs.Stack.{Stack, IsStacked, first_of};

    ghost Value = { Stack };

    ghost view = { λ s. record {
      base = first_of s.below.items s.top;
      maps = s.maps;
      ledgers = s.ledgers.items;
    } };

    ghost invariant = { λ s. IsStacked (record {
      base = first_of s.below.items s.top;
      maps = s.maps;
      ledgers = s.ledgers.items;
    }) (s.below.items ++ s.top ∷ []) };
}

impl LevelStack {
    /// Makes a stack of one level.
    pub fn start(alloc: Global, h: Hypergraph) -> Result<Self, NoMemory>
        ensures { IfOk result (λ s. s ≡ record { base = h; maps = []; ledgers = [] }) }
    {
        Ok(LevelStack {
            below: Vec::new(alloc),
            top: h,
            maps: MapStack::new(alloc),
            ledgers: Vec::new(alloc),
        })
    }

    /// Adds a level: the contraction of the last one by a clustering, with its ledger. The index of
    /// the last one is dropped. The clustering is full, and each vertex that isn't free is alone in
    /// its cluster; there are fewer than 2^32 - 1 levels. Where there is no memory, what was given is
    /// dropped and the stack stays.
    pub fn push(
        &mut self,
        map: MapList,
        coarse: Hypergraph,
        ledger: MergeLedger,
    ) -> Result<(), NoMemory>
        requires depth { length self.old.maps + 1 < 2 ^ 32 - 1 }
        requires coarse { coarse ≡ contract (coarsest self.old.base self.old.maps) map (cluster_count map) }
        requires books { LeadsUp (coarsest self.old.base self.old.maps) map coarse ledger }
        ensures ok { OnOk result (self.new ≡ record self.old {
          maps = self.old.maps ++ map ∷ [];
          ledgers = self.old.ledgers ++ ledger ∷ [];
        }) }
        ensures err { OnErr result (self.new ≡ self.old) }
    {
        self.below.reserve(1)?;
        self.ledgers.reserve(1)?;
        self.maps.push(map)?;
        let last = mem::replace(&mut self.top, coarse);
        self.below.push(last.into_flat())?;
        self.ledgers.push(ledger)?;
        Ok(())
    }

    /// How many levels there are.
    pub fn depth(&self) -> u32
        ensures { result ≡ length self.now.maps + 1 }
    {
        self.maps.len() as u32 + 1
    }

    /// The coarsest level.
    pub fn top(&self) -> &Hypergraph
        ensures { result.now ≡ coarsest self.now.base self.now.maps }
    {
        &self.top
    }

    /// The level of a number, 0 being the finest.
    pub fn level(&self, i: u32) -> &FlatHyper
        requires { i ≤ length self.now.maps }
        ensures { result.now ≡ level self.now.base self.now.maps i }
    {
        let i = i as usize;
        if i < self.below.len() {
            &self.below[i]
        } else {
            self.top.flat()
        }
    }

    /// The clustering that leads from a level to the next.
    pub fn map(&self, i: u32) -> &[u32]
        requires { i < length self.now.maps }
        ensures value { result.now ≡ map_of self.now.maps i }
        ensures leads { LeadsUp (level self.now.base self.now.maps i) result.now
            (level self.now.base self.now.maps (suc i)) (ledger_of self.now i) }
    {
        self.maps.slice()[i as usize].slice()
    }

    /// The ledger of the contraction that leads from a level to the next.
    pub fn ledger(&self, i: u32) -> &MergeLedger
        requires { i < length self.now.maps }
        ensures value { result.now ≡ ledger_of self.now i }
        ensures leads { LeadsUp (level self.now.base self.now.maps i) (map_of self.now.maps i)
            (level self.now.base self.now.maps (suc i)) result.now }
    {
        &self.ledgers[i as usize]
    }

    /// Begins a descent on the level of a number. The levels above it are dropped, and the ledgers.
    /// Only then is its index made, by at most so many threads; the coarsest level has one. Where
    /// there is no memory, all levels are dropped.
    pub fn down_from<R: Threads + Sync>(
        self,
        rt: &R,
        alloc: Global,
        i: u32,
        threads: usize,
    ) -> Result<LevelsDown, NoMemory>
        requires level { i ≤ length self.maps }
        requires threads { 0 < threads }
        ensures { IfOk result (λ down. down ≡ record { base = self.base; maps = self.maps; number = i }) }
    {
        let LevelStack {
            mut below,
            top,
            maps,
            ledgers,
        } = self;
        drop(ledgers);
        let i = i as usize;
        if i == below.len() {
            return Ok(LevelsDown::begin(below, top, maps));
        }
        drop(top);
        below.truncate(i + 1);
        let (below, next) = take_last(below);
        LevelsBelow::begin(below, next, maps).enter(rt, alloc, threads)
    }

    /// Gives the finest level and drops the others.
    pub fn base(self) -> FlatHyper
        ensures { result ≡ self.base }
    {
        let LevelStack {
            mut below,
            top,
            maps: _,
            ledgers: _,
        } = self;
        below.truncate(1);
        below.pop().unwrap_or(top.into_flat())
    }
}
