//! The levels that a descent has left before it.

ghost use Rattle.std.specs.Prelude.{◌≡◌, ◌-◌, ◌<◌, [], ◌∷◌, ◌++◌, length, IfOk};
ghost use Rattle.hg_defs.specs.Contraction.{IsFull, IsApart};
ghost use Rattle.hg_defs.specs.Clustering.{cluster_count};
ghost use Rattle.hg_defs.specs.Levels.{level, map_of};
ghost use Rattle.level_stack.specs.Stack.{first_of};
ghost use Rattle.level_stack.specs.Down.{IsDown};

use hg_base::{FlatHyper, MapStack, NoMemory};
use incidence::Hypergraph;
use std::alloc::Global;
use std::marker::Model;
use std::thread::Threads;

/// The levels of a stack from one of a number down to the finest, and the clusterings of the whole
/// stack. A level is dropped when the descent leaves it.
///
/// The level that the descent is on knows the nets of each vertex. Those below it are kept as flat
/// arrays alone, which takes about half the memory: the index of a level is made when the descent
/// comes to it.
#[derive(Drop)]
pub struct LevelsDown {
    on: Hypergraph,
    below: Vec<FlatHyper>,
    maps: MapStack,
}

impl Model for LevelsDown {
    ghost use Rattle.std.specs.Prelude.{[], ◌∷◌, ◌++◌, length};
    ghost use Rattle.level_stack.specs.Stack.{first_of};
    ghost use Rattle.level_stack.specs.Down.{Down, IsDown};

    ghost Value = { Down };

    ghost view = { λ d. record { base = first_of d.below.items d.on; maps = d.maps; number = length d.below.items } };

    ghost invariant = { λ d. IsDown (first_of d.below.items d.on) d.maps (d.below.items ++ d.on ∷ []) };
}

/// The levels below one that a descent has left. None of them has its index yet, so that one can be made while the
/// level above is still in use.
#[derive(Drop)]
pub struct LevelsBelow {
    below: Vec<FlatHyper>,
    next: FlatHyper,
    maps: MapStack,
}

impl Model for LevelsBelow {
    ghost use Rattle.std.specs.Prelude.{[], ◌∷◌, ◌++◌, length};
    ghost use Rattle.level_stack.specs.Stack.{first_of};
    ghost use Rattle.level_stack.specs.Down.{Down, IsDown};

    ghost Value = { Down };

    ghost view = { λ d. record { base = first_of d.below.items d.next; maps = d.maps; number = length d.below.items } };

    ghost invariant = { λ d. IsDown (first_of d.below.items d.next) d.maps (d.below.items ++ d.next ∷ []) };
}

/// Takes the last of some levels, which is the coarsest, off the others.
pub(crate) fn take_last(mut levels: Vec<FlatHyper>) -> (Vec<FlatHyper>, FlatHyper)
    requires { 0 < length levels.items }
    ensures { levels.items ≡ result.0.items ++ result.1 ∷ [] }
{
    let Some(last) = levels.pop() else {
        unreachable!()
    };
    (levels, last)
}

impl LevelsDown {
    /// Begins a descent on a level, over those below it and the clusterings of all.
    pub(crate) fn begin(below: Vec<FlatHyper>, on: Hypergraph, maps: MapStack) -> Self
        requires { IsDown (first_of below.items on) maps (below.items ++ on ∷ []) }
        ensures { result ≡ record { base = first_of below.items on; maps = maps; number = length below.items } }
    {
        LevelsDown { on, below, maps }
    }

    /// The level that the descent is on.
    pub fn level(&self) -> &Hypergraph
        ensures { result.now ≡ level self.now.base self.now.maps self.now.number }
    {
        &self.on
    }

    /// The clustering that leads from the level that the descent is on to the one above it.
    pub fn map(&self) -> &[u32]
        requires { self.now.number < length self.now.maps }
        ensures value { result.now ≡ map_of self.now.maps self.now.number }
        ensures full { IsFull (level self.now.base self.now.maps self.now.number) result.now
            (cluster_count result.now) }
        ensures apart { IsApart (level self.now.base self.now.maps self.now.number) result.now }
    {
        self.maps.slice()[self.below.len()].slice()
    }

    /// Leaves the level: gives it, and the levels below it.
    pub fn leave(self) -> (Hypergraph, LevelsBelow)
        requires { 0 < self.number }
        ensures level { result.0 ≡ level self.base self.maps self.number }
        ensures below { result.1 ≡ record self { number = self.number - 1 } }
    {
        let LevelsDown { on, below, maps } = self;
        let (below, next) = take_last(below);
        (on, LevelsBelow { below, next, maps })
    }

    /// Goes down to the level below: drops the one above it, and then makes its index by at most so
    /// many threads. Where there is no memory, all levels are dropped.
    pub fn descend<R: Threads + Sync>(
        self,
        rt: &R,
        alloc: Global,
        threads: usize,
    ) -> Result<Self, NoMemory>
        requires above { 0 < self.number }
        requires threads { 0 < threads }
        ensures { IfOk result (λ down. down ≡ record self { number = self.number - 1 }) }
    {
        let (on, below) = self.leave();
        drop(on);
        below.enter(rt, alloc, threads)
    }

    /// Gives the finest level, which the descent is on, and the clusterings.
    pub fn into_base(self) -> (Hypergraph, MapStack)
        requires { self.number ≡ 0 }
        ensures base { result.0 ≡ self.base }
        ensures maps { result.1 ≡ self.maps }
    {
        let LevelsDown { on, below: _, maps } = self;
        (on, maps)
    }
}

impl LevelsBelow {
    /// The levels below one, of which `next` is the coarsest, and the clusterings of all.
    pub(crate) fn begin(below: Vec<FlatHyper>, next: FlatHyper, maps: MapStack) -> Self
        requires { IsDown (first_of below.items next) maps (below.items ++ next ∷ []) }
        ensures { result ≡ record { base = first_of below.items next; maps = maps; number = length below.items } }
    {
        LevelsBelow { below, next, maps }
    }

    /// Goes down to the coarsest of them: makes its index by at most so many threads. Where there is no
    /// memory, all levels are dropped.
    pub fn enter<R: Threads + Sync>(
        self,
        rt: &R,
        alloc: Global,
        threads: usize,
    ) -> Result<LevelsDown, NoMemory>
        requires { 0 < threads }
        ensures { IfOk result (λ down. down ≡ self) }
    {
        let LevelsBelow { below, next, maps } = self;
        let on = Hypergraph::build_with(rt, alloc, next, threads)?;
        Ok(LevelsDown { on, below, maps })
    }
}
