//! The ratings of the vertices that the neighbours of one vertex name.

ghost use Rattle.std.specs.Prelude.{◌≡◌, ◌<◌, IfSome, OnOk, All, vec_len};

use hg_base::NoMemory;
use std::alloc::Global;

/// A place is a number of 32 bits, and there are fewer vertices.
const MOST_NAMED: usize = u32::MAX as usize;

/// A vertex that was named, whether it named itself, and its rating. All nets weigh less than 2^54 together, so a sum,
/// which is at most 1,000 times that, is the same in 64 bits as in 128.
#[derive(Clone, Copy)]
pub(crate) struct Named {
    pub(crate) vertex: u32,
    pub(crate) own: bool,
    /// The net on which it was named last.
    pub(crate) net: u32,
    pub(crate) sum: u64,
}

/// The ratings of a worker: the vertices that were named and not tried at this visit, and once filled, for each vertex
/// the place in that list where it stands, if it stands there: a sparse set of Briggs and Torczon.
#[derive(Drop)]
pub(crate) struct Ratings {
    pub(crate) places: Vec<u32>,
    pub(crate) named: Vec<Named>,
    ghost below: { All (λ c. c.vertex < vec_len places) named.items },
}

impl Ratings {
    /// Takes room for the ratings of so many vertices, which is filled later: who writes to a page
    /// first waits for it.
    pub(crate) fn room(alloc: Global, vertices: u32) -> Result<Self, NoMemory> {
        Ok(Ratings {
            places: Vec::with_capacity(alloc, vertices as usize)?,
            named: Vec::new(alloc),
        })
    }

    /// Gives each of so many vertices a place, where none of them stands.
    pub(crate) fn fill(&mut self, vertices: u32) -> Result<(), NoMemory>
        ensures { OnOk result (vec_len self.new.places ≡ vertices) }
    {
        self.named.clear();
        self.places.clear();
        self.places.resize(vertices as usize, 0)?;
        Ok(())
    }

    /// Begins a visit.
    pub(crate) fn clear(&mut self)
        ensures { vec_len self.new.places ≡ vec_len self.old.places }
    {
        self.named.clear();
    }

    /// Rates a vertex that a neighbour on the net names; it is rated once a net.
    pub(crate) fn name(&mut self, named: Named) -> Result<(), NoMemory>
        requires { named.vertex < vec_len self.old.places }
        ensures { vec_len self.new.places ≡ vec_len self.old.places }
    {
        let place = self.places[named.vertex as usize] as usize;
        if place < self.named.len() && self.named[place].vertex == named.vertex {
            let rating = &mut self.named[place];
            if rating.net != named.net {
                rating.net = named.net;
                rating.sum = rating.sum.saturating_add(named.sum);
            }
            return Ok(());
        }
        self.places[named.vertex as usize] = self.named.len().min(MOST_NAMED) as u32;
        self.named.push(named)?;
        Ok(())
    }

    /// Takes out the vertex of the highest rating, the lowest number at a tie.
    pub(crate) fn take_best(&mut self) -> Option<Named>
        ensures same { vec_len self.new.places ≡ vec_len self.old.places }
        ensures below { IfSome result (λ c. c.vertex < vec_len self.new.places) }
    {
        let mut best = 0;
        let mut most = *self.named.first()?;
        for i in 1..self.named.len() {
            let other = self.named[i];
            if other.sum > most.sum || other.sum == most.sum && other.vertex < most.vertex {
                best = i;
                most = other;
            }
        }
        Some(self.named.swap_remove(best))
    }
}
