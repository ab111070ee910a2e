//! What the workers of a round share.

ghost use Rattle.std.specs.Prelude.{◌≡◌, ◌<◌, ◌≤◌, ◌^◌, All, length};
ghost use Rattle.hg_defs.specs.Hypergraph.{vertex_count};
ghost use Rattle.std.proofs.Props.{props};
ghost use Rattle.fm_search.specs.Opened.{IsBelow};

use crate::opening::Known;
use crate::progress::Progress;
use crate::told::Told;
use incidence::Hypergraph;
use move_table::Round;

/// Room between what one worker writes and what others read, so that no line of the cache holds both.
pub(crate) type Apart = [u64; 16];

/// The round, its hypergraph, its number of blocks and its limit, the number of workers, the seeds with the place of
/// the first one that is drawn and how many a search starts from, how far the round has come, what is known of the
/// vertices at its opening, and which were told of a move since.
#[derive(Drop)]
pub(crate) struct Shared<'a> {
    pub(crate) round: &'a Round<'a>,
    pub(crate) h: &'a Hypergraph,
    pub(crate) k: u32,
    pub(crate) limit: u64,
    pub(crate) workers: u32,
    pub(crate) seeds: &'a [u32],
    pub(crate) first: u32,
    pub(crate) lot_size: u64,
    pub(crate) progress: &'a Progress,
    pub(crate) known: Known<'a>,
    pub(crate) told: &'a Told,
    ghost hyper: { round.now.terms.part.hyper ≡ h.now },
    ghost blocks: { round.now.terms.part.k ≡ k },
    ghost few: { k ≤ 256 },
    ghost seeded: { All (λ v. v < vertex_count h.now) seeds.now },
    ghost countable: { length seeds.now < 2 ^ 31 },
    ghost begins: { first ≤ length seeds.now },
    ghost opened: { length known.openings.now ≡ vertex_count h.now },
    ghost below: { All (IsBelow k) known.openings.now } by { Prim.hlevel props },
}

impl Shared<'_> {
    /// The numbers of the seeds of the search of a number that was drawn, from the first one up to the second one.
    pub(crate) fn lot(&self, drawn: u64) -> (u64, u64)
        ensures { result.1 ≤ length self.now.seeds.now }
    {
        let from = drawn.saturating_mul(self.lot_size);
        (
            from,
            from.saturating_add(self.lot_size)
                .min(self.seeds.len() as u64),
        )
    }

    /// The seed of a number: the seeds are gone round from the first one on.
    pub(crate) fn seed(&self, number: u64) -> u32
        requires { number < length self.now.seeds.now }
        ensures { result < vertex_count self.now.h.now }
    {
        let seeds = self.seeds;
        let mut place = self.first as usize + number as usize;
        if place >= seeds.len() {
            place -= seeds.len();
        }
        seeds[place]
    }
}
