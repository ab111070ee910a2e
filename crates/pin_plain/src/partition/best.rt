//! The best moves of listed vertices in one partition.

ghost use Rattle.std.specs.Prelude.{◌≡◌, ◌<◌, All, IfOk};
ghost use Rattle.hg_defs.specs.Hypergraph.{vertex_count};
ghost use Rattle.pin_plain.specs.BestMoves as moves;

use crate::partition::Partition;
use crate::scores::Scores;
use hg_base::NoMemory;
use incidence::Hypergraph;
use std::alloc::Global;
use std::cmp::Reverse;

/// The best move of a vertex: its gain, the vertex, and the block. Sorted, those of higher gains go
/// first, and at equal gains those of lower vertices.
pub type BestMove = (Reverse<u64>, u32, u32);

impl Partition {
    /// The best moves of the listed vertices, in the list's order: each goes to its allowed block of the
    /// highest gain above 0, the lowest block at a tie. A vertex without such a block has no best move,
    /// and one all of whose nets lie in its block has none.
    pub fn best_moves(
        &self,
        alloc: Global,
        h: &Hypergraph,
        listed: &[u32],
    ) -> Result<Vec<BestMove>, NoMemory>
        requires belongs { self.now.hyper ≡ h.now }
        requires vertices { All (λ v. v < vertex_count h.now) listed.now }
        ensures { IfOk result (λ best. best.items ≡ moves.best_moves h.now self.now.k self.now.limit self.now.blocks
            listed.now) }
    {
        let mut scores = Scores::new();
        let mut best = Vec::new(alloc);
        for v in listed {
            let Some((block, gain)) = self.best_move(h, *v, &mut scores) else {
                continue;
            };
            best.push((Reverse(gain), *v, block))?;
        }
        Ok(best)
    }
}
