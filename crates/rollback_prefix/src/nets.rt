//! The nets that moves touch.

ghost use Rattle.std.specs.Prelude.{◌<◌, ◌≤◌, All, IfOk};
ghost use Rattle.hg_defs.specs.Hypergraph.{vertex_count};
ghost use Rattle.rollback_prefix.specs.Gains.{AreTouchedOf};

use hg_base::{Move, NoMemory};
use incidence::Hypergraph;
use std::alloc::Global;

/// The nets that hold a vertex of the moves, each once, of a run of numbers that begins at `first` and ends
/// before `end`. There are marks for the run alone, so that each thread has its share of them to clear.
pub fn touched_nets(
    alloc: Global,
    h: &Hypergraph,
    moves: &[Move],
    first: u32,
    end: u32,
) -> Result<Vec<u32>, NoMemory>
    requires moves { All (λ m. m.vertex < vertex_count h.now) moves.now }
    requires run { first ≤ end }
    ensures { IfOk result (λ nets. AreTouchedOf h.now moves.now first end nets.items) }
{
    let mut seen = vec![in alloc; false; (end - first) as usize]?;
    let mut nets = Vec::new(alloc);
    for step in moves {
        for e in h.nets_of(step.vertex) {
            if first <= *e && *e < end && !seen[(*e - first) as usize] {
                seen[(*e - first) as usize] = true;
                nets.push(*e)?;
            }
        }
    }
    Ok(nets)
}
