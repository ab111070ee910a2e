ghost use Rattle.std.specs.Prelude.{◌<◌, IfOk, All, AllPairs, ◌≢◌, length};
ghost use Rattle.round_log.specs.Rounds.{IsOrder};

use hg_base::{Items, Verts};
use hg_defs::{Move, NoMemory};
use std::alloc::Global;

/// For each of `n` vertices, one more than the place of its move, or 0 where it doesn't move.
pub fn order_of(alloc: Global, n: u32, moves: &[Move]) -> Result<Verts, NoMemory>
    requires vertices { All (λ m. m.vertex < n) moves.now }
    requires distinct { AllPairs (λ a b. a.vertex ≢ b.vertex) moves.now }
    ensures { IfOk result (IsOrder n moves.now) }
{
    let mut order = vec![in alloc; 0u32; n as usize]?;
    for (place, step) in moves.iter().enumerate() {
        order[step.vertex as usize] = place as u32 + 1;
    }
    Ok(Items::from_vec(order))
}
