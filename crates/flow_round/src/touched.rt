//! The pairs of a wave that a net touches.

ghost use Rattle.std.specs.Prelude.{◌≡◌, ◌-◌, ◌<◌, IfOk, MatchOption, false, map, true};
ghost use Rattle.flow_pair.specs.CutNets.{AreCutLists};
ghost use Rattle.flow_round.specs.PairTurns.{is_of_wave};
ghost use Rattle.flow_round.specs.Waves.{AreTouched};

use flow_pair::{CutNets, NoMemory};
use incidence::Hypergraph;
use pin_plain::Partition;
use std::alloc::Global;
use std::cmp::Reverse;

/// A pair of a wave: what room its blocks have and how long their lists are, and its first block.
pub(crate) type Touched = (Reverse<(u64, usize)>, u32);

/// The second block of the pair of a wave with this first block, where there is one.
pub(crate) fn partner_of(k: u32, wave: u32, a: u32) -> Option<u32>
    ensures { MatchOption result (is_of_wave k wave a ≡ false) (λ b. (is_of_wave k wave a ≡ true) × (b ≡ wave - a)) }
{
    if a >= wave {
        return None;
    }
    let b = wave - a;
    if a >= b {
        return None;
    }
    if b >= k {
        return None;
    }
    Some(b)
}

/// The room that a block has.
fn room_of(p: &Partition, block: u32) -> u64
    requires { block < p.now.k }
{
    p.limit().saturating_sub(p.weight(block))
}

/// The pairs of a wave that a net touches, those with the most room first: their regions are the largest ones.
pub(crate) fn touched_pairs(
    alloc: Global,
    h: &Hypergraph,
    p: &Partition,
    wave: u32,
    cut: &CutNets,
) -> Result<Vec<Touched>, NoMemory>
    requires belongs { p.now.hyper ≡ h.now }
    requires cut { AreCutLists h.now p.now.k p.now.blocks cut.now }
    ensures { IfOk result (λ pairs. AreTouched h.now p.now wave p.now.k (map (λ pair. pair.1) pairs.items)) }
{
    let k = p.k();
    let mut pairs = Vec::new(alloc);
    for first in 0..k {
        let Some(second) = partner_of(k, wave, first) else {
            continue;
        };
        if cut.touch(h, p, first, second) {
            let room = room_of(p, first).saturating_add(room_of(p, second));
            let length = cut.len_of(first).saturating_add(cut.len_of(second));
            pairs.push((Reverse((room, length)), first))?;
        }
    }
    pairs.sort_unstable();
    Ok(pairs)
}
