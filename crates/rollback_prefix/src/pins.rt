//! The pins of one net while moves are replayed.

ghost use Rattle.std.specs.Prelude.{◌≡◌, ◌≢◌, ℕ, ◌+◌, ◌-◌, ◌*◌, ◌<◌, ◌≤◌, ◌^◌, All, AllPairs, Contains, OnOk};
ghost use Rattle.std.specs.Prelude.{length, map, slice_index, slice_index_or, pos, ◌+ℤ◌};
ghost use Rattle.std.specs.List.Sorted.{IsStrictlyIncreasing};
ghost use Rattle.hg_defs.specs.Hypergraph.{net_count, net_of};
ghost use Rattle.hg_defs.specs.Partition.{block_of};
ghost use Rattle.rollback_prefix.specs.Gains.{IsReplay, AreSmall, saved_by_net};
ghost use Rattle.rollback_prefix.specs.Pins.{AreZeros, ArePlacesAt, ArePinMoves, CountsPins, counted, counts_after};

use hg_base::{Move, NoMemory, price};
use incidence::Hypergraph;

/// Finds the places of the moves that move one of the pins, in rising order. The order tells, for
/// each vertex, one more than the place of its move, or 0.
pub fn find_places(pins: &[u32], order: &[u32], places: &mut Vec<u32>) -> Result<(), NoMemory>
    requires pins { All (λ v. v < length order.now) pins.now }
    requires rising { IsStrictlyIncreasing pins.now }
    requires once { (u v : ℕ) → 0 < slice_index order.now u → slice_index order.now u ≡ slice_index order.now v →
        u ≡ v }
    ensures { OnOk result (ArePlacesAt pins.now order.now places.new.items) }
{
    places.clear();
    for v in pins {
        let place = order[*v as usize];
        if place > 0 {
            places.push(place - 1)?;
        }
    }
    places.sort_unstable();
    Ok(())
}

/// Counts the pins in each block, and answers how many blocks have one.
fn count_pins(blocks: &[u32], pins: &[u32], counts: &mut [u32]) -> u64
    requires pins { All (λ v. v < length blocks.now) pins.now }
    requires few { length pins.now ≤ 2 ^ 25 }
    requires blocks { All (λ b. b < length counts.old) blocks.now }
    requires all { length counts.old ≤ 256 }
    requires zeros { AreZeros counts.old }
    ensures counts { CountsPins (length counts.old) blocks.now pins.now counts.new }
    ensures touched { result ≡ counted counts.new }
{
    let mut touched = 0;
    for v in pins {
        let block = blocks[*v as usize] as usize;
        touched += u64::from(counts[block] == 0);
        counts[block] += 1;
    }
    touched
}

/// Counts a pin in another block than before, and answers how many blocks have one then.
fn shift_pin(counts: &mut [u32], touched: u64, from: u32, to: u32) -> u64
    requires from { from < length counts.old }
    requires to { to < length counts.old }
    requires pin { 0 < slice_index counts.old from }
    requires room { slice_index counts.old to + 1 < 2 ^ 32 }
    requires few { length counts.old ≤ 256 }
    requires touched { touched ≡ counted counts.old }
    ensures counts { counts.new ≡ counts_after counts.old from to }
    ensures touched { result ≡ counted counts.new }
{
    let joined = touched + u64::from(counts[to as usize] == 0);
    counts[to as usize] += 1;
    counts[from as usize] -= 1;
    joined - u64::from(counts[from as usize] == 0)
}

/// Forgets the counts of the blocks of the pins.
fn clear_blocks(blocks: &[u32], pins: &[u32], counts: &mut [u32])
    requires pins { All (λ v. v < length blocks.now) pins.now }
    requires blocks { All (λ b. b < length counts.old) blocks.now }
    ensures zeros { (i : ℕ) → i < length pins.now →
        slice_index counts.new (block_of blocks.now (slice_index pins.now i)) ≡ 0 }
    ensures others { (b : ℕ) → slice_index counts.new b ≤ slice_index counts.old b }
{
    for v in pins {
        counts[blocks[*v as usize] as usize] = 0;
    }
}

/// Forgets the counts of the blocks to which the moves of these places go.
fn clear_targets(moves: &[Move], places: &[u32], counts: &mut [u32])
    requires places { All (λ i. i < length moves.now) places.now }
    requires blocks { All (λ m. m.to < length counts.old) moves.now }
    ensures zeros { (i : ℕ) (d : Move) → i < length places.now →
        slice_index counts.new (slice_index_or moves.now (slice_index places.now i) d).to ≡ 0 }
    ensures others { (b : ℕ) → slice_index counts.new b ≤ slice_index counts.old b }
{
    for place in places {
        counts[moves[*place as usize].to as usize] = 0;
    }
}

/// Adds to each gain what one net saves by its move, as the moves are replayed from the blocks. The
/// counts are zeros for the blocks before and afterwards.
pub fn add_net(
    h: &Hypergraph,
    blocks: &[u32],
    moves: &[Move],
    e: u32,
    places: &[u32],
    counts: &mut [u32],
    gains: &mut [i64],
)
    requires replay { IsReplay h.now (length counts.old) blocks.now moves.now }
    requires net { e < net_count h.now }
    requires places { ArePinMoves (net_of h.now e).pins moves.now places.now }
    requires zeros { AreZeros counts.old }
    requires gains { length gains.old ≡ length moves.now }
    requires small { AreSmall gains.old }
    ensures zeros { AreZeros counts.new }
    ensures gains { (i : ℕ) → i < length moves.now
        → slice_index_or gains.new i (pos 0) ≡ slice_index_or gains.old i (pos 0) +ℤ saved_by_net h.now blocks.now
        moves.now e i }
{
    let pins = h.pins(e);
    let (weight, objective) = (h.net_weight(e), h.objective());
    let mut touched = count_pins(blocks, pins, counts);
    for place in places {
        let step = moves[*place as usize];
        let before = weight * price(objective, touched);
        touched = shift_pin(counts, touched, step.from, step.to);
        let after = weight * price(objective, touched);
        gains[*place as usize] += before as i64 - after as i64;
    }
    clear_blocks(blocks, pins, counts);
    clear_targets(moves, places, counts);
}
