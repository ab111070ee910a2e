//! The gains of a vertex, as they are read off the shared table.
//!
//! Other workers move while they are read, so they may be off. They decide what is tried, and nothing else.

ghost use Rattle.std.specs.Prelude.{◌≡◌, ◌≢◌, ◌+◌, ◌*◌, ◌<◌, ◌≤◌, ◌^◌, ◌⊎◌, IfSome, length};
ghost use Rattle.hg_defs.specs.Hypergraph.{vertex_count, net_count, net_of};
ghost use Rattle.hg_base.specs.Packed.{IsWidth};
ghost use Rattle.pin_plain.specs.Counts.{net_words};
ghost use Rattle.fm_search.specs.Standing.{IsOf};

use crate::cells::{Cell, Scored, Used, share};
use crate::mover::Mover;
use crate::shared::Shared;
use hg_base::{field, words_of};
use incidence::Hypergraph;

/// The neighbours through nets of more pins aren't looked at.
pub(crate) const MOST_PINS: usize = 1000;

/// A net is read by its words where these are at most so many for each of its pins, and else by its pins.
pub(crate) const WORDS_A_PIN: u32 = 4;

/// Where a vertex gains most.
#[derive(Clone, Copy)]
pub(crate) struct Choice {
    pub(crate) to: u32,
    /// How many nets of the vertex have a pin there.
    pub(crate) nets: u32,
    pub(crate) gain: i64,
    pub(crate) pull: i64,
}

/// A net of a pin at least.
pub(crate) fn scored(h: &Hypergraph, e: u32) -> Scored
    requires net { e < net_count h.now }
    requires pins { 1 ≤ length (net_of h.now e).pins }
    ensures others { result.others + 1 ≡ length (net_of h.now e).pins }
{
    Scored {
        objective: h.objective(),
        weight: h.net_weight(e),
        others: h.pins(e).len() as u64 - 1,
    }
}

/// A net that is entered into the row of a vertex in `block`.
#[derive(Clone, Copy)]
pub(crate) struct Entered {
    pub(crate) net: Scored,
    pub(crate) share: i64,
    pub(crate) block: u32,
}

/// Enters a net into the cell of one block.
pub(crate) fn enter(row: &mut [Cell], used: &mut Used, entered: &Entered, b: u32, count: u64)
    requires few { length row.old ≤ 256 }
    requires block { b < length row.old }
    ensures same { length row.new ≡ length row.old }
{
    used.reach(row, b);
    let cell = &mut row[b as usize];
    if b == entered.block {
        cell.enter_own(&entered.net, entered.share, count);
    } else {
        cell.enter(&entered.net, entered.share, count);
    }
}

/// Enters a net by the blocks of its pins.
fn read_pins(
    shared: &Shared<'_>,
    mover: &mut Mover,
    row: &mut [Cell],
    used: &mut Used,
    entered: &Entered,
    e: u32,
)
    requires belongs { IsOf shared.now.round.now mover.old }
    requires row { length row.old ≡ shared.now.k }
    requires net { e < net_count shared.now.h.now }
    ensures mover { mover.new ≡ mover.old }
    ensures row { length row.new ≡ length row.old }
{
    'pins: for u in shared.h.pins(e) {
        let b = mover.block(shared.round, *u);
        used.reach(row, b);
        if row[b as usize].last != e {
            row[b as usize].last = e;
            let count = mover.count(shared.round, e, b);
            enter(row, used, entered, b, count);
        }
    }
}

/// Enters a net into the cells of the blocks from the first on, whose counts are the fields of a word. Tells how
/// many of them aren't 0.
fn enter_word(
    row: &mut [Cell],
    used: &mut Used,
    entered: &Entered,
    word: u64,
    bits: u32,
    first: u32,
) -> i64
    requires width { IsWidth bits }
    requires first { first < 2 ^ 16 }
    requires few { length row.old ≤ 256 }
    ensures same { length row.new ≡ length row.old }
{
    let mut found = 0i64;
    let mut left = word;
    'fields: for place in 0..8 {
        if left == 0 {
            break;
        }
        let count = field(left, bits, 0);
        let b = first + place;
        if count > 0 && (b as usize) < row.len() {
            enter(row, used, entered, b, count);
            found = found.wrapping_add(1);
        }
        left >>= bits;
    }
    found
}

/// Enters a net by the words of its counts, until as many blocks are found as it seems to touch.
fn read_words(
    shared: &Shared<'_>,
    mover: &mut Mover,
    row: &mut [Cell],
    used: &mut Used,
    entered: &Entered,
    e: u32,
    words: u32,
    spread: i64,
)
    requires belongs { IsOf shared.now.round.now mover.old }
    requires row { length row.old ≡ shared.now.k }
    requires net { e < net_count shared.now.h.now }
    requires words { words ≡ net_words shared.now.h.now shared.now.k e }
    ensures mover { mover.new ≡ mover.old }
    ensures row { length row.new ≡ length row.old }
{
    let bits = shared.round.count_bits(e);
    let fields = 64 / bits;
    let mut found = 0i64;
    'words: for index in 0..words {
        let word = mover.counts(shared.round, e, index);
        if word != 0 {
            let more = enter_word(row, used, entered, word, bits, index * fields);
            found = found.wrapping_add(more);
            if found >= spread {
                return;
            }
        }
    }
}

/// Enters a net of a vertex in `block`.
fn read_net(
    shared: &Shared<'_>,
    mover: &mut Mover,
    row: &mut [Cell],
    used: &mut Used,
    e: u32,
    block: u32,
)
    requires belongs { IsOf shared.now.round.now mover.old }
    requires row { length row.old ≡ shared.now.k }
    requires net { e < net_count shared.now.h.now }
    requires block { block < shared.now.k }
    ensures mover { mover.new ≡ mover.old }
    ensures row { length row.new ≡ length row.old }
{
    let size = shared.h.pins(e).len() as u32;
    if size < 2 {
        return;
    }
    let net = scored(shared.h, e);
    let share = share(&net);
    let spread = mover.spread(shared.round, e);
    if spread <= 1 {
        row[block as usize].enter_own(&net, share, u64::from(size));
        return;
    }
    let entered = Entered { net, share, block };
    let words = words_of(size, shared.k);
    if words <= WORDS_A_PIN * size {
        read_words(shared, mover, row, used, &entered, e, words, spread);
    } else {
        read_pins(shared, mover, row, used, &entered, e);
    }
}

/// Enters all nets of a vertex in `block` into its row, in which no cell is used. That of its own block is then.
pub(crate) fn read_vertex(
    shared: &Shared<'_>,
    mover: &mut Mover,
    row: &mut [Cell],
    used: &mut Used,
    v: u32,
    block: u32,
)
    requires belongs { IsOf shared.now.round.now mover.old }
    requires row { length row.old ≡ shared.now.k }
    requires vertex { v < vertex_count shared.now.h.now }
    requires block { block < shared.now.k }
    ensures mover { mover.new ≡ mover.old }
{
    used.reach(row, block);
    'nets: for e in shared.h.nets_of(v) {
        read_net(shared, mover, row, used, *e, block);
    }
}

/// Peeks at the nets of a vertex that is read soon. The loads don't wait for each other, as they do where it is read.
pub(crate) fn approach(shared: &Shared<'_>, mover: &mut Mover, v: u32)
    requires belongs { IsOf shared.now.round.now mover.old }
    requires vertex { v < vertex_count shared.now.h.now }
    ensures { mover.new ≡ mover.old }
{
    'nets: for e in shared.h.nets_of(v) {
        if shared.h.net_weight(*e) > 0 && shared.h.pins(*e).len() >= 2 {
            let _ = mover.spread(shared.round, *e);
        }
    }
}

/// The higher one of the best choice so far and a block, where that has room.
fn higher(
    shared: &Shared<'_>,
    mover: &mut Mover,
    best: Option<Choice>,
    choice: Choice,
    weight: u64,
) -> Option<Choice>
    requires belongs { IsOf shared.now.round.now mover.old }
    requires block { choice.to < shared.now.k }
    ensures same { mover.new ≡ mover.old }
    ensures one { (result ≡ best) ⊎ (result ≡ Some choice) }
{
    if let Some(b) = best {
        if choice.gain <= b.gain {
            return best;
        }
    }
    let room = shared
        .limit
        .saturating_sub(mover.load(shared.round, choice.to));
    if weight > room {
        return best;
    }
    Some(choice)
}

/// The block of the highest gain of a vertex in `block`, among the others where its nets have a pin and that
/// have room for it; the lowest one at a tie.
pub(crate) fn best_block(
    shared: &Shared<'_>,
    mover: &mut Mover,
    row: &[Cell],
    used: &Used,
    v: u32,
    block: u32,
) -> Option<Choice>
    requires belongs { IsOf shared.now.round.now mover.old }
    requires row { length row.now ≡ shared.now.k }
    requires vertex { v < vertex_count shared.now.h.now }
    requires block { block < shared.now.k }
    ensures same { mover.new ≡ mover.old }
    ensures block { IfSome result (λ c. c.to < shared.now.k) }
    ensures other { IfSome result (λ c. c.to ≢ block) }
{
    let own = row[block as usize];
    let weight = shared.h.vertex_weight(v);
    let mut best: Option<Choice> = None;
    let mut from = 0u32;
    'places: for _ in 0..shared.k {
        let Some(b) = used.next(from, shared.k) else {
            break;
        };
        from = b + 1;
        let cell = row[b as usize];
        if b != block && cell.nets > 0 {
            let choice = Choice {
                to: b,
                nets: cell.nets,
                gain: cell.weight.wrapping_sub(own.weight),
                pull: cell.pull.wrapping_sub(own.pull),
            };
            best = higher(shared, mover, best, choice, weight);
        }
    }
    best
}
