//! What a search knows of a vertex: a cell for each block.
//!
//! Sums and products wrap: all nets weigh less than 2^54 together, so none of them comes near the end of 64
//! bits, and they decide nothing but which move is tried.

ghost use Rattle.std.specs.Prelude.{◌≡◌, ◌*◌, ◌<◌, ◌≤◌, IfSome, length};

use hg_base::Objective;

/// Pulls are counted in shares of the weight of a net, which is cut into so many first.
const SHARES: u64 = 512;

/// No net has this number.
pub(crate) const NO_NET: u32 = u32::MAX;

/// What a search knows of a vertex and one block.
#[derive(Clone, Copy)]
pub(crate) struct Cell {
    /// What its nets save where it goes to the block. In its own block: what they lose where it leaves.
    pub(crate) weight: i64,
    /// How strongly the other pins of its nets hold or pull it there.
    pub(crate) pull: i64,
    /// How many of its nets have a pin in the block. In its own block: 0, since it can't go there.
    pub(crate) nets: u32,
    /// The net that was entered last.
    pub(crate) last: u32,
}

/// A cell in which no net is entered.
pub(crate) const BLANK: Cell = Cell {
    weight: 0,
    pull: 0,
    nets: 0,
    last: NO_NET,
};

/// A net, as its pins are told of it.
#[derive(Clone, Copy)]
pub(crate) struct Scored {
    pub(crate) objective: Objective,
    pub(crate) weight: u64,
    /// How many pins there are beside the one that moves.
    pub(crate) others: u64,
}

/// How strongly each of the other pins of a net of two at least pulls.
pub(crate) fn share(net: &Scored) -> i64
    requires { 0 < net.now.others }
{
    (net.weight.wrapping_mul(SHARES) / net.others).cast_signed()
}

/// What a net saves where one of its pins goes to a block with `count` of its other pins.
pub(crate) fn saved(net: &Scored, count: u64) -> i64 {
    let present = i64::from(count > 0);
    let joined = i64::from(count == net.others);
    let price = match net.objective {
        Objective::Connectivity => present,
        Objective::CutNet => joined,
        Objective::ExternalDegree => present.wrapping_add(joined),
    };
    net.weight.cast_signed().wrapping_mul(price)
}

/// What a net loses where one of its pins leaves a block with `count` of its pins.
pub(crate) fn lost(net: &Scored, count: u64) -> i64 {
    let left = i64::from(count > 1);
    let parted = i64::from(count > net.others);
    let price = match net.objective {
        Objective::Connectivity => left,
        Objective::CutNet => parted,
        Objective::ExternalDegree => left.wrapping_add(parted),
    };
    net.weight.cast_signed().wrapping_mul(price)
}

impl Cell {
    /// Enters a net with so many of its pins in the block, each of which pulls with its share.
    pub(crate) fn enter(&mut self, net: &Scored, share: i64, count: u64) {
        self.weight = self.weight.wrapping_add(saved(net, count));
        self.pull = self
            .pull
            .wrapping_add(share.wrapping_mul(count.cast_signed()));
        self.nets = self.nets.wrapping_add(1);
    }

    /// Enters a net with so many of its pins in the vertex's own block, itself among them.
    pub(crate) fn enter_own(&mut self, net: &Scored, share: i64, count: u64) {
        self.weight = self.weight.wrapping_add(lost(net, count));
        let others = count.saturating_sub(1).cast_signed();
        self.pull = self.pull.wrapping_add(share.wrapping_mul(others));
    }
}

/// Where a row of cells starts.
pub(crate) fn start_of(row: u32, k: u32) -> usize
    requires { k ≤ 256 }
    ensures { result ≡ row * k }
{
    row as usize * k as usize
}

/// The cells of the blocks that a vertex may know of, as bits; the others are blank, whatever stands in them.
#[derive(Clone, Copy)]
pub(crate) struct Used {
    words: [u64; 4],
}

impl Used {
    /// No cell is used yet.
    pub(crate) fn none() -> Self {
        Used { words: [0; 4] }
    }

    /// All cells are used.
    pub(crate) fn all() -> Self {
        Used {
            words: [u64::MAX; 4],
        }
    }

    /// The first block from a number on, and below another one, that is used.
    pub(crate) fn next(&self, from: u32, end: u32) -> Option<u32>
        requires { end ≤ 256 }
        ensures { IfSome result (λ b. b < end) }
    {
        let mut first = from;
        'words: for _ in 0..4 {
            if first >= end {
                break;
            }
            let word = self.words[first as usize / 64] >> (first % 64);
            if word != 0 {
                let b = first + word.trailing_zeros();
                return if b < end { Some(b) } else { None };
            }
            first = (first / 64 + 1) * 64;
        }
        None
    }

    /// Uses the cell of a block, which is blanked first where it wasn't used.
    pub(crate) fn reach(&mut self, row: &mut [Cell], b: u32)
        requires few { length row.old ≤ 256 }
        requires block { b < length row.old }
        ensures same { length row.new ≡ length row.old }
    {
        let place = b as usize / 64;
        let bit = 1u64 << (b % 64);
        if self.words[place] & bit == 0 {
            self.words[place] |= bit;
            row[b as usize] = BLANK;
        }
    }
}
