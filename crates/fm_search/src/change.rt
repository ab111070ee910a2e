//! What a move changes for the other pins of a net.

ghost use Rattle.std.specs.Prelude.{◌≡◌, ◌<◌, ◌≤◌, length};

use crate::cells::{Cell, Scored, Used, lost, saved, share};

/// What a move of one pin changes for the others, by the block that the pin left and the one where it went.
#[derive(Clone, Copy)]
pub(crate) struct Change {
    from: u32,
    to: u32,
    /// What they save more where they go to the one or the other.
    saved_from: i64,
    saved_to: i64,
    /// What they lose more where they leave the one or the other.
    lost_from: i64,
    lost_to: i64,
    /// How strongly the pin that moved pulls each of them.
    share: i64,
    /// Whether no pin is left in the one, and whether this pin is the first in the other.
    closed: bool,
    opened: bool,
}

impl Change {
    /// The change where a pin moved, after which so many pins are in the two blocks.
    pub(crate) fn of(net: &Scored, from: u32, to: u32, from_count: u64, to_count: u64) -> Self
        requires { 0 < net.now.others }
        ensures from { result.from ≡ from }
        ensures to { result.to ≡ to }
    {
        let before = from_count.saturating_add(1);
        let fewer = to_count.saturating_sub(1);
        Change {
            from,
            to,
            saved_from: saved(net, from_count).wrapping_sub(saved(net, before)),
            saved_to: saved(net, to_count).wrapping_sub(saved(net, fewer)),
            lost_from: lost(net, from_count).wrapping_sub(lost(net, before)),
            lost_to: lost(net, to_count).wrapping_sub(lost(net, fewer)),
            share: share(net),
            closed: from_count == 0,
            opened: to_count == 1,
        }
    }

    /// Whether no gain changes for the other pins, though what pulls them may.
    pub(crate) fn is_nothing(&self) -> bool {
        self.saved_from == 0
            && self.saved_to == 0
            && self.lost_from == 0
            && self.lost_to == 0
            && !self.closed
            && !self.opened
    }

    /// Changes the cells of a pin in `block`.
    pub(crate) fn adjust(&self, row: &mut [Cell], used: &mut Used, block: u32)
        requires few { length row.old ≤ 256 }
        requires from { self.now.from < length row.old }
        requires to { self.now.to < length row.old }
    {
        used.reach(row, self.from);
        used.reach(row, self.to);
        let left = &mut row[self.from as usize];
        left.pull = left.pull.wrapping_sub(self.share);
        if block == self.from {
            left.weight = left.weight.wrapping_add(self.lost_from);
        } else {
            left.weight = left.weight.wrapping_add(self.saved_from);
            left.nets = left.nets.saturating_sub(u32::from(self.closed));
        }
        let entered = &mut row[self.to as usize];
        entered.pull = entered.pull.wrapping_add(self.share);
        if block == self.to {
            entered.weight = entered.weight.wrapping_add(self.lost_to);
        } else {
            entered.weight = entered.weight.wrapping_add(self.saved_to);
            entered.nets = entered.nets.saturating_add(u32::from(self.opened));
        }
    }

    /// Whether one of the gains of a pin in `block` may have risen.
    pub(crate) fn raises(&self, block: u32) -> bool {
        let freed = if block == self.from {
            self.lost_from < 0
        } else {
            self.saved_from > 0
        };
        let drawn = if block == self.to {
            self.lost_to < 0
        } else {
            self.opened || self.saved_to > 0
        };
        freed || drawn
    }
}
