//! What a round leaves.

ghost use Rattle.std.specs.Prelude.{◌≡◌, ◌<◌, ◌^◌};
ghost use Rattle.hg_defs.specs.Cost.{cost};
ghost use Rattle.move_table.specs.Closing.{IsRacedEnd};

use hg_base::{Gains, Move};
use pin_plain::Partition;
use round_log::Moves;
use std::marker::Model;
use std::snapshot::Snapshot;

/// A closed round: the partition after its moves, the moves in the order of their numbers, and what
/// each pass booked. Only [`Round::close`](crate::Round::close) makes one.
#[derive(Drop)]
pub struct Closed {
    pub(crate) opening: Snapshot<Partition>,
    pub(crate) opening_cost: u64,
    pub(crate) part: Partition,
    pub(crate) moves: Moves,
    pub(crate) gains: Gains,
}

/// What a closed round gives away.
#[derive(Drop)]
pub struct RaceParts {
    /// The partition after all moves.
    pub part: Partition,
    /// The moves, in the order of the numbers that were drawn for them.
    pub moves: Moves,
    /// What each pass booked, by rising number.
    pub gains: Gains,
}

impl Model for Closed {
    ghost use Rattle.std.specs.Prelude.{◌≡◌};
    ghost use Rattle.hg_defs.specs.Cost.{cost};
    ghost use Rattle.move_table.specs.Closing.{RacedEnd, IsRacedEnd};

    ghost Value = { RacedEnd };

    ghost view = { λ c. record { opening = c.opening.value.blocks; part = c.part; moves = c.moves; gains = c.gains } };

    ghost invariant = { λ c. IsRacedEnd (record {
      opening = c.opening.value.blocks;
      part = c.part;
      moves = c.moves;
      gains = c.gains;
    }) × (c.opening_cost ≡ cost c.part.hyper c.opening.value.blocks) };
}

impl Closed {
    /// The partition after all moves.
    pub fn part(&self) -> &Partition
        ensures value { result.now ≡ self.now.part }
        ensures raced { IsRacedEnd self.now }
    {
        &self.part
    }

    /// The moves, in the order of the numbers that were drawn for them.
    pub fn moves(&self) -> &[Move]
        ensures { result.now ≡ self.now.moves }
    {
        self.moves.slice()
    }

    /// What each pass booked, by rising number.
    pub fn gains(&self) -> &[i64]
        ensures { result.now ≡ self.now.gains }
    {
        self.gains.slice()
    }

    /// The cost at the opening, which was added up there.
    pub fn opening_cost(&self) -> u64
        ensures value { result ≡ cost self.now.part.hyper self.now.opening }
        ensures bound { result < 2 ^ 57 }
    {
        let _parted = self.part.blocks();
        self.opening_cost
    }

    /// Gives the partition.
    pub fn into_part(self) -> Partition
        ensures { result ≡ self.part }
    {
        self.part
    }

    /// Gives the partition, the moves and the gains, in the same memory.
    pub fn into_parts(self) -> RaceParts
        ensures part { result.part ≡ self.part }
        ensures moves { result.moves ≡ self.moves }
        ensures gains { result.gains ≡ self.gains }
        ensures raced { IsRacedEnd self }
    {
        let Closed {
            opening: _,
            opening_cost: _,
            part,
            moves,
            gains,
        } = self;
        RaceParts { part, moves, gains }
    }
}
