ghost use Rattle.std.specs.Prelude.{◌≡◌, ◌+◌, ◌^◌, ◌<◌, ◌+ℤ◌, ◌&&◌, not, nat_eq, FitsSigned};
ghost use Rattle.std.specs.Int.{w64};
ghost use Rattle.move_core.specs.Stages.{vertex_at, from_at, to_at, raised_at, lowered_at, booked_at, is_idle};
ghost use Rattle.move_core.specs.Stages.{is_reserved, is_granted, is_moving, owes_nothing, owes_up, owes_down};
ghost use Rattle.move_core.specs.Stages.{drawn_stage, named_stage, raised_stage, lowered_stage, booked_stage};

use hg_defs::Move;
use std::collections::LinkedList;

/// What a pass has still to book for the net that it changed last.
#[derive(Clone, Copy, Debug, PartialEq, Eq)]
pub enum Owed {
    /// Nothing.
    Nothing,
    /// That the net has one block more.
    Up,
    /// That the net has one block less.
    Down,
}

/// Where a pass stands.
#[derive(Clone, Copy, Debug, PartialEq, Eq)]
pub enum Stage {
    /// Between two moves.
    Idle,
    /// It found the load `seen`, with no room for the vertex, and has still to take its weight back.
    Refused {
        vertex: u32,
        to: u32,
        seen: u64,
    },
    /// It found the load `seen`, with room for the vertex.
    Granted {
        vertex: u32,
        from: u32,
        to: u32,
        seen: u64,
    },
    /// In the middle of a move: counted in the new block on the first `raised` of the vertex's nets,
    /// and no longer in the old one on the first `lowered`.
    Moving {
        vertex: u32,
        from: u32,
        to: u32,
        number: u64,
        named: bool,
        raised: u32,
        lowered: u32,
        owed: Owed,
        booked: i64,
    },
}

/// The account of a pass. It is what contracts see of a pass; no value of it is made.
pub struct Account {
    /// Whether the pass may still step.
    pub live: bool,
    /// The vertices that it holds, in rising number.
    pub held: LinkedList<u32>,
    /// Where it stands.
    pub stage: Stage,
    /// The moves that it has done.
    pub moves: LinkedList<Move>,
    /// The number drawn for each of them.
    pub numbers: LinkedList<u64>,
    /// How many seeds it has drawn.
    pub seeds: u64,
    /// The sum of all that it has booked.
    pub gain: i64,
}

impl Owed {
    pub(crate) fn is_nothing(self) -> bool
        ensures { result ≡ owes_nothing self }
    {
        match self {
            Owed::Nothing => true,
            Owed::Up | Owed::Down => false,
        }
    }

    fn is_up(self) -> bool
        ensures { result ≡ owes_up self }
    {
        match self {
            Owed::Up => true,
            Owed::Nothing | Owed::Down => false,
        }
    }

    fn is_down(self) -> bool
        ensures { result ≡ owes_down self }
    {
        match self {
            Owed::Down => true,
            Owed::Nothing | Owed::Up => false,
        }
    }
}

impl Stage {
    // The parts of a stage, 0 where it has none.

    pub(crate) fn vertex(self) -> u32
        ensures { result ≡ vertex_at self }
    {
        match self {
            Stage::Idle => 0,
            Stage::Refused { vertex, .. } => vertex,
            Stage::Granted { vertex, .. } => vertex,
            Stage::Moving { vertex, .. } => vertex,
        }
    }

    pub(crate) fn to(self) -> u32
        ensures { result ≡ to_at self }
    {
        match self {
            Stage::Idle => 0,
            Stage::Refused { to, .. } => to,
            Stage::Granted { to, .. } => to,
            Stage::Moving { to, .. } => to,
        }
    }

    pub(crate) fn from(self) -> u32
        ensures { result ≡ from_at self }
    {
        match self {
            Stage::Idle => 0,
            Stage::Refused { .. } => 0,
            Stage::Granted { from, .. } => from,
            Stage::Moving { from, .. } => from,
        }
    }

    pub(crate) fn raised_nets(self) -> u32
        ensures { result ≡ raised_at self }
    {
        match self {
            Stage::Moving { raised, .. } => raised,
            Stage::Idle | Stage::Refused { .. } | Stage::Granted { .. } => 0,
        }
    }

    pub(crate) fn lowered_nets(self) -> u32
        ensures { result ≡ lowered_at self }
    {
        match self {
            Stage::Moving { lowered, .. } => lowered,
            Stage::Idle | Stage::Refused { .. } | Stage::Granted { .. } => 0,
        }
    }

    pub(crate) fn is_idle(self) -> bool
        ensures { result ≡ is_idle self }
    {
        match self {
            Stage::Idle => true,
            Stage::Refused { .. } | Stage::Granted { .. } | Stage::Moving { .. } => false,
        }
    }

    // The tests on a stage.

    pub(crate) fn is_reserved(self) -> bool
        ensures { result ≡ is_reserved self }
    {
        match self {
            Stage::Refused { .. } | Stage::Granted { .. } => true,
            Stage::Idle | Stage::Moving { .. } => false,
        }
    }

    pub(crate) fn is_granted(self) -> bool
        ensures { result ≡ is_granted self }
    {
        match self {
            Stage::Granted { .. } => true,
            Stage::Idle | Stage::Refused { .. } | Stage::Moving { .. } => false,
        }
    }

    pub(crate) fn is_unnamed(self) -> bool
        ensures { result ≡ is_moving (λ named raised lowered owed. not named) self }
    {
        match self {
            Stage::Moving { named, .. } => !named,
            Stage::Idle | Stage::Refused { .. } | Stage::Granted { .. } => false,
        }
    }

    pub(crate) fn is_lowering(self) -> bool
        ensures { result ≡ is_moving (λ named raised lowered owed. owes_nothing owed && nat_eq raised (lowered + 1))
            self }
    {
        match self {
            Stage::Moving {
                raised,
                lowered,
                owed,
                ..
            } => owed.is_nothing() && u64::from(raised) == u64::from(lowered) + 1,
            Stage::Idle | Stage::Refused { .. } | Stage::Granted { .. } => false,
        }
    }

    pub(crate) fn owes_up(self) -> bool
        ensures { result ≡ is_moving (λ named raised lowered owed. owes_up owed) self }
    {
        match self {
            Stage::Moving { owed, .. } => owed.is_up(),
            Stage::Idle | Stage::Refused { .. } | Stage::Granted { .. } => false,
        }
    }

    pub(crate) fn owes_down(self) -> bool
        ensures { result ≡ is_moving (λ named raised lowered owed. owes_down owed) self }
    {
        match self {
            Stage::Moving { owed, .. } => owed.is_down(),
            Stage::Idle | Stage::Refused { .. } | Stage::Granted { .. } => false,
        }
    }

    // What becomes of a stage.

    pub(crate) fn drawn(self, number: u64) -> Self
        ensures { result ≡ drawn_stage number self }
    {
        match self {
            Stage::Granted {
                vertex,
                from,
                to,
                ..
            } => Stage::Moving {
                vertex,
                from,
                to,
                number,
                named: false,
                raised: 0,
                lowered: 0,
                owed: Owed::Nothing,
                booked: 0,
            },
            Stage::Idle | Stage::Refused { .. } | Stage::Moving { .. } => self,
        }
    }

    pub(crate) fn named(self) -> Self
        ensures { result ≡ named_stage self }
    {
        match self {
            Stage::Moving {
                vertex,
                from,
                to,
                number,
                raised,
                lowered,
                owed,
                booked,
                ..
            } => Stage::Moving {
                vertex,
                from,
                to,
                number,
                named: true,
                raised,
                lowered,
                owed,
                booked,
            },
            Stage::Idle | Stage::Refused { .. } | Stage::Granted { .. } => self,
        }
    }

    pub(crate) fn raised(self, found: u64) -> Self
        requires { raised_at self + 1 < 2 ^ 32 }
        ensures { result ≡ raised_stage found self }
    {
        match self {
            Stage::Moving {
                vertex,
                from,
                to,
                number,
                named,
                raised,
                lowered,
                owed,
                booked,
            } => Stage::Moving {
                vertex,
                from,
                to,
                number,
                named,
                raised: raised + 1,
                lowered,
                owed: if found == 0 { Owed::Up } else { owed },
                booked,
            },
            Stage::Idle | Stage::Refused { .. } | Stage::Granted { .. } => self,
        }
    }

    pub(crate) fn lowered(self, found: u64) -> Self
        requires { lowered_at self + 1 < 2 ^ 32 }
        ensures { result ≡ lowered_stage found self }
    {
        match self {
            Stage::Moving {
                vertex,
                from,
                to,
                number,
                named,
                raised,
                lowered,
                owed,
                booked,
            } => Stage::Moving {
                vertex,
                from,
                to,
                number,
                named,
                raised,
                lowered: lowered + 1,
                owed: if found == 1 { Owed::Down } else { owed },
                booked,
            },
            Stage::Idle | Stage::Refused { .. } | Stage::Granted { .. } => self,
        }
    }

    pub(crate) fn booked(self, gain: i64) -> Self
        requires { FitsSigned w64 (booked_at self +ℤ gain) }
        ensures { result ≡ booked_stage gain self }
    {
        match self {
            Stage::Moving {
                vertex,
                from,
                to,
                number,
                named,
                raised,
                lowered,
                booked,
                ..
            } => Stage::Moving {
                vertex,
                from,
                to,
                number,
                named,
                raised,
                lowered,
                owed: Owed::Nothing,
                booked: booked + gain,
            },
            Stage::Idle | Stage::Refused { .. } | Stage::Granted { .. } => self,
        }
    }
}
