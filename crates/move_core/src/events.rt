ghost use Rattle.std.specs.Prelude.{◌≡◌};
ghost use Rattle.move_core.specs.Events.{pass_of, word_net};

/// One step of one pass on one word.
#[derive(Clone, Copy, Debug, PartialEq, Eq)]
pub enum Event {
    /// The pass tries to take the vertex.
    Claim { pass: u32, vertex: u32 },
    /// The pass gives the vertex back unmoved.
    Unclaim { pass: u32, vertex: u32 },
    /// The pass adds the vertex's weight to the load of the block `to`.
    Reserve { pass: u32, vertex: u32, to: u32 },
    /// The pass takes back the weight that it added last.
    TakeBack { pass: u32 },
    /// The pass draws the number of its move.
    Draw { pass: u32 },
    /// The pass writes the vertex's new block.
    Name { pass: u32 },
    /// The pass adds its vertex to the pin count of a net in the new block.
    Raise { pass: u32 },
    /// The pass books that the net has one block more.
    Widen { pass: u32 },
    /// The pass takes its vertex off the pin count of the same net in the old block.
    Lower { pass: u32 },
    /// The pass books that the net has one block less.
    Narrow { pass: u32 },
    /// The pass takes the vertex's weight off the load of the old block, and the move is done.
    GiveBack { pass: u32 },
    /// The pass draws a seed.
    Seed { pass: u32 },
    /// The pass reads a word.
    Peek { pass: u32, word: Word },
    /// The pass makes a new pass.
    Split { pass: u32 },
    /// The pass takes over what `other` has, and `other` ends.
    Join { pass: u32, other: u32 },
}

/// A word of a round.
#[derive(Clone, Copy, Debug, PartialEq, Eq)]
pub enum Word {
    /// 1 where a pass has the vertex, and else 0.
    Claim(u32),
    /// The block of the vertex.
    Name(u32),
    /// The weight in the block, with all that is reserved there.
    Load(u32),
    /// The pins of the net in the block, the net first.
    Count(u32, u32),
    /// 64 more than the number of blocks of the net.
    Spread(u32),
    /// The number of the next move.
    Next,
    /// The next seed.
    Cursor,
}

impl Event {
    /// The pass that makes the event.
    pub(crate) fn pass(self) -> u32
        ensures { result ≡ pass_of self }
    {
        match self {
            Event::Claim { pass, .. } => pass,
            Event::Unclaim { pass, .. } => pass,
            Event::Reserve { pass, .. } => pass,
            Event::TakeBack { pass } => pass,
            Event::Draw { pass } => pass,
            Event::Name { pass } => pass,
            Event::Raise { pass } => pass,
            Event::Widen { pass } => pass,
            Event::Lower { pass } => pass,
            Event::Narrow { pass } => pass,
            Event::GiveBack { pass } => pass,
            Event::Seed { pass } => pass,
            Event::Peek { pass, .. } => pass,
            Event::Split { pass } => pass,
            Event::Join { pass, .. } => pass,
        }
    }
}

impl Word {
    /// The net of the word, 0 where it has none.
    pub(crate) fn net(self) -> u32
        ensures { result ≡ word_net self }
    {
        match self {
            Word::Count(e, _) => e,
            Word::Spread(e) => e,
            Word::Claim(_) | Word::Name(_) | Word::Load(_) | Word::Next | Word::Cursor => 0,
        }
    }
}
