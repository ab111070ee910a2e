//! Lists of events, and what each must find.

use crate::{Event, Word};

/// Both passes move a vertex to block 1, in turns.
pub(super) const TOGETHER: &[(Event, u64)] = &[
    (Event::Claim { pass: 0, vertex: 0 }, 0),
    (Event::Claim { pass: 1, vertex: 1 }, 0),
    (
        Event::Reserve {
            pass: 0,
            vertex: 0,
            to: 1,
        },
        0,
    ),
    (
        Event::Reserve {
            pass: 1,
            vertex: 1,
            to: 1,
        },
        1,
    ),
    (Event::Draw { pass: 0 }, 0),
    (Event::Draw { pass: 1 }, 1),
    (Event::Name { pass: 0 }, 0),
    (Event::Name { pass: 1 }, 0),
    (Event::Raise { pass: 0 }, 0),
    (Event::Widen { pass: 0 }, 65),
    (Event::Raise { pass: 1 }, 1),
    (Event::Lower { pass: 0 }, 2),
    (Event::Lower { pass: 1 }, 1),
    (Event::Narrow { pass: 1 }, 66),
    (Event::GiveBack { pass: 0 }, 2),
    (Event::GiveBack { pass: 1 }, 1),
];

/// The passes swap the blocks of two vertices: no net gets a block or loses one.
pub(super) const SWAP: &[(Event, u64)] = &[
    (Event::Claim { pass: 0, vertex: 0 }, 0),
    (Event::Claim { pass: 1, vertex: 1 }, 0),
    (
        Event::Reserve {
            pass: 0,
            vertex: 0,
            to: 1,
        },
        1,
    ),
    (
        Event::Reserve {
            pass: 1,
            vertex: 1,
            to: 0,
        },
        1,
    ),
    (Event::Draw { pass: 0 }, 0),
    (Event::Draw { pass: 1 }, 1),
    (Event::Name { pass: 0 }, 0),
    (Event::Name { pass: 1 }, 1),
    (Event::Raise { pass: 0 }, 1),
    (Event::Raise { pass: 1 }, 1),
    (Event::Lower { pass: 0 }, 2),
    (Event::Lower { pass: 1 }, 2),
    (Event::GiveBack { pass: 0 }, 2),
    (Event::GiveBack { pass: 1 }, 2),
];

/// There is room for the first vertex, and not for the second.
pub(super) const LAST_PLACE: &[(Event, u64)] = &[
    (Event::Claim { pass: 0, vertex: 0 }, 0),
    (Event::Claim { pass: 1, vertex: 1 }, 0),
    (
        Event::Reserve {
            pass: 0,
            vertex: 0,
            to: 1,
        },
        3,
    ),
    (
        Event::Reserve {
            pass: 1,
            vertex: 1,
            to: 1,
        },
        4,
    ),
    (Event::TakeBack { pass: 1 }, 5),
];

/// Two passes refuse each other, and then one is granted.
pub(super) const REFUSALS: &[(Event, u64)] = &[
    (Event::Claim { pass: 0, vertex: 0 }, 0),
    (Event::Claim { pass: 1, vertex: 1 }, 0),
    (
        Event::Reserve {
            pass: 0,
            vertex: 0,
            to: 1,
        },
        2,
    ),
    (
        Event::Reserve {
            pass: 1,
            vertex: 1,
            to: 1,
        },
        5,
    ),
    (Event::TakeBack { pass: 0 }, 6),
    (Event::TakeBack { pass: 1 }, 3),
    (
        Event::Reserve {
            pass: 1,
            vertex: 1,
            to: 1,
        },
        2,
    ),
];

/// Three passes move all pins of a net.
pub(super) const THREE: &[(Event, u64)] = &[
    (Event::Claim { pass: 0, vertex: 0 }, 0),
    (Event::Claim { pass: 1, vertex: 1 }, 0),
    (Event::Claim { pass: 2, vertex: 2 }, 0),
    (
        Event::Reserve {
            pass: 0,
            vertex: 0,
            to: 1,
        },
        0,
    ),
    (
        Event::Reserve {
            pass: 1,
            vertex: 1,
            to: 1,
        },
        1,
    ),
    (
        Event::Reserve {
            pass: 2,
            vertex: 2,
            to: 1,
        },
        2,
    ),
    (Event::Draw { pass: 0 }, 0),
    (Event::Draw { pass: 1 }, 1),
    (Event::Draw { pass: 2 }, 2),
    (Event::Name { pass: 0 }, 0),
    (Event::Name { pass: 1 }, 0),
    (Event::Name { pass: 2 }, 0),
    (Event::Raise { pass: 0 }, 0),
    (Event::Widen { pass: 0 }, 65),
    (Event::Raise { pass: 1 }, 1),
    (Event::Raise { pass: 2 }, 2),
    (Event::Lower { pass: 2 }, 3),
    (Event::Lower { pass: 0 }, 2),
    (Event::Lower { pass: 1 }, 1),
    (Event::Narrow { pass: 1 }, 66),
    (Event::GiveBack { pass: 0 }, 3),
    (Event::GiveBack { pass: 1 }, 2),
    (Event::GiveBack { pass: 2 }, 1),
];

/// One pass moves a pin of a net with all pins in one block.
pub(super) const FULL_NET: &[(Event, u64)] = &[
    (Event::Claim { pass: 0, vertex: 0 }, 0),
    (
        Event::Reserve {
            pass: 0,
            vertex: 0,
            to: 1,
        },
        0,
    ),
    (Event::Draw { pass: 0 }, 0),
    (Event::Name { pass: 0 }, 0),
    (Event::Raise { pass: 0 }, 0),
    (Event::Widen { pass: 0 }, 65),
    (Event::Lower { pass: 0 }, 65535),
    (Event::GiveBack { pass: 0 }, 65535),
];

/// A pass moves a vertex while passes that it led to claim, draw seeds and read.
pub(super) const WIDE: &[(Event, u64)] = &[
    (Event::Seed { pass: 0 }, 0),
    (Event::Claim { pass: 0, vertex: 1 }, 0),
    (Event::Split { pass: 0 }, 0),
    (Event::Claim { pass: 1, vertex: 0 }, 0),
    (Event::Split { pass: 1 }, 1),
    (Event::Claim { pass: 1, vertex: 1 }, 1),
    (Event::Unclaim { pass: 1, vertex: 0 }, 1),
    (Event::Claim { pass: 2, vertex: 0 }, 0),
    (Event::Seed { pass: 2 }, 1),
    (Event::Seed { pass: 1 }, 2),
    (
        Event::Peek {
            pass: 0,
            word: Word::Claim(0),
        },
        1,
    ),
    (
        Event::Peek {
            pass: 1,
            word: Word::Claim(2),
        },
        0,
    ),
    (
        Event::Reserve {
            pass: 0,
            vertex: 1,
            to: 1,
        },
        3,
    ),
    (
        Event::Peek {
            pass: 2,
            word: Word::Load(1),
        },
        5,
    ),
    (
        Event::Peek {
            pass: 2,
            word: Word::Load(0),
        },
        3,
    ),
    (Event::Draw { pass: 0 }, 0),
    (
        Event::Peek {
            pass: 1,
            word: Word::Next,
        },
        1,
    ),
    (
        Event::Peek {
            pass: 1,
            word: Word::Cursor,
        },
        3,
    ),
    (Event::Name { pass: 0 }, 0),
    (
        Event::Peek {
            pass: 1,
            word: Word::Name(1),
        },
        1,
    ),
    (Event::Raise { pass: 0 }, 0),
    (
        Event::Peek {
            pass: 1,
            word: Word::Count(0, 1),
        },
        1,
    ),
    (Event::Widen { pass: 0 }, 65),
    (
        Event::Peek {
            pass: 1,
            word: Word::Spread(0),
        },
        66,
    ),
    (Event::Lower { pass: 0 }, 2),
    (Event::Raise { pass: 0 }, 1),
    (Event::Lower { pass: 0 }, 1),
    (Event::Narrow { pass: 0 }, 66),
    (Event::GiveBack { pass: 0 }, 3),
    (Event::Join { pass: 0, other: 2 }, 1),
    (Event::Unclaim { pass: 0, vertex: 0 }, 1),
    (Event::Claim { pass: 1, vertex: 0 }, 0),
    (
        Event::Reserve {
            pass: 1,
            vertex: 0,
            to: 1,
        },
        5,
    ),
    (Event::TakeBack { pass: 1 }, 6),
    (Event::Claim { pass: 1, vertex: 2 }, 0),
    (
        Event::Reserve {
            pass: 1,
            vertex: 2,
            to: 0,
        },
        1,
    ),
    (Event::Draw { pass: 1 }, 1),
    (Event::Name { pass: 1 }, 1),
    (Event::Raise { pass: 1 }, 0),
    (Event::Widen { pass: 1 }, 65),
    (Event::Lower { pass: 1 }, 2),
    (Event::GiveBack { pass: 1 }, 5),
    (Event::Join { pass: 0, other: 1 }, 1),
    (
        Event::Peek {
            pass: 0,
            word: Word::Load(0),
        },
        4,
    ),
];

/// Splits and Joins read `Next` where there is no vertex.
pub(super) const BARE: &[(Event, u64)] = &[
    (Event::Seed { pass: 1 }, 0),
    (Event::Split { pass: 1 }, 0),
    (Event::Seed { pass: 2 }, 1),
    (Event::Join { pass: 0, other: 1 }, 0),
    (
        Event::Peek {
            pass: 2,
            word: Word::Next,
        },
        0,
    ),
];

/// The events together, but pass 0 lowers before it raises.
pub(super) const LOWER_FIRST: &[Event] = &[
    Event::Claim { pass: 0, vertex: 0 },
    Event::Claim { pass: 1, vertex: 1 },
    Event::Reserve {
        pass: 0,
        vertex: 0,
        to: 1,
    },
    Event::Reserve {
        pass: 1,
        vertex: 1,
        to: 1,
    },
    Event::Draw { pass: 0 },
    Event::Draw { pass: 1 },
    Event::Name { pass: 0 },
    Event::Name { pass: 1 },
    Event::Lower { pass: 0 },
    Event::Raise { pass: 0 },
    Event::Widen { pass: 0 },
    Event::Raise { pass: 1 },
    Event::Lower { pass: 1 },
    Event::Narrow { pass: 1 },
    Event::GiveBack { pass: 0 },
    Event::GiveBack { pass: 1 },
];

/// The events together, but pass 0 never books the block more.
pub(super) const WITHOUT_WIDEN: &[Event] = &[
    Event::Claim { pass: 0, vertex: 0 },
    Event::Claim { pass: 1, vertex: 1 },
    Event::Reserve {
        pass: 0,
        vertex: 0,
        to: 1,
    },
    Event::Reserve {
        pass: 1,
        vertex: 1,
        to: 1,
    },
    Event::Draw { pass: 0 },
    Event::Draw { pass: 1 },
    Event::Name { pass: 0 },
    Event::Name { pass: 1 },
    Event::Raise { pass: 0 },
    Event::Raise { pass: 1 },
    Event::Lower { pass: 0 },
    Event::Lower { pass: 1 },
    Event::Narrow { pass: 1 },
    Event::GiveBack { pass: 0 },
    Event::GiveBack { pass: 1 },
];

/// Lists of events, and the place of the first that is not enabled.
pub(super) const STOPS: &[(&[Event], u32)] = &[
    (LOWER_FIRST, 8),
    (WITHOUT_WIDEN, 10),
    (&[Event::Claim { pass: 2, vertex: 0 }], 0),
    (&[Event::Claim { pass: 0, vertex: 2 }], 0),
    (
        &[
            Event::Claim { pass: 0, vertex: 0 },
            Event::Unclaim { pass: 1, vertex: 0 },
        ],
        1,
    ),
    (
        &[
            Event::Claim { pass: 0, vertex: 0 },
            Event::Claim { pass: 1, vertex: 0 },
            Event::Reserve {
                pass: 1,
                vertex: 0,
                to: 1,
            },
        ],
        2,
    ),
    (
        &[
            Event::Claim { pass: 0, vertex: 0 },
            Event::Reserve {
                pass: 0,
                vertex: 0,
                to: 0,
            },
        ],
        1,
    ),
    (
        &[
            Event::Claim { pass: 0, vertex: 0 },
            Event::Reserve {
                pass: 0,
                vertex: 0,
                to: 2,
            },
        ],
        1,
    ),
    (
        &[
            Event::Claim { pass: 0, vertex: 0 },
            Event::Reserve {
                pass: 0,
                vertex: 0,
                to: 1,
            },
            Event::Reserve {
                pass: 0,
                vertex: 0,
                to: 1,
            },
        ],
        2,
    ),
    (&[Event::TakeBack { pass: 0 }], 0),
    (
        &[Event::Claim { pass: 0, vertex: 0 }, Event::Draw { pass: 0 }],
        1,
    ),
    (
        &[
            Event::Claim { pass: 0, vertex: 0 },
            Event::Reserve {
                pass: 0,
                vertex: 0,
                to: 1,
            },
            Event::Draw { pass: 0 },
            Event::TakeBack { pass: 0 },
        ],
        3,
    ),
    (
        &[
            Event::Claim { pass: 0, vertex: 0 },
            Event::Reserve {
                pass: 0,
                vertex: 0,
                to: 1,
            },
            Event::Draw { pass: 0 },
            Event::Raise { pass: 0 },
        ],
        3,
    ),
    (
        &[
            Event::Claim { pass: 0, vertex: 0 },
            Event::Reserve {
                pass: 0,
                vertex: 0,
                to: 1,
            },
            Event::Draw { pass: 0 },
            Event::Name { pass: 0 },
            Event::GiveBack { pass: 0 },
        ],
        4,
    ),
    (
        &[Event::Peek {
            pass: 0,
            word: Word::Count(1, 0),
        }],
        0,
    ),
    (&[Event::Join { pass: 0, other: 0 }], 0),
    (
        &[
            Event::Join { pass: 0, other: 1 },
            Event::Seed { pass: 0 },
            Event::Seed { pass: 1 },
        ],
        2,
    ),
];
