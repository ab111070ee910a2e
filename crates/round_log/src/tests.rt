use crate::{Chosen, Kind, LoggedRound, Move, Stop, Trace, order_of};
use hg_base::Items;
use std::alloc::Global;
use std::test::Fail;

const MOVES: [Move; 4] = [
    Move {
        vertex: 0,
        from: 0,
        to: 1,
        worker: 0,
        booked: -2,
    },
    Move {
        vertex: 1,
        from: 0,
        to: 1,
        worker: 1,
        booked: 3,
    },
    Move {
        vertex: 2,
        from: 1,
        to: 0,
        worker: 0,
        booked: 0,
    },
    Move {
        vertex: 3,
        from: 0,
        to: 1,
        worker: 1,
        booked: -2,
    },
];

fn round_of(alloc: Global) -> Result<LoggedRound, Fail> {
    Ok(LoggedRound {
        kind: Kind::Label,
        level: 1,
        moves: Items::from_vec(Vec::from_slice(alloc, MOVES.as_slice())?),
        kept: 2,
        gains: Items::from_vec(Vec::from_slice(alloc, [-2, 1].as_slice())?),
        before: 10,
        made: 11,
        after: 9,
        first: 0,
        second: 0,
        region: Items::new(alloc),
        value: 0,
        tabled: true,
    })
}

#[test]
fn places_of_moves(rt: HostRuntime) -> Result<(), Fail> {
    let order = order_of(rt.alloc(), 6, MOVES.as_slice())?;
    assert_eq!(rt; order.slice(), [1, 2, 3, 4, 0, 0].as_slice());
    Ok(())
}

#[test]
fn copies_of_traces(rt: HostRuntime) -> Result<(), Fail> {
    let alloc = rt.alloc();
    let mut rounds = Items::new(alloc);
    rounds.push(round_of(alloc)?)?;
    let mut maps = Items::new(alloc);
    maps.push(Items::from_vec(vec![in alloc; 0u32, 0, 1]?))?;
    let mut traces = Items::new(alloc);
    traces.push(Trace {
        maps,
        stop: Stop::Stuck(Items::from_vec(vec![in alloc; 0u32, 1]?)),
        start: 1,
        first: Items::from_vec(vec![in alloc; 0u32, 1]?),
        rounds,
        last: Items::from_vec(vec![in alloc; 0u32, 0, 1]?),
        chosen: Chosen::Levels,
    })?;
    let copied = traces.copy()?;
    assert_eq!(rt; copied.len(), 1);
    for trace in copied.slice() {
        assert_eq!(rt; trace.maps.len(), 1);
        assert_eq!(rt; matches!(trace.stop, Stop::Stuck(_)), true);
        assert_eq!(rt; trace.last.slice(), [0, 0, 1].as_slice());
        for round in trace.rounds.slice() {
            assert_eq!(rt; round.moves.slice(), MOVES.as_slice());
            assert_eq!(rt; round.gains.slice(), [-2, 1].as_slice());
            assert_eq!(rt; round.after, 9);
        }
    }
    Ok(())
}
