use crate::{GainHeap, Offer};
use std::test::Fail;

const LOW: Offer = Offer {
    gain: -3,
    tie: 0,
    vertex: 4,
};

const FIRST: Offer = Offer {
    gain: 7,
    tie: 5,
    vertex: 1,
};

const SECOND: Offer = Offer {
    gain: 7,
    tie: 5,
    vertex: 0,
};

const THIRD: Offer = Offer {
    gain: 7,
    tie: 1,
    vertex: 2,
};

#[test]
fn offers(rt: HostRuntime) -> Result<(), Fail> {
    let mut heap = GainHeap::start(rt.alloc(), 5);
    heap.push(LOW)?;
    heap.push(THIRD)?;
    heap.push(FIRST)?;
    heap.push(SECOND)?;
    assert!(rt; heap.pop() == Some(FIRST));
    assert!(rt; heap.pop() == Some(SECOND));
    assert!(rt; heap.pop() == Some(THIRD));
    assert!(rt; heap.pop() == Some(LOW));
    heap.push(LOW)?;
    heap.clear();
    assert!(rt; heap.pop().is_none());
    Ok(())
}
