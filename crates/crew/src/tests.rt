use crate::{Gate, OpenGate, Span, each, each_chunk, span_of};
use std::test::Fail;

#[test]
fn runs(rt: HostRuntime) -> Result<(), Fail> {
    assert_eq!(rt; span_of(7, 3, 0), Span { from: 0, to: 2 });
    assert_eq!(rt; span_of(7, 3, 1), Span { from: 2, to: 4 });
    assert_eq!(rt; span_of(7, 3, 2), Span { from: 4, to: 7 });
    assert_eq!(rt; span_of(2, 64, 63), Span { from: 1, to: 2 });
    assert_eq!(rt; span_of(u32::MAX, 64, 63).to, u32::MAX);
    Ok(())
}

#[test]
fn jobs(rt: HostRuntime) -> Result<(), Fail> {
    let gate = OpenGate;
    let mut items = vec![in rt.alloc(); 5u64, 6, 7]?;
    each(
        &rt,
        items.as_mut_slice(),
        &|i, item: &mut u64| {
            gate.pass(i as u32, 0);
            *item = item.wrapping_mul(10).wrapping_add(i as u64);
        },
    );
    assert_eq!(rt; items.as_slice(), [50, 61, 72].as_slice());
    let mut nothing: [u64; 0] = [];
    each(&rt, &mut nothing, &|_, item: &mut u64| *item = 1);
    let mut items = vec![in rt.alloc(); 0usize; 7]?;
    each_chunk(
        &rt,
        items.as_mut_slice(),
        3,
        &|place, run: &mut [usize]| {
            for item in run.iter_mut() {
                *item = place.wrapping_add(1);
            }
        },
    );
    assert_eq!(rt; items.as_slice(), [1, 1, 1, 4, 4, 4, 7].as_slice());
    Ok(())
}
