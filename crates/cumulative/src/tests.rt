// Worked schemes of sets, and each refusal with its place.
use crate::Cumulative;
use schemes::{Colour, KeyholderSet, Scheme};
use std::alloc::Global;
use std::process::Abort;
use std::test::Fail;

fn set(bits: u8) -> KeyholderSet {
    KeyholderSet::from_bits(bits)
}

fn check_film(rt: &impl Abort, scheme: &Cumulative, keyholder: u8, white: [u8; 4], black: [u8; 4]) {
    for (column, (white, black)) in (0..4).zip(white.iter().zip(&black)) {
        assert_eq!(rt; scheme.cell(Colour::White, keyholder, column), *white == 1);
        assert_eq!(rt; scheme.cell(Colour::Black, keyholder, column), *black == 1);
    }
}

fn check_chain(rt: &impl Abort, scheme: &Cumulative) -> Result<(), Fail> {
    assert_eq!(rt; scheme.keyholders(), 4);
    assert_eq!(rt; scheme.columns(), 4);
    check_film(rt, scheme, 1, [0, 1, 1, 0], [1, 0, 0, 1]);
    check_film(rt, scheme, 2, [0, 1, 1, 1], [0, 1, 1, 1]);
    check_film(rt, scheme, 3, [0, 1, 1, 1], [1, 0, 1, 1]);
    check_film(rt, scheme, 4, [0, 1, 0, 1], [0, 1, 0, 1]);
    check_film(rt, scheme, 5, [0, 0, 0, 0], [0, 0, 0, 0]);
    assert!(rt;
        scheme.qualified(set(7)) && !scheme.qualified(set(9)) && !scheme.qualified(set(19))
    );
    Ok(())
}

fn check_refused(
    rt: &impl Abort,
    heap: Global,
    scheme: &mut Cumulative,
    n: u8,
    sets: &[KeyholderSet],
    number: u8,
    place: usize,
) -> Result<(), Fail> {
    let refusal = scheme.make(heap, n, sets).err();
    assert_eq!(rt;
        refusal.map(|why| (why.number(), why.place())),
        Some((number, place))
    );
    check_chain(rt, scheme)
}

// 1 with 2, 2 with 3, or 3 with 4; and refusals, which leave that scheme as it was.
#[test]
fn chain(rt: HostRuntime) -> Result<(), Fail> {
    let heap = rt.alloc();
    let mut scheme = Cumulative::new(heap)?;
    scheme.make(heap, 4, &[set(3), set(6), set(12)])?;
    check_chain(&rt, &scheme)?;
    assert_eq!(rt;
        scheme.forbidden_sets(),
        [set(5), set(9), set(10)].as_slice()
    );
    let record = scheme.record(1);
    assert!(rt; !record.has(0) && !record.has(1) && record.has(2) && !record.has(3));
    assert!(rt; !scheme.record(0).has(0) && !scheme.record(5).has(0));
    assert_eq!(rt; scheme.minimal_sets().len(), 3);
    Ok(())
}

#[test]
fn refusals(rt: HostRuntime) -> Result<(), Fail> {
    let heap = rt.alloc();
    let mut scheme = Cumulative::new(heap)?;
    scheme.make(heap, 4, &[set(3), set(6), set(12)])?;
    check_refused(&rt, heap, &mut scheme, 0, &[], 7, 0)?;
    check_refused(&rt, heap, &mut scheme, 9, &[set(1)], 7, 0)?;
    check_refused(&rt, heap, &mut scheme, 3, &[], 8, 0)?;
    check_refused(&rt, heap, &mut scheme, 3, &[set(0); 17], 8, 0)?;
    check_refused(
        &rt,
        heap,
        &mut scheme,
        3,
        &[set(3), set(3), set(8), set(0)],
        9,
        2,
    )?;
    check_refused(&rt, heap, &mut scheme, 3, &[set(3), set(0)], 9, 1)?;
    check_refused(&rt, heap, &mut scheme, 3, &[set(6), set(3), set(7)], 10, 2)?;
    check_refused(&rt, heap, &mut scheme, 3, &[set(6), set(3), set(3)], 10, 1)?;
    let triples = [
        set(7),
        set(11),
        set(13),
        set(14),
        set(19),
        set(21),
        set(22),
        set(25),
        set(26),
        set(28),
    ];
    check_refused(&rt, heap, &mut scheme, 5, &triples, 11, 0)
}

// Either of two keyholders alone: both films are the picture. So is the film of the scheme at first.
#[test]
fn alone(rt: HostRuntime) -> Result<(), Fail> {
    let heap = rt.alloc();
    let mut scheme = Cumulative::new(heap)?;
    assert_eq!(rt; scheme.keyholders(), 1);
    check_film(&rt, &scheme, 1, [0, 0, 0, 0], [1, 0, 0, 0]);
    scheme.make(heap, 2, &[set(1), set(2)])?;
    assert_eq!(rt; scheme.columns(), 1);
    check_film(&rt, &scheme, 1, [0, 0, 0, 0], [1, 0, 0, 0]);
    check_film(&rt, &scheme, 2, [0, 0, 0, 0], [1, 0, 0, 0]);
    assert_eq!(rt; scheme.forbidden_sets(), [set(0)].as_slice());
    Ok(())
}
