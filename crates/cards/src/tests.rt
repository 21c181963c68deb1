// Cards on examples: each fault at its place, every kind, the way back, and what is not written.
use crate::*;
use schemes::{KeyholderSet, Scheme, SchemeRefusal};
use std::alloc::{AllocError, Global};
use std::process::Abort;
use std::test::Fail;

// Number and place of the fault that opening answers; nothing where the card is opened.
fn fault(heap: Global, bytes: &[u8]) -> Option<(u8, usize)> {
    match open(heap, bytes) {
        Ok(_) => None,
        Err(fault) => Some((fault.number(), fault.place())),
    }
}

#[test]
fn faults_of_the_format(rt: HostRuntime) {
    let heap = rt.alloc();
    let table: [(&[u8], u8, usize); 26] = [
        (&[], 12, 0),
        (&[8], 12, 0),
        (&[128, 2], 12, 0),
        (&[1], 13, 1),
        (&[4], 13, 1),
        (&[3, 2], 13, 2),
        (&[6, 3], 13, 2),
        (&[7, 4, 3, 3, 3, 6], 13, 6),
        (&[1, 2], 14, 1),
        (&[2, 1], 14, 1),
        (&[2, 4], 14, 1),
        (&[3, 3, 1], 14, 2),
        (&[3, 2, 9], 14, 1),
        (&[1, 2, 0], 14, 1),
        (&[0, 0], 15, 1),
        (&[1, 3, 7, 7], 15, 2),
        (&[7, 4, 3, 3, 3, 6, 12, 1], 15, 7),
        (&[5, 3, 1, 1, 9], 15, 4),
        (&[4, 0], 16, 0),
        (&[5, 3, 1, 1], 16, 0),
        (&[2, 3], 16, 0),
        (&[6, 2, 1, 1], 16, 0),
        (&[6, 2, 2, 2, 1], 16, 0),
        (&[6, 3, 2, 2, 1], 16, 4),
        (&[7, 4, 3, 3, 3, 3, 12], 16, 5),
        (&[7, 9, 3, 3, 3, 6, 5], 16, 6),
    ];
    for (bytes, number, place) in table {
        assert_eq!(rt; fault(heap, bytes), Some((number, place)));
    }
}

#[test]
fn faults_of_the_scheme(rt: HostRuntime) {
    let heap = rt.alloc();
    let table: [(&[u8], u8, usize); 11] = [
        (&[1, 0], 7, 0),
        (&[1, 9], 7, 0),
        (&[3, 1, 2], 7, 0),
        (&[3, 9, 2], 7, 0),
        (&[7, 9, 3, 1, 1], 7, 0),
        (&[6, 3, 0], 8, 0),
        (
            &[
                7, 5, 3, 17, 1, 2, 3, 4, 5, 6, 7, 8, 9, 10, 11, 12, 13, 14, 15, 16, 17,
            ],
            8,
            0,
        ),
        (&[6, 3, 2, 0, 1], 9, 0),
        (&[7, 3, 3, 2, 1, 8], 9, 1),
        (&[7, 3, 3, 3, 1, 4, 6], 10, 2),
        (&[7, 5, 3, 10, 7, 11, 13, 14, 19, 21, 22, 25, 26, 28], 11, 0),
    ];
    for (bytes, number, place) in table {
        assert_eq!(rt; fault(heap, bytes), Some((number, place)));
    }
}

// What the card says and how many columns its scheme has; and the card is written as it was.
fn check_card(
    rt: &impl Abort,
    heap: Global,
    bytes: &[u8],
    kind: CardKind,
    n: u8,
    sets: &[u8],
    columns: u8,
) -> Result<(), Fail> {
    let (card, named) = open(heap, bytes)?;
    assert_eq!(rt; card.kind, kind);
    assert_eq!(rt; card.n, n);
    let numbers: Vec<u8> = card.sets.iter().map(|set| set.bits()).collect(heap)?;
    assert_eq!(rt; numbers.as_slice(), sets);
    assert_eq!(rt; named.keyholders(), n);
    assert_eq!(rt; named.columns(), columns);
    assert!(rt; write(heap, &card)?.as_slice() == bytes);
    Ok(())
}

#[test]
fn every_kind_and_back(rt: HostRuntime) -> Result<(), Fail> {
    let heap = rt.alloc();
    check_card(&rt, heap, &[0], CardKind::AllOf, 2, &[], 2)?;
    check_card(&rt, heap, &[1, 3], CardKind::AllOf, 3, &[], 4)?;
    check_card(&rt, heap, &[2, 2], CardKind::TwoOf, 2, &[], 2)?;
    check_card(&rt, heap, &[3, 3, 2], CardKind::TwoOf, 3, &[], 3)?;
    check_card(&rt, heap, &[6, 3, 2, 1, 2], CardKind::Sets, 2, &[1, 2], 1)?;
    check_card(
        &rt,
        heap,
        &[7, 4, 3, 3, 3, 6, 12],
        CardKind::Sets,
        4,
        &[3, 6, 12],
        4,
    )
}

// Number and place of the fault that writing answers; nothing where the card is written.
fn write_fault(
    heap: Global,
    kind: CardKind,
    n: u8,
    numbers: &[u8],
) -> Result<Option<(u8, usize)>, AllocError> {
    let sets = numbers
        .iter()
        .map(|number| KeyholderSet::from_bits(*number))
        .collect(heap)?;
    match write(heap, &Card { kind, n, sets }) {
        Ok(_) => Ok(None),
        Err(fault) => Ok(Some((fault.number(), fault.place()))),
    }
}

#[test]
fn what_is_not_written(rt: HostRuntime) -> Result<(), Fail> {
    let heap = rt.alloc();
    assert_eq!(rt; write_fault(heap, CardKind::AllOf, 2, &[1])?, Some((16, 0)));
    assert_eq!(rt; write_fault(heap, CardKind::TwoOf, 9, &[1])?, Some((16, 0)));
    assert_eq!(rt;
        write_fault(heap, CardKind::Sets, 2, &[2, 1])?,
        Some((16, 4))
    );
    assert_eq!(rt;
        write_fault(heap, CardKind::Sets, 4, &[3, 6, 6])?,
        Some((16, 6))
    );
    assert_eq!(rt; write_fault(heap, CardKind::AllOf, 9, &[])?, Some((7, 0)));
    assert_eq!(rt; write_fault(heap, CardKind::TwoOf, 1, &[])?, Some((7, 0)));
    assert_eq!(rt; write_fault(heap, CardKind::Sets, 3, &[])?, Some((8, 0)));
    assert_eq!(rt;
        write_fault(heap, CardKind::Sets, 3, &[1, 8])?,
        Some((9, 1))
    );
    assert_eq!(rt;
        write_fault(heap, CardKind::Sets, 3, &[1, 3])?,
        Some((10, 1))
    );
    Ok(())
}

#[test]
fn texts(rt: HostRuntime) -> Result<(), Fail> {
    let heap = rt.alloc();
    let own = CardFault::Format(CardRefusal::WrongValue, 1);
    assert_eq!(rt;
        own.to_string(heap)?.as_str(),
        "refused 14 at 1: n is written as 2 or the kind is neither 2 nor 3"
    );
    let inner = CardFault::Scheme(SchemeRefusal::Redundant(2));
    assert_eq!(rt;
        inner.to_string(heap)?.as_str(),
        "refused 10 at 2: the set contains another set of the list or equals it"
    );
    Ok(())
}
