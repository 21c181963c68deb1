// The tables of small schemes, worked by hand, and questions at the edges.
use schemes::{
    AllOf, Colour, KeyholderSet, Levels, MOST_COLUMNS, MOST_KEYHOLDERS, Scheme, SchemeRefusal,
    TwoOf, bit_at, levels_of, set_bit,
};
use std::process::Abort;
use std::test::Fail;

// Each keyholder's cells at columns 0 to m - 1, against rows of '0' and '1'.
fn check_films<S: Scheme>(rt: &impl Abort, scheme: &S, colour: Colour, rows: &[&str]) {
    assert_eq!(rt; rows.len(), usize::from(scheme.keyholders()));
    for (keyholder, row) in (1..=MOST_KEYHOLDERS).zip(rows) {
        assert_eq!(rt; row.len(), usize::from(scheme.columns()));
        for (column, cell) in (0..MOST_COLUMNS).zip(row.bytes()) {
            assert_eq!(rt; scheme.cell(colour, keyholder, column), cell == b'1');
        }
    }
}

#[test]
fn all_of_three(rt: HostRuntime) -> Result<(), Fail> {
    let scheme = AllOf::new(3)?;
    check_films(&rt, &scheme, Colour::White, &["0101", "0011", "0110"]);
    check_films(&rt, &scheme, Colour::Black, &["0101", "0011", "1001"]);
    let everyone = KeyholderSet::from_bits(0b111);
    assert_eq!(rt; levels_of(&scheme, everyone), Levels { light: 3, dark: 4 });
    assert!(rt;
        (0..=u8::MAX).all(|bits| scheme.qualified(KeyholderSet::from_bits(bits)) == (bits == 0b111))
    );
    assert_eq!(rt; scheme.cell(Colour::Black, 0, 0), false);
    assert_eq!(rt; scheme.cell(Colour::Black, 4, 0), false);
    assert_eq!(rt; scheme.cell(Colour::Black, 3, 4), false);
    Ok(())
}

#[test]
fn two_of_three(rt: HostRuntime) -> Result<(), Fail> {
    let scheme = TwoOf::new(3)?;
    check_films(&rt, &scheme, Colour::White, &["100", "100", "100"]);
    check_films(&rt, &scheme, Colour::Black, &["100", "010", "001"]);
    let pair = KeyholderSet::from_bits(0b101);
    assert_eq!(rt; levels_of(&scheme, pair), Levels { light: 1, dark: 2 });
    let everyone = KeyholderSet::from_bits(0b111);
    assert_eq!(rt; levels_of(&scheme, everyone), Levels { light: 1, dark: 3 });
    assert_eq!(rt; scheme.qualified(KeyholderSet::from_bits(0b100)), false);
    assert_eq!(rt; scheme.qualified(KeyholderSet::from_bits(0b1011)), false);
    Ok(())
}

#[test]
fn edges_of_n(rt: HostRuntime) -> Result<(), Fail> {
    for (n, all, two) in [
        (0, false, false),
        (1, true, false),
        (2, true, true),
        (8, true, true),
        (9, false, false),
        (255, false, false),
    ] {
        assert_eq!(rt; AllOf::new(n).is_ok(), all);
        assert_eq!(rt; TwoOf::new(n).is_ok(), two);
    }
    assert_eq!(rt; AllOf::new(8)?.columns(), 128);
    assert_eq!(rt; TwoOf::new(8)?.columns(), 8);
    let refusal = AllOf::new(0).err();
    assert_eq!(rt;
        refusal.map(|why| (why.number(), why.place())),
        Some((7, 0))
    );
    Ok(())
}

#[test]
fn sets(rt: HostRuntime) {
    let set = KeyholderSet::from_bits(0b1000_0101);
    assert_eq!(rt; set.len(), 3);
    assert!(rt; set.has(1) && !set.has(2) && set.has(3) && set.has(8));
    assert!(rt; !set.has(0) && !set.has(9));
    assert!(rt;
        set.contains(KeyholderSet::from_bits(0b101))
            && !set.contains(KeyholderSet::from_bits(0b111))
    );
    assert!(rt; KeyholderSet::from_bits(0).is_empty() && !set.is_empty());
    assert!(rt; KeyholderSet::default().is_empty());
    assert!(rt; set.is_among(8) && !set.is_among(7) && KeyholderSet::everyone(3).is_among(3));
    assert_eq!(rt; KeyholderSet::everyone(3).bits(), 7);
    assert_eq!(rt; KeyholderSet::everyone(9).bits(), 255);
}

// Bit 0 is the highest bit of byte 0.
#[test]
fn packed_rows(rt: HostRuntime) {
    let mut row = [0u8, 0x40];
    assert!(rt; bit_at(&row, 9) && !bit_at(&row, 8) && !bit_at(&row, 16));
    set_bit(&mut row, 0);
    set_bit(&mut row, 15);
    set_bit(&mut row, 16);
    assert_eq!(rt; row, [0x80, 0x41]);
}
