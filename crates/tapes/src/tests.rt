// Tapes, digits and orders on examples.
use crate::*;
use std::test::Fail;

#[test]
fn practice_tape_runs_around(rt: HostRuntime) {
    let mut tape = PracticeTape::new(250, 3, 3);
    assert_eq!(rt; tape.waiting(), 3);
    assert_eq!(rt; tape.next(), Some(250));
    assert_eq!(rt; tape.next(), Some(253));
    assert_eq!(rt; tape.next(), Some(0));
    assert_eq!(rt; tape.next(), None);
    assert_eq!(rt; tape.waiting(), 0);
}

#[test]
fn bases(rt: HostRuntime) {
    for (number, is_base) in [
        (0, false),
        (1, false),
        (2, true),
        (128, true),
        (129, false),
        (255, false),
    ] {
        assert_eq!(rt; Base::new(number).is_some(), is_base);
    }
}

#[test]
fn digit_throws_bytes_away(rt: HostRuntime) -> Result<(), Fail> {
    let base = Base::new(3).ok_or("3 is a base")?;
    let mut tape = NoiseTape::new([255, 254].to_vec(rt.alloc())?);
    assert_eq!(rt; draw_digit(&mut tape, base), Some(2));
    assert_eq!(rt; tape.waiting(), 0);
    assert_eq!(rt; draw_digit(&mut tape, base), None);
    Ok(())
}

#[test]
fn order_of_four_columns(rt: HostRuntime) -> Result<(), Fail> {
    let mut tape = NoiseTape::new([254, 255, 0, 7, 9].to_vec(rt.alloc())?);
    let mut order = [0; 4];
    assert_eq!(rt; draw_order(&mut tape, &mut order), Some(()));
    assert_eq!(rt; order, [2, 0, 3, 1]);
    assert_eq!(rt; tape.waiting(), 1);
    Ok(())
}

#[test]
fn order_at_the_tape_end(rt: HostRuntime) {
    let mut tape = PracticeTape::new(1, 0, 1);
    let mut order = [7; 3];
    assert_eq!(rt; draw_order(&mut tape, &mut order), None);
    assert_eq!(rt; order, [0; 3]);
    assert_eq!(rt; tape.waiting(), 0);
    let mut one = [7];
    assert_eq!(rt; draw_order(&mut tape, &mut one), Some(()));
    assert_eq!(rt; one, [0]);
}

#[test]
fn order_of_most_columns(rt: HostRuntime) {
    let mut tape = PracticeTape::new(0, 0, 127);
    let mut order = [7; 128];
    assert_eq!(rt; draw_order(&mut tape, &mut order), Some(()));
    assert_eq!(rt; tape.waiting(), 0);
    assert!(rt;
        order
            .iter()
            .enumerate()
            .all(|(place, column)| *column as usize == place)
    );
}

#[test]
fn no_block(rt: HostRuntime) {
    let mut tape = PracticeTape::new(0, 1, 200);
    let mut order = [7; 129];
    assert_eq!(rt; draw_order(&mut tape, &mut order), None);
    assert_eq!(rt; order, [7; 129]);
    assert_eq!(rt; draw_order(&mut tape, &mut order[0..0]), None);
    assert_eq!(rt; tape.waiting(), 200);
}
