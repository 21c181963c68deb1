// The light box at work: worked rows, and each refusal with what it leaves.
use super::*;
use schemes::{AllOf, KeyholderSet, TwoOf};
use std::test::Fail;

// Readings with two of 3: a set, a width and a glass; then the number and the place of the refusal, if there is one, and the
// output of one byte, which is 255 before. The set 3 of two members has the levels 1 and 2, the set 7 of all has 1 and 3.
const READINGS: [(u8, u32, [u8; 2], Option<(u8, Option<u32>)>, u8); 8] = [
    // 100 110 010 011 001 is white, black, white, black, white. The spare square counts for nothing.
    (3, 5, [0b1001_1001, 0b0011_0011], None, 0b0101_0000),
    // Three members see pixel 1 as neither white nor black, and pixel 3 too.
    (7, 5, [0b1001_1001, 0b0011_0011], Some((32, Some(1))), 0),
    // Pixel 3 has one square too many.
    (3, 5, [0b1001_1001, 0b0111_0010], Some((32, Some(3))), 0),
    // Of two refusals that apply, the one of the lower number is answered.
    (1, 0, [0, 0], Some((17, None)), 255),
    (1, 4097, [0, 0], Some((17, None)), 255),
    (1, 6, [0, 0], Some((29, None)), 255),
    (3, 6, [0, 0], Some((30, None)), 255),
    (3, 9, [0, 0], Some((30, None)), 255),
];

#[test]
fn reads(rt: HostRuntime) -> Result<(), Fail> {
    for (set, w, glass, refusal, row) in READINGS {
        let mut out = [255];
        let answer = read(
            &TwoOf::new(3)?,
            KeyholderSet::from_bits(set),
            w,
            &glass,
            &mut out,
        );
        let said = answer.err().map(|why| (why.number(), why.place()));
        assert_eq!(rt; (said, out[0]), (refusal, row));
    }
    Ok(())
}

// The strips 1001 and 1010 of a white and a black pixel, all of 2, give the stack 1011. A strip of another length leaves it.
#[test]
fn lays_and_reads(rt: HostRuntime) -> Result<(), Fail> {
    let scheme = AllOf::new(2)?;
    let both = KeyholderSet::from_bits(3);
    let mut glass = [0];
    lay(&mut glass, &[0b1001_0000])?;
    lay(&mut glass, &[0b1010_0000])?;
    assert_eq!(rt; lay(&mut glass, &[255, 255]), Err(LayRefusal::Lengths));
    assert_eq!(rt; glass[0], 0b1011_0000);
    let mut out = [255];
    read(&scheme, both, 2, &glass, &mut out)?;
    assert_eq!(rt; out[0], 0b0100_0000);
    assert_eq!(rt;
        contrast(&scheme, both),
        Ok(Contrast {
            light: 1,
            dark: 2,
            columns: 2
        })
    );
    Ok(())
}

// All of 8 has 128 squares for each pixel: 256 pixels are taken, 257 are not. Refusals of sizes leave the output.
#[test]
fn refuses_sizes(rt: HostRuntime) -> Result<(), Fail> {
    let scheme = AllOf::new(8)?;
    let everyone = KeyholderSet::from_bits(255);
    for (w, why) in [
        (257, ReadRefusal::Squares),
        (256, ReadRefusal::GlassLength),
        (1, ReadRefusal::OutputLength),
    ] {
        let mut out = [255, 255];
        assert_eq!(rt; read(&scheme, everyone, w, &[0; 16], &mut out), Err(why));
        assert_eq!(rt; out, [255, 255]);
    }
    Ok(())
}

#[test]
fn says_why(rt: HostRuntime) -> Result<(), Fail> {
    let why = ReadRefusal::NeitherLevel(5);
    let said = format!(in rt.alloc(); "{why}")?;
    assert_eq!(rt;
        said.as_str(),
        "refused 32 at 5: the count of black squares is neither light nor dark"
    );
    Ok(())
}
