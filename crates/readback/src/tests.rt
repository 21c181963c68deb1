// A row that the maker made comes back; and refusals, with what they leave.
use super::*;
use maker::Maker;
use schemes::{AllOf, KeyholderSet};
use std::test::Fail;
use tapes::PracticeTape;

// A white and a black pixel, all of 2. The byte 5 puts the second column first in the white one, and 8 the first column in the
// black one, so that the strips are 1001 and 1010.
#[test]
fn reads_a_row_back(rt: HostRuntime) -> Result<(), Fail> {
    let mut maker = Maker::new(AllOf::new(2)?, PracticeTape::new(5, 3, 2), 2, 1);
    let mut films = [0, 0];
    maker.row(&[0b0100_0000], &mut films, &mut [0, 0])?;
    assert_eq!(rt; films, [0b1001_0000, 0b1010_0000]);
    let mut glass = [255];
    let mut out = [255];
    let both = KeyholderSet::from_bits(3);
    read_back(&AllOf::new(2)?, both, 2, &films, &mut glass, &mut out)?;
    assert_eq!(rt; (glass[0], out[0]), (0b1011_0000, 0b0100_0000));
    Ok(())
}

// Calls with all of 2: a width, and how many bytes of white films there are; then the number and the place of the refusal, and
// what the glass and the output hold, which are 255 before. Films that are white have no black square over pixel 0, too few.
const REFUSED: [(u32, usize, (u8, Option<u32>), u8); 3] = [
    (0, 1, (17, None), 255),
    (2, 1, (28, None), 255),
    (2, 2, (32, Some(0)), 0),
];

#[test]
fn refuses(rt: HostRuntime) -> Result<(), Fail> {
    let both = KeyholderSet::from_bits(3);
    for (w, length, refusal, held) in REFUSED {
        let films = [0, 0];
        let mut glass = [255];
        let mut out = [255];
        let answer = read_back(
            &AllOf::new(2)?,
            both,
            w,
            &films[0..length],
            &mut glass,
            &mut out,
        );
        let said = answer.err().map(|why| (why.number(), why.place()));
        assert_eq!(rt; said, Some(refusal));
        assert_eq!(rt; (glass[0], out[0]), (held, held));
    }
    Ok(())
}
