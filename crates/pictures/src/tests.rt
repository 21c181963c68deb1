// The tests: each fault at its place, what is opened, long numbers and large pictures, heads and texts.
use crate::heads::head;
use crate::pictures::open;
use crate::refusals::{HeadRefusal, PictureFault, PictureRefusal};
use std::test::Fail;

/// Number and place of the fault; nothing of a file that is opened.
fn fault(file: &[u8]) -> Option<(u8, usize)> {
    open(file)
        .err()
        .map(|fault| (fault.refusal.number(), fault.place))
}

#[test]
fn faults(rt: HostRuntime) {
    assert_eq!(rt; fault(b"Q4 8 1 x"), Some((1, 0)));
    assert_eq!(rt; fault(b"P1"), Some((1, 0)));
    assert_eq!(rt; fault(b"P48 1 x"), Some((2, 2)));
    assert_eq!(rt; fault(b"P4 x"), Some((2, 3)));
    assert_eq!(rt; fault(b"P4 8x"), Some((2, 4)));
    assert_eq!(rt; fault(b"P4 8 -1 x"), Some((2, 5)));
    assert_eq!(rt; fault(b"P4 8 1#\nx"), Some((2, 6)));
    assert_eq!(rt; fault(b"P4 8 1\x0bx"), Some((2, 6)));
    assert_eq!(rt; fault(b"P4 000 1 x"), Some((3, 3)));
    assert_eq!(rt; fault(b"P4\t#\n4097 1 x"), Some((3, 5)));
    assert_eq!(rt; fault(b"P4 8 04097 x"), Some((3, 5)));
    assert_eq!(rt; fault(b"P4 8 4097"), Some((4, 9)));
    assert_eq!(rt; fault(b""), Some((4, 0)));
    assert_eq!(rt; fault(b"x"), Some((4, 1)));
    assert_eq!(rt; fault(b"P4 # 8 1 x\r"), Some((4, 11)));
    assert_eq!(rt; fault(b"P4 9 2 abc"), Some((4, 10)));
    assert_eq!(rt; fault(b"P4 9 2 abcde"), Some((5, 11)));
}

#[test]
fn opened(rt: HostRuntime) -> Result<(), Fail> {
    assert_eq!(rt; fault(b"P4 1 1 x"), None);
    assert_eq!(rt; fault(b"P4#9 9\n#\n 8\r#\r8\n#\n1\tx"), None);
    let picture = open(b"P4\n# a comment\n0009 \n002\nabcd")?;
    assert_eq!(rt; (picture.width(), picture.height()), (9, 2));
    assert!(rt; picture.rows() == b"abcd".as_slice());
    assert!(rt; picture.row(0)? == b"ab".as_slice());
    assert!(rt; picture.row(1)? == b"cd".as_slice());
    let none = PictureFault {
        refusal: PictureRefusal::NoSuchRow,
        place: 0,
    };
    assert_eq!(rt; picture.row(2).err(), Some(none));
    assert_eq!(rt; none.refusal.number(), 6);
    Ok(())
}

#[test]
fn long_numbers(rt: HostRuntime) -> Result<(), Fail> {
    let heap = rt.alloc();
    let mut file = Vec::from_slice(heap, b"P4 ")?;
    file.resize(5000, b'0')?;
    file.extend_from_slice(b"8 1 ")?;
    assert_eq!(rt; fault(&file), Some((4, 5004)));
    file.push(255)?;
    assert_eq!(rt; fault(&file), None);
    let mut nines = Vec::from_slice(heap, b"P4 ")?;
    nines.resize(5000, b'9')?;
    assert_eq!(rt; fault(&nines), Some((4, 5000)));
    nines.push(b' ')?;
    assert_eq!(rt; fault(&nines), Some((3, 3)));
    Ok(())
}

#[test]
fn largest(rt: HostRuntime) -> Result<(), Fail> {
    let heap = rt.alloc();
    let mut file = Vec::from_slice(heap, b"P4\n4096 4096\n")?;
    file.resize(13 + 4096 * 512 - 1, 0)?;
    assert_eq!(rt; fault(&file), Some((4, 2097164)));
    file.push(1)?;
    let picture = open(&file)?;
    assert_eq!(rt; (picture.width(), picture.height()), (4096, 4096));
    assert_eq!(rt; picture.row(4095)?.len(), 512);
    assert_eq!(rt; picture.row(4095)?.last().copied(), Some(1));
    assert_eq!(rt; picture.row(4096).is_err(), true);
    file.push(0)?;
    assert_eq!(rt; fault(&file), Some((5, 2097165)));
    Ok(())
}

/// The length of the head that is written, or the number of the refusal.
fn answer(buf: &mut [u8], w: u32, h: u32) -> Result<usize, u8> {
    head(buf, w, h).map_err(|refusal| refusal.number())
}

#[test]
fn heads(rt: HostRuntime) {
    let mut buf = [7; 15];
    assert_eq!(rt; answer(&mut buf, 32768, 4096), Ok(14));
    assert_eq!(rt; buf, *b"P4\n32768 4096\n\x07");
    assert_eq!(rt; answer(&mut buf, 1, 20), Ok(8));
    assert_eq!(rt; buf, *b"P4\n1 20\n 4096\n\x07");
}

#[test]
fn head_refusals(rt: HostRuntime) {
    let mut buf = [7; 13];
    assert_eq!(rt; answer(&mut buf, 32768, 4096), Err(34));
    assert_eq!(rt; answer(&mut buf, 0, 1), Err(33));
    assert_eq!(rt; answer(&mut buf, 32769, 1), Err(33));
    assert_eq!(rt; answer(&mut buf, 1, 0), Err(33));
    assert_eq!(rt; answer(&mut buf, 1, 4097), Err(33));
    assert_eq!(rt; buf, [7; 13]);
    assert_eq!(rt; answer(&mut [], 0, 0), Err(33));
}

#[test]
fn texts(rt: HostRuntime) -> Result<(), Fail> {
    let heap = rt.alloc();
    let fault = PictureFault {
        refusal: PictureRefusal::NumberOutside,
        place: 5,
    };
    assert_eq!(rt;
        fault.to_string(heap)?.as_str(),
        "refused 3 at 5: a number is outside 1 to 4096"
    );
    assert_eq!(rt;
        HeadRefusal::BufferShort.to_string(heap)?.as_str(),
        "refused 34: the buffer is too short for the head"
    );
    Ok(())
}
