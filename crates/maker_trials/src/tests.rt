// Rows, refusals and whole runs on examples. The schemes are all of n.
use maker::*;
use schemes::AllOf;
use std::alloc::{AllocError, Global};
use std::process::Abort;
use std::test::*;
use tapes::*;

fn all_of(n: u8) -> Result<AllOf, Fail> {
    AllOf::new(n).map_err(Fail::new)
}

fn tally(made: u32, spoiled: u16, taken: usize) -> Tally {
    Tally {
        made,
        spoiled,
        taken,
    }
}

// Pixels white, black on the tape 5, 8: the strips are 1001 and 1010.
#[test]
fn worked_row(rt: HostRuntime) -> Result<(), Fail> {
    let tape = NoiseTape::new([5, 8].to_vec(rt.alloc())?);
    let mut maker = Maker::new(all_of(2)?, tape, 2, 1);
    let mut out = [9, 9, 7];
    let mut work = [5, 5, 5];
    assert_eq!(rt; maker.row(&[0b0111_1111], &mut out, &mut work), Ok(1));
    assert_eq!(rt; out, [0b1001_0000, 0b1010_0000, 7]);
    assert_eq!(rt; work, [0, 0, 0]);
    assert_eq!(rt; maker.tally(), tally(1, 0, 2));
    let closed = Closed {
        tally: tally(1, 0, 2),
        is_full: true,
    };
    assert_eq!(rt; maker.close(), closed);
    Ok(())
}

// What the first row of a page answers, by the lengths of its buffers. It leaves the output unchanged, wipes the work strip
// and takes no byte.
fn refused(
    rt: &impl Abort,
    heap: Global,
    page: (u32, u32),
    lengths: (usize, usize, usize),
) -> Result<RowRefusal, Fail> {
    let mut maker = Maker::new(all_of(2)?, PracticeTape::new(0, 1, 100), page.0, page.1);
    let secret = Vec::from_elem(heap, 1, lengths.0)?;
    let mut out = Vec::from_elem(heap, 9, lengths.1)?;
    let mut work = Vec::from_elem(heap, 7, lengths.2)?;
    let why = maker
        .row(&secret, &mut out, &mut work)
        .err()
        .ok_or("accepted")?;
    assert!(rt; out.iter().all(|byte| *byte == 9));
    assert!(rt; work.iter().all(|byte| *byte == 0));
    assert_eq!(rt; maker.tally(), tally(0, 0, 0));
    Ok(why)
}

// All of 2 on 8 pixels wants a secret row of 1 byte, an output of 4 and a work strip of 2.
#[test]
fn early_refusals(rt: HostRuntime) -> Result<(), Fail> {
    for (page, lengths, why) in [
        ((0, 1), (0, 4, 2), RowRefusal::PageSize),
        ((4097, 1), (513, 4, 2), RowRefusal::PageSize),
        ((8, 0), (1, 4, 2), RowRefusal::PageSize),
        ((8, 4097), (1, 4, 2), RowRefusal::PageSize),
        ((8, 1), (0, 4, 2), RowRefusal::SecretLength),
        ((8, 1), (2, 3, 1), RowRefusal::SecretLength),
        ((8, 1), (1, 3, 1), RowRefusal::OutputShort),
        ((9, 1), (2, 5, 2), RowRefusal::OutputShort),
        ((8, 1), (1, 4, 1), RowRefusal::WorkShort),
        ((8, 1), (1, 4, 0), RowRefusal::WorkShort),
    ] {
        assert_eq!(rt; refused(&rt, rt.alloc(), page, lengths)?, why);
    }
    Ok(())
}

#[test]
fn greatest_page(rt: HostRuntime) -> Result<(), Fail> {
    let mut maker = Maker::new(all_of(2)?, PracticeTape::new(0, 1, 4096), 4096, 4096);
    let mut out = [9; 2049];
    let mut work = [7; 2];
    assert_eq!(rt; maker.row(&[0; 512], &mut out, &mut work), Ok(1));
    // digit 0 and digit 1 in turn: the order 0 1 shows 01, the order 1 0 shows 10
    assert_eq!(rt; out[0], 0b0110_0110);
    assert_eq!(rt; out[2047], 0b0110_0110);
    assert_eq!(rt; out[2048], 9);
    assert_eq!(rt; maker.tally(), tally(1, 0, 4096));
    Ok(())
}

// All of 8 has 128 columns: 256 pixels make 32,768 squares.
#[test]
fn longest_strip(rt: HostRuntime) -> Result<(), Fail> {
    let mut out = [9; 32768];
    let mut work = [7; 128];
    let mut maker = Maker::new(all_of(8)?, PracticeTape::new(0, 1, 100_000), 256, 1);
    assert_eq!(rt; maker.row(&[0; 32], &mut out, &mut work), Ok(1));
    assert_eq!(rt; work, [0; 128]);
    let mut wider = Maker::new(all_of(8)?, PracticeTape::new(0, 1, 100_000), 257, 1);
    let mut unchanged = [9; 4];
    assert_eq!(rt;
        wider.row(&[0; 33], &mut unchanged, &mut work),
        Err(RowRefusal::StripLength)
    );
    assert_eq!(rt; unchanged, [9; 4]);
    assert_eq!(rt; wider.close().is_full, false);
    Ok(())
}

// All of 3 draws three digits for a block: the tape ends in the second.
#[test]
fn tape_ends_within_a_block(rt: HostRuntime) -> Result<(), Fail> {
    let mut maker = Maker::new(all_of(3)?, PracticeTape::new(0, 0, 4), 2, 1);
    let mut out = [9, 9, 9, 8];
    let mut work = [7; 5];
    let ended = Err(RowRefusal::TapeEnd);
    assert_eq!(rt; maker.row(&[255], &mut out, &mut work), ended);
    assert_eq!(rt; out, [0, 0, 0, 8]);
    assert_eq!(rt; work, [0; 5]);
    assert_eq!(rt; maker.tally(), tally(0, 0, 4));
    Ok(())
}

// All of 1 has one column, so that no byte is wanted, and its film is the picture.
#[test]
fn one_column_on_an_empty_tape(rt: HostRuntime) -> Result<(), Fail> {
    let mut maker = Maker::new(all_of(1)?, PracticeTape::new(0, 0, 0), 11, 1);
    let mut out = [9; 3];
    let mut work = [7];
    assert_eq!(rt; maker.row(&[0b1010_0110, 255], &mut out, &mut work), Ok(1));
    assert_eq!(rt; out, [0b1010_0110, 0b1110_0000, 9]);
    assert_eq!(rt; work, [0]);
    assert_eq!(rt; maker.tally(), tally(1, 0, 0));
    Ok(())
}

// Makes a row of one pixel: it answers this, and leaves the output so and the work strip 0.
fn one_pixel(
    rt: &impl Abort,
    maker: &mut Maker<AllOf, PracticeTape>,
    answer: Result<u32, RowRefusal>,
    left: u8,
) -> Result<(), Fail> {
    let mut out = [9];
    let mut work = [7];
    assert_eq!(rt; maker.row(&[128], &mut out, &mut work), answer);
    assert_eq!(rt; out, [left]);
    assert_eq!(rt; work, [0]);
    Ok(())
}

#[test]
fn spoiled_rows(rt: HostRuntime) -> Result<(), Fail> {
    let mut maker = Maker::new(all_of(1)?, PracticeTape::new(0, 0, 0), 1, 1);
    assert_eq!(rt; maker.spoil(), Err(SpoilRefusal::NoRowMade));
    for spoiled in 1..=65535 {
        one_pixel(&rt, &mut maker, Ok(1), 128)?;
        assert_eq!(rt; maker.spoil(), Ok(spoiled));
    }
    one_pixel(&rt, &mut maker, Ok(1), 128)?;
    one_pixel(&rt, &mut maker, Err(RowRefusal::AllRowsMade), 9)?;
    assert_eq!(rt; maker.spoil(), Err(SpoilRefusal::CountFull));
    assert_eq!(rt; maker.tally(), tally(1, 65535, 0));
    Ok(())
}

fn row_call(heap: Global, secret: &[u8]) -> Result<Call, AllocError> {
    Ok(Call::Row {
        secret: secret.to_vec(heap)?,
        out: [9, 9, 7].to_vec(heap)?,
        work: [5, 5, 5].to_vec(heap)?,
    })
}

// A row reply with this answer and output; the work strip is wiped and the secret row handed back.
fn check_row(
    rt: &impl Abort,
    reply: Option<Reply>,
    answer: Result<u32, RowRefusal>,
    secret: &[u8],
    out: [u8; 3],
) -> Result<(), Fail> {
    let Some(
        Reply::Row {
            answer: answered,
            secret: back,
            out: left,
            work,
        },
    ) = reply
    else {
        return Err(Fail::new("no reply to a row"));
    };
    assert_eq!(rt; answered, answer);
    assert_eq!(rt; back.as_slice(), secret);
    assert_eq!(rt; left.as_slice(), out.as_slice());
    assert_eq!(rt; work.as_slice(), [0, 0, 0].as_slice());
    Ok(())
}

fn check_spoil(
    rt: &impl Abort,
    reply: Option<Reply>,
    answer: Result<u16, SpoilRefusal>,
) -> Result<(), Fail> {
    let Some(Reply::Spoil(answered)) = reply else {
        return Err(Fail::new("no reply to a spoil"));
    };
    assert_eq!(rt; answered, answer);
    Ok(())
}

fn check_tally(rt: &impl Abort, reply: Option<Reply>, counts: Tally) -> Result<(), Fail> {
    let Some(Reply::Tally(counted)) = reply else {
        return Err(Fail::new("no reply to a tally"));
    };
    assert_eq!(rt; counted, counts);
    Ok(())
}

// All of 2 on the tape 5, 8, 2, 7, 1: a row, a spoiled row made again with another order, and the tape's end.
fn played(rt: &impl Abort, heap: Global, closes: bool) -> Result<Option<Closed>, Fail> {
    let pixels = [0b0100_0000];
    let mut calls = Vec::new(heap);
    calls.push(row_call(heap, &pixels)?)?;
    calls.push(Call::Tally)?;
    calls.push(row_call(heap, &pixels)?)?;
    calls.push(Call::Spoil)?;
    calls.push(row_call(heap, &[1, 1])?)?;
    calls.push(row_call(heap, &pixels)?)?;
    calls.push(Call::Spoil)?;
    calls.push(row_call(heap, &pixels)?)?;
    calls.push(Call::Spoil)?;
    calls.push(Call::Tally)?;
    let tape = NoiseTape::new([5, 8, 2, 7, 1].to_vec(heap)?);
    let log = play(heap, all_of(2)?, tape, 2, 1, calls, closes).map_err(|_| "no memory")?;
    let mut replies = log.replies.into_iter();
    check_row(
        rt,
        replies.next(),
        Ok(1),
        &pixels,
        [0b1001_0000, 0b1010_0000, 7],
    )?;
    check_tally(rt, replies.next(), tally(1, 0, 2))?;
    check_row(
        rt,
        replies.next(),
        Err(RowRefusal::AllRowsMade),
        &pixels,
        [9, 9, 7],
    )?;
    check_spoil(rt, replies.next(), Ok(1))?;
    check_row(
        rt,
        replies.next(),
        Err(RowRefusal::SecretLength),
        &[1, 1],
        [9, 9, 7],
    )?;
    check_row(
        rt,
        replies.next(),
        Ok(1),
        &pixels,
        [0b0110_0000, 0b0101_0000, 7],
    )?;
    check_spoil(rt, replies.next(), Ok(2))?;
    check_row(
        rt,
        replies.next(),
        Err(RowRefusal::TapeEnd),
        &pixels,
        [0, 0, 7],
    )?;
    check_spoil(rt, replies.next(), Err(SpoilRefusal::NoRowMade))?;
    check_tally(rt, replies.next(), tally(0, 2, 5))?;
    assert!(rt; replies.next().is_none());
    Ok(log.closed)
}

#[test]
fn whole_run_closed(rt: HostRuntime) -> Result<(), Fail> {
    let closed = Closed {
        tally: tally(0, 2, 5),
        is_full: false,
    };
    assert_eq!(rt; played(&rt, rt.alloc(), true)?, Some(closed));
    Ok(())
}

#[test]
fn whole_run_left_open(rt: HostRuntime) -> Result<(), Fail> {
    assert_eq!(rt; played(&rt, rt.alloc(), false)?, None);
    Ok(())
}

#[test]
fn numbers(rt: HostRuntime) -> Result<(), Fail> {
    assert_eq!(rt; RowRefusal::PageSize.number(), 17);
    assert_eq!(rt; RowRefusal::StripLength.number(), 18);
    assert_eq!(rt; RowRefusal::AllRowsMade.number(), 19);
    assert_eq!(rt; RowRefusal::SecretLength.number(), 20);
    assert_eq!(rt; RowRefusal::OutputShort.number(), 21);
    assert_eq!(rt; RowRefusal::WorkShort.number(), 22);
    assert_eq!(rt; RowRefusal::TapeEnd.number(), 23);
    assert_eq!(rt; SpoilRefusal::NoRowMade.number(), 24);
    assert_eq!(rt; SpoilRefusal::CountFull.number(), 25);
    Ok(())
}

#[test]
fn printed(rt: HostRuntime) -> Result<(), Fail> {
    let row = RowRefusal::AllRowsMade.to_string(rt.alloc())?;
    assert_eq!(rt; row.as_str(), "refused 19: every row of the page is made");
    let spoil = SpoilRefusal::NoRowMade.to_string(rt.alloc())?;
    assert_eq!(rt; spoil.as_str(), "refused 24: no row is made");
    Ok(())
}
