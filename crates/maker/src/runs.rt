// The calls of a run: making a maker, row, spoil, tally and close. What each answers and leaves is `outcome` of specs/Runs.
ghost use Rattle.std.specs.Prelude.{◌≡◌, length, IfOk};
ghost use Rattle.std.specs.Option.{option_map};
ghost use Rattle.schemes.specs.Refusals.{refusal_in, first_refusal};
ghost use Rattle.maker.specs.Refusals.{row_number, spoil_number};
ghost use Rattle.maker.specs.Runs.{fresh, row as row_call, spoil as spoil_call, tally as tally_call, close_answer, page_refusals, row_refusal};
ghost use Rattle.maker.specs.Law.{TapeOf, Conceals, Shows};
ghost use Rattle.maker.specs.Makers.{state_of, outcome_of, Leaves, Answers, row_written, tally_answer, answer_of};
ghost use Rattle.maker.specs.Filling.{PageFits, RowFits};

use crate::films::{SecretRow, Strips, write_films};
use crate::work_strip::WorkStrip;
use crate::{Maker, RowRefusal, SpoilRefusal};
use schemes::{MOST_PIXELS, MOST_SQUARES, Scheme, bytes_for, strip_squares};
use tapes::Tape;

// A page has at most so many rows.
pub const MOST_ROWS: u32 = 4096;

// How far a run is: rows made, rows spoiled, bytes taken.
#[derive(Clone, Copy, PartialEq, Eq, Debug)]
pub struct Tally {
    pub made: u32,
    pub spoiled: u16,
    pub taken: usize,
}

// How a run ended: its tally, and whether every row of the page was made.
#[derive(Clone, Copy, PartialEq, Eq, Debug)]
pub struct Closed {
    pub tally: Tally,
    pub is_full: bool,
}

impl<S: Scheme + Drop, T: Tape + Drop> Maker<S, T> {
    // A maker for a page of any width and height. It takes the scheme and the tape for itself. Nothing is refused here: a
    // page that is too small or too large is refused by each row.
    // Every run of such a maker keeps the law of specs/Law: `conceals` and `shows`.
    pub fn new(scheme: S, tape: T, width: u32, height: u32) -> Self
        ensures fresh { state_of S.means T.bytes result ≡ fresh (T.bytes tape) }
        ensures parts { (result.scheme ≡ scheme) × (result.tape ≡ tape) × (result.width ≡ width) × (result.height ≡ height) }
        ensures tape { TapeOf (length (T.bytes tape)) (T.bytes tape) }
        ensures conceals { Conceals (S.means scheme) width height }
        ensures shows { Shows (S.means scheme) width height }
    {
        let supply = tape.waiting();
        Maker {
            scheme,
            tape,
            width,
            height,
            made: 0,
            spoiled: 0,
            supply,
        }
    }

    // Makes the next row of the page. The secret row has a bit for each pixel, the highest bit of each byte first, 1 for
    // black; spare bits are ignored. The output gets the strips of keyholders 1 to n, one after another; bytes after them do
    // not change. The work strip has a byte for each column or more, and is all 0 afterwards, whatever the answer.
    // Answers the number of rows made. `TapeEnd` leaves the tape empty and zeros in the place of the strips; the other
    // refusals take no byte and leave the output unchanged.
    pub fn row(&mut self, secret: &[u8], out: &mut [u8], work: &mut [u8]) -> Result<u32, RowRefusal>
        ensures answers { Answers row_number result (outcome_of S.means T.bytes self.old (row_call secret.now out.old work.old)).answer }
        ensures output { out.new ≡ (outcome_of S.means T.bytes self.old (row_call secret.now out.old work.old)).out }
        ensures wiped { work.new ≡ (outcome_of S.means T.bytes self.old (row_call secret.now out.old work.old)).work }
        ensures leaves { Leaves S.means T.bytes self.old self.new (outcome_of S.means T.bytes self.old (row_call secret.now out.old work.old)) }
    {
        let guard = WorkStrip { strip: work };
        self.check_row(secret.len(), out.len(), guard.strip.len())?;
        self.write_row(secret, out, guard.strip)
    }

    // Takes back the row made last, so that it is made again. Answers the number of rows spoiled.
    pub fn spoil(&mut self) -> Result<u16, SpoilRefusal>
        ensures answers { Answers spoil_number result (outcome_of S.means T.bytes self.old spoil_call).answer }
        ensures leaves { Leaves S.means T.bytes self.old self.new (outcome_of S.means T.bytes self.old spoil_call) }
    {
        if self.made == 0 {
            return Err(SpoilRefusal::NoRowMade);
        }
        if self.spoiled == u16::MAX {
            return Err(SpoilRefusal::CountFull);
        }
        self.made -= 1;
        self.spoiled += 1;
        Ok(self.spoiled)
    }

    // Rows made, rows spoiled, bytes taken.
    pub fn tally(&self) -> Tally
        ensures { tally_answer result ≡ (outcome_of S.means T.bytes self.now tally_call).answer }
    {
        Tally {
            made: self.made,
            spoiled: self.spoiled,
            taken: self.supply.saturating_sub(self.tape.waiting()),
        }
    }

    // Ends the run. It is full if its page is of a size that rows are made of, and every row is made.
    pub fn close(self) -> Closed
        ensures { answer_of result ≡ close_answer (S.means self.scheme) self.width self.height (state_of S.means T.bytes self) }
    {
        Closed {
            tally: self.tally(),
            is_full: self.check_page().is_ok() && self.made == self.height,
        }
    }

    // Refuses a page of which no row is made, whatever its buffers.
    fn check_page(&self) -> Result<(), RowRefusal>
        ensures why { option_map row_number (refusal_in result) ≡ first_refusal (page_refusals (S.means self.now.scheme) self.now.width self.now.height) }
        ensures fits { IfOk result (λ _. PageFits (S.means self.now.scheme) self.now.width self.now.height) }
    {
        if !(1..=MOST_PIXELS).contains(&self.width) || !(1..=MOST_ROWS).contains(&self.height) {
            return Err(RowRefusal::PageSize);
        }
        if strip_squares(self.scheme.columns(), self.width) > MOST_SQUARES {
            return Err(RowRefusal::StripLength);
        }
        Ok(())
    }

    // Refuses a row before a byte is taken, by the lengths of its buffers.
    fn check_row(&self, secret: usize, out: usize, work: usize) -> Result<(), RowRefusal>
        ensures why { option_map row_number (refusal_in result) ≡ row_refusal (S.means self.now.scheme) self.now.width self.now.height self.now.made secret out work }
        ensures fits { IfOk result (λ _. RowFits (S.means self.now.scheme) self.now.width self.now.height self.now.made secret out work) }
    {
        self.check_page()?;
        if self.made == self.height {
            return Err(RowRefusal::AllRowsMade);
        }
        if secret != bytes_for(self.width as usize) {
            return Err(RowRefusal::SecretLength);
        }
        if out < Strips::new(&self.scheme, self.width).total() {
            return Err(RowRefusal::OutputShort);
        }
        if work < usize::from(self.scheme.columns()) {
            return Err(RowRefusal::WorkShort);
        }
        Ok(())
    }

    // Makes a row that is not refused before a byte is taken.
    fn write_row(
        &mut self,
        secret: &[u8],
        out: &mut [u8],
        work: &mut [u8],
    ) -> Result<u32, RowRefusal>
        requires { RowFits (S.means self.old.scheme) self.old.width self.old.height self.old.made (length secret.now) (length out.old) (length work.old) }
        ensures answers { Answers row_number result (row_written S.means T.bytes self.old secret.now out.old work.old).answer }
        ensures output { out.new ≡ (row_written S.means T.bytes self.old secret.now out.old work.old).out }
        ensures leaves { Leaves S.means T.bytes self.old self.new (row_written S.means T.bytes self.old secret.now out.old work.old) }
    {
        let row = SecretRow {
            pixels: secret,
            width: self.width,
        };
        write_films(&self.scheme, &mut self.tape, row, out, work).ok_or(RowRefusal::TapeEnd)?;
        self.made += 1;
        Ok(self.made)
    }
}
