// Why a row is not made, or not spoiled.
ghost use Rattle.std.specs.Prelude.{◌≡◌};
ghost use Rattle.maker.specs.Refusals.{row_number, spoil_number};

use std::fmt;

// Why a row is not made. All but `TapeEnd` take no byte and leave the output unchanged; of several the lowest is answered.
#[derive(Clone, Copy, PartialEq, Eq, Debug)]
pub enum RowRefusal {
    // The width or the height of the page is outside 1 to 4,096.
    PageSize = 17,
    // A strip would have more than 32,768 squares.
    StripLength = 18,
    // Every row of the page is made.
    AllRowsMade = 19,
    // The secret row is not a width of pixels long, in whole bytes.
    SecretLength = 20,
    // The output has no room for the strips of all keyholders.
    OutputShort = 21,
    // The work strip has no byte for each column.
    WorkShort = 22,
    // A byte was wanted, and none waited. The tape is empty now, and the strips in the output are 0.
    TapeEnd = 23,
}

impl RowRefusal {
    // The refusal's number.
    pub fn number(self) -> u8
        ensures { result ≡ row_number self }
    {
        self as u8 // 17 to 23
    }
}

impl fmt::Display for RowRefusal {
    fn fmt<W: fmt::Write>(&self, f: &mut fmt::Formatter<W>) -> fmt::Result {
        let words = match *self {
            RowRefusal::PageSize => "the width or the height is outside 1 to 4096",
            RowRefusal::StripLength => "a strip would have more than 32768 squares",
            RowRefusal::AllRowsMade => "every row of the page is made",
            RowRefusal::SecretLength => "the secret row is not as long as the page is wide",
            RowRefusal::OutputShort => "the output has no room for the strips of all keyholders",
            RowRefusal::WorkShort => "the work strip is shorter than the number of columns",
            RowRefusal::TapeEnd => "the tape ended before the row was made",
        };
        write_refusal(f, self.number(), words)
    }
}

// Why a row is not spoiled. The counts are as before.
#[derive(Clone, Copy, PartialEq, Eq, Debug)]
pub enum SpoilRefusal {
    // No row is made.
    NoRowMade = 24,
    // 65,535 rows are spoiled, and no more can be counted.
    CountFull = 25,
}

impl SpoilRefusal {
    // The refusal's number.
    pub fn number(self) -> u8
        ensures { result ≡ spoil_number self }
    {
        self as u8 // 24 and 25
    }
}

impl fmt::Display for SpoilRefusal {
    fn fmt<W: fmt::Write>(&self, f: &mut fmt::Formatter<W>) -> fmt::Result {
        let words = match *self {
            SpoilRefusal::NoRowMade => "no row is made",
            SpoilRefusal::CountFull => "65535 rows are spoiled already",
        };
        write_refusal(f, self.number(), words)
    }
}

// Prints a refusal: its number, and what was wrong.
// Private in each crate: nothing is proved of printed text, and a public call has a contract.
fn write_refusal<W: fmt::Write>(f: &mut fmt::Formatter<W>, number: u8, words: &str) -> fmt::Result {
    write!(f, "refused {number}: {words}")
}
